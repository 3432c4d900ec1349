// One stored item against another.
#![tactic(auto)]

ghost use Rattle.std.specs.Prelude.{◌≡◌, true, ◌+◌, ◌*◌, ◌<◌, ◌≤◌, length, take, drop};
ghost use Rattle.limits.specs.Limits.{MOST_ITEMS, is_width};
ghost use Rattle.encode.specs.Kinds.{blob};
ghost use Rattle.encode.specs.declared.Primitive.TheVariants.{Bool as Boolean};
ghost use Rattle.plain.specs.Rows.{same, same_bytes};
ghost use Rattle.plain.specs.Plain.{plain_row, least_bytes};
ghost use Rattle.dict.specs.Dictionary.{entry_row};
ghost use Rattle.matching.specs.Matching.{There, Stored, equal_at, word_at};

use encode::Kind;

// ---- one item against another

// Whether two items are the same row as read. They are counted from 1 on; 0 is null, which is the same as null alone.
pub fn same_slot(
    kind: Kind,
    n: usize,
    items: &[u8],
    slot: usize,
    m: usize,
    others: &[u8],
    other: usize,
) -> bool
    requires { Stored kind n items.now slot × Stored kind m others.now other }
    ensures { result ≡ same (entry_row kind n items.now slot) (entry_row kind m others.now other) }
{
    if slot == 0 {
        return other == 0;
    }
    if other == 0 {
        return false;
    }
    same_item(kind, n, items, slot - 1, m, others, other - 1)
}

// The same of items that are counted from 0 on: by value for the fixed kinds, by their bytes for every other.
fn same_item(
    kind: Kind,
    n: usize,
    items: &[u8],
    i: usize,
    m: usize,
    others: &[u8],
    j: usize,
) -> bool
    requires { There kind n items.now i × There kind m others.now j }
    ensures { result ≡ same (plain_row kind n items.now i) (plain_row kind m others.now j) }
{
    match kind {
        Kind::Fixed(p) => plain::value_at(p, items, i) == plain::value_at(p, others, j),
        Kind::Char(w) => same_char(w as usize, n, items, i, m, others, j),
        Kind::Blob(_) => same_blob(n, items, i, m, others, j),
    }
}

// Two char items, each cut at its first NUL; two blob items.
fn same_char(w: usize, n: usize, items: &[u8], i: usize, m: usize, others: &[u8], j: usize) -> bool
    requires { (w < 256) × There (Kind.Char w) n items.now i × There (Kind.Char w) m others.now j }
    ensures { result ≡ same (plain_row (Kind.Char w) n items.now i) (plain_row (Kind.Char w) m others.now j) }
{
    let a = plain::char_at(w, n, items, i);
    let b = plain::char_at(w, m, others, j);
    same_part(items, a.from, a.len, others, b.from, b.len)
}

fn same_blob(n: usize, items: &[u8], i: usize, m: usize, others: &[u8], j: usize) -> bool
    requires { There blob n items.now i × There blob m others.now j }
    ensures { result ≡ same (plain_row blob n items.now i) (plain_row blob m others.now j) }
{
    let a = plain::blob_at(n, items, i);
    let b = plain::blob_at(m, others, j);
    same_part(items, a.from, a.len, others, b.from, b.len)
}

// Whether the `len` bytes of `a` from `from` on are the `n` bytes of `b` from `at` on: by length first.
pub fn same_part(a: &[u8], from: usize, len: usize, b: &[u8], at: usize, n: usize) -> bool
    requires { (from + len ≤ length a.now) × (at + n ≤ length b.now) }
    ensures { result ≡ same_bytes (take len (drop from a.now)) (take n (drop at b.now)) }
{
    if len != n {
        return false;
    }
    // Most parts that are held against each other differ in their first byte.
    if 0 < n && a[from] != b[at] {
        return false;
    }
    a[from..from + n] == b[at..at + n]
}

// ---- the same place of two plain columns

// Whether item `k` of each is the same: a bool, of which any nonzero byte is true; or of some bytes, which are compared as one number,
// lowest first, whatever their order.
pub fn same_bool(a: &[u8], b: &[u8], k: usize) -> bool
    requires { (k < length a.now) × (k < length b.now) }
    ensures { result ≡ equal_at Boolean a.now b.now k }
{
    (a[k] != 0) == (b[k] != 0)
}

// Of `W` bytes: two, four or eight.
pub fn same_word<const W: usize>(a: &[u8], b: &[u8], k: usize) -> bool
    requires { (is_width W ≡ true) × (k < MOST_ITEMS) × (k * W + W ≤ length a.now) × (k * W + W ≤ length b.now) }
    ensures { result ≡ word_at W a.now b.now k }
{
    let at = k * W;
    encode::low::<8>(plain::item(a, at, W)) == encode::low::<8>(plain::item(b, at, W))
}
