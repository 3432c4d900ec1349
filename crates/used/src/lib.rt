// The entries of a dictionary block that rows use: which entry is the first that reads the same, and which of them have been used before.
#![tactic(auto)]

ghost use Rattle.std.specs.Prelude.{◌≡◌, true, cond, not, List, ℕ, ◌+◌, ◌*◌, ◌<◌, ◌≤◌, eqb, length, take, drop};
ghost use Rattle.limits.specs.Limits.{MOST_ITEMS};
ghost use Rattle.encode.specs.Kinds.{blob};
ghost use Rattle.plain.specs.Rows.{Row, bytes, same_bytes};
ghost use Rattle.plain.specs.Plain.{char_at, plain_number, least_bytes, ends_good};
ghost use Rattle.nullable.specs.Nullable.{bit_at};
ghost use Rattle.dict.specs.Dictionary.{index_of, with_entry, entry_row};
ghost use Rattle.used.specs.Used.{plain_rows, is_new, Firsts, Shown, Cut};

use encode::Kind;

// The first of `n` items that reads as item `slot` of `m` others does, which is counted from 1 on; or `n`.
pub fn first_like(kind: Kind, n: usize, items: &[u8], m: usize, others: &[u8], slot: usize) -> usize
    requires { (n ≤ MOST_ITEMS) × (plain_number kind n items.now ≡ 0) × (m ≤ MOST_ITEMS) × (plain_number kind m others.now ≡ 0) × (0 < slot) × (slot ≤ m) }
    ensures { result ≡ index_of (entry_row kind m others.now slot) (plain_rows kind n items.now) }
{
    match kind {
        Kind::Fixed(p) => lookup::find_fixed(p, items, n, plain::value_at(p, others, slot - 1)),
        Kind::Char(w) => {
            let width = w as usize;
            let want = plain::char_at(width, m, others, slot - 1);
            first_char(width, n, items, others, want.from, want.len)
        }
        Kind::Blob(_) => {
            let want = plain::blob_at(m, others, slot - 1);
            first_blob(n, items, others, want.from, want.len)
        }
    }
}

// Whether char item `i` of width `w`, cut at its first NUL, is the `len` bytes of `others` from `from` on, which hold none. The byte behind
// them is looked at first: it is a NUL, or the item ends before it.
fn is_char(w: usize, items: &[u8], i: usize, others: &[u8], from: usize, len: usize) -> bool
    requires { (i < MOST_ITEMS) × (w < 256) × (i * w + w ≤ length items.now) × Cut w others.now from len }
    ensures { result ≡ same_bytes (take len (drop from others.now)) (char_at w items.now i) }
{
    let at = i * w;
    if len < w {
        if items[at + len] != 0 {
            return false;
        }
    }
    matching::same_part(others, from, len, items, at, len)
}

// The first of `n` char items that is the `len` bytes of `others` from `from` on, or `n`. The same of blob items, each of which starts where
// the one before it ends.
fn first_char(w: usize, n: usize, items: &[u8], others: &[u8], from: usize, len: usize) -> usize
    requires { (n ≤ MOST_ITEMS) × (w < 256) × (least_bytes (Kind.Char w) n ≤ length items.now) × Cut w others.now from len }
    ensures { result ≡ index_of (bytes (take len (drop from others.now))) (plain_rows (Kind.Char w) n items.now) }
{
    for i in 0..n {
        if is_char(w, items, i, others, from, len) {
            return i;
        }
    }
    n
}

fn first_blob(n: usize, items: &[u8], others: &[u8], from: usize, len: usize) -> usize
    requires { (n ≤ MOST_ITEMS) × (least_bytes blob n ≤ length items.now) × ((i : ℕ) → i < n → ends_good blob n items.now i ≡ true) × (from + len ≤ length others.now) }
    ensures { result ≡ index_of (bytes (take len (drop from others.now))) (plain_rows blob n items.now) }
{
    let base = 4 * n;
    let mut at = 0;
    for i in 0..n {
        let end = plain::end_at(items, i);
        if matching::same_part(others, from, len, items, base + at, end - at) {
            return i;
        }
        at = end;
    }
    n
}

// Sets bit `i`, which is 0.
fn mark(bits: &mut [u8], i: usize)
    requires { (i < 8 * length bits.old) × (bit_at bits.old i ≡ 0) }
    ensures bits_len_unchanged { length bits.new ≡ length bits.old }
    ensures by_index { (j : ℕ) → bit_at bits.new j ≡ cond (eqb i j) 1 (bit_at bits.old j) }
{
    let k = i / 8;
    let shift = i % 8;
    bits[k] += 1u8 << shift;
}

// The first item that reads as entry `slot` does, which is counted from 1 on. A marked one is itself the first of its like.
pub fn name_of(kind: Kind, n: usize, items: &[u8], firsts: &[u8], slot: usize) -> usize
    requires { (n ≤ MOST_ITEMS) × (plain_number kind n items.now ≡ 0) × Firsts kind n items.now firsts.now × (0 < slot) × (slot ≤ n) }
    ensures { (result ≡ index_of (entry_row kind n items.now slot) (plain_rows kind n items.now)) × (result < n) }
{
    if nullable::bit_at(firsts, slot - 1) == 1 {
        return slot - 1;
    }
    first_like(kind, n, items, n, items, slot)
}

// Whether item `i` is not marked yet; it is then.
pub fn use_item(bits: &mut [u8], i: usize) -> bool
    requires { i < 8 * length bits.old }
    ensures value { result ≡ not (eqb (bit_at bits.old i) 1) }
    ensures bits_len_unchanged { length bits.new ≡ length bits.old }
    ensures by_index { (j : ℕ) → bit_at bits.new j ≡ cond (eqb i j) 1 (bit_at bits.old j) }
{
    if nullable::bit_at(bits, i) == 1 {
        return false;
    }
    mark(bits, i);
    true
}

// Whether the row that entry `slot` shows, from 1 on, is none of those that were shown before; it is one of them then. An entry that was
// met before shows none that is new, and so each is looked up once.
pub fn meet(
    kind: Kind,
    n: usize,
    items: &[u8],
    bits: &mut [u8],
    met: &mut [u8],
    slot: usize,
) -> bool
    requires { (n ≤ MOST_ITEMS) × (plain_number kind n items.now ≡ 0) × (n ≤ 8 * length bits.old) × (n ≤ 8 * length met.old) × (0 < slot) × (slot ≤ n) }
    ensures value { (es : List Row) → Shown kind n items.now bits.old met.old es
        → (result ≡ is_new es (entry_row kind n items.now slot))
        × Shown kind n items.now bits.new met.new (with_entry es (entry_row kind n items.now slot)) }
    ensures bits_len_unchanged { length bits.new ≡ length bits.old }
    ensures met_len_unchanged { length met.new ≡ length met.old }
{
    if !use_item(met, slot - 1) {
        return false;
    }
    let name = first_like(kind, n, items, n, items, slot);
    use_item(bits, name)
}

// The same where the firsts of their like that will be shown are known: such an entry isn't looked up.
pub fn meet_known(
    kind: Kind,
    n: usize,
    items: &[u8],
    firsts: &[u8],
    bits: &mut [u8],
    met: &mut [u8],
    slot: usize,
) -> bool
    requires { (n ≤ MOST_ITEMS) × (plain_number kind n items.now ≡ 0) × Firsts kind n items.now firsts.now
        × (n ≤ 8 * length bits.old) × (n ≤ 8 * length met.old) × (0 < slot) × (slot ≤ n) }
    ensures value { (es : List Row) → Shown kind n items.now bits.old met.old es
        → (result ≡ is_new es (entry_row kind n items.now slot))
        × Shown kind n items.now bits.new met.new (with_entry es (entry_row kind n items.now slot)) }
    ensures bits_len_unchanged { length bits.new ≡ length bits.old }
    ensures met_len_unchanged { length met.new ≡ length met.old }
{
    if nullable::bit_at(firsts, slot - 1) == 1 {
        return use_item(bits, slot - 1);
    }
    meet(kind, n, items, bits, met, slot)
}
