// Equality as given, and the lookup over the entries.
ghost use Rattle.std.specs.Prelude.{◌≡◌, ◌≢◌, true, cond, [], ◌+◌, ◌*◌, ◌≤◌, ltb, length, take, drop};
ghost use Rattle.encode.specs.Bytes.{number};
ghost use Rattle.encode.specs.Kinds.{blob};
ghost use Rattle.encode.specs.declared.Kind.TheVariants.{Char};
ghost use Rattle.encode.specs.Kinds.{width_of, true_or_false};
ghost use Rattle.limits.specs.Limits.{MOST_ITEMS, is_width};
ghost use Rattle.plain.specs.Rows.{value_of, bytes, same, same_bytes};
ghost use Rattle.lookup.specs.Held.{held, item_start, held_row, look_up};
ghost use Rattle.lookup.specs.First.{first_value, first_number};
ghost use Rattle.lookup.specs.Asking.{FieldsThere, BytesThere, ItemThere};

use crate::fields;
use encode::{Kind, Primitive, Shape};

// ---- equal as given

// Whether the bytes of `s` from `from` on are those of `t`, as many as `t` has.
fn same_as(s: &[u8], from: usize, t: &[u8]) -> bool
    requires { from + length t.now ≤ length s.now }
    ensures { result ≡ same_bytes t.now (take (length t.now) (drop from s.now)) }
{
    for i in 0..t.len() {
        if s[from + i] != t[i] {
            return false;
        }
    }
    true
}

// Whether the `n` bytes of `s` from `from` on are those of `t`: by length first.
fn same_bytes(s: &[u8], from: usize, n: usize, t: &[u8]) -> bool
    requires { from + n ≤ length s.now }
    ensures { result ≡ same_bytes t.now (take n (drop from s.now)) }
{
    if t.len() != n {
        return false;
    }
    same_as(s, from, t)
}

// Whether char item `i` is `item`; whether blob item `i`, which starts at `from`, is.
fn same_char(w: u8, items: &[u8], lens: &[u8], i: usize, item: &[u8]) -> bool
    requires { ItemThere (Char w) (held items.now [] lens.now) i }
    ensures { result ≡ same (bytes item.now) (held_row (Char w) (held items.now [] lens.now) i) }
{
    same_bytes(items, i * (w as usize), lens[i] as usize, item)
}

fn same_blob(items: &[u8], ends: &[u32], i: usize, from: usize, item: &[u8]) -> bool
    requires { ItemThere blob (held items.now ends.now []) i × (from ≡ item_start ends.now i) }
    ensures { result ≡ same (bytes item.now) (held_row blob (held items.now ends.now []) i) }
{
    same_bytes(items, from, fields::end_in(ends, i) - from, item)
}

// Whether item `i` is a row that is not null.
pub fn same_item(
    kind: Kind,
    items: &[u8],
    ends: &[u32],
    lens: &[u8],
    i: usize,
    value: i64,
    item: &[u8],
) -> bool
    requires { ItemThere kind (held items.now ends.now lens.now) i }
    ensures { result ≡ same (value_of kind value item.now) (held_row kind (held items.now ends.now lens.now) i) }
{
    match kind {
        Kind::Fixed(p) => plain::value_at(p, items, i) == value,
        Kind::Char(w) => same_char(w, items, lens, i, item),
        Kind::Blob(_) => same_blob(items, ends, i, fields::start_in(ends, i), item),
    }
}

// ---- the entries

// The first of `n` bools that is `want`, or `n`: any nonzero byte is true.
fn find_bool(items: &[u8], n: usize, want: bool) -> usize
    requires { n ≤ length items.now }
    ensures { result ≡ first_value Primitive.Bool items.now n (true_or_false want) }
{
    for i in 0..n {
        if (items[i] != 0) == want {
            return i;
        }
    }
    n
}

// The number of the first `W` of eight bytes, lowest first.
fn low<const W: usize>(item: [u8; 8]) -> u64
    requires { W ≢ 2 → W ≢ 4 → W ≡ 8 }
    ensures { result ≡ number (take W item) }
{
    if W == 2 {
        return encode::low::<2>(item);
    }
    if W == 4 {
        return encode::low::<4>(item);
    }
    encode::low::<8>(item)
}

// The first of `n` items of `W` bytes that have the number `want`, or `n`. The bytes are compared as one number, lowest first, whatever
// their order, and the loop asks for no kind.
fn find_number<const W: usize>(items: &[u8], n: usize, want: u64) -> usize
    requires { (is_width W ≡ true) × (W ≢ 2 → W ≢ 4 → W ≡ 8) × (n * W ≤ length items.now) }
    ensures { result ≡ first_number W items.now n want }
{
    let mut at = 0;
    for i in 0..n {
        if low::<W>(plain::item(items, at, W)) == want {
            return i;
        }
        at += W;
    }
    n
}

// The first of `n` items whose value is `value`, or `n`. A value that the kind doesn't take is none of them.
pub fn find_fixed(p: Primitive, items: &[u8], n: usize, value: i64) -> usize
    requires { n * width_of p ≤ length items.now }
    ensures { result ≡ first_value p items.now n value }
{
    if !p.takes(value) {
        return n;
    }
    let shape = p.shape();
    match shape {
        Shape::Bool => {
            let item = p.encode(value);
            find_bool(items, n, item[0] != 0)
        }
        Shape::Low2 => find_number::<2>(items, n, encode::low::<2>(p.encode(value))),
        Shape::Low4 | Shape::High4 => find_number::<4>(items, n, encode::low::<4>(p.encode(value))),
        Shape::Low8 | Shape::High8 => find_number::<8>(items, n, encode::low::<8>(p.encode(value))),
    }
}

// The length that a char item of the bytes has: no entry's where they are longer than the width, as no good one is.
fn held_len(w: u8, len: usize) -> usize
    ensures { result ≡ cond (ltb w len) 256 len }
{
    if (w as usize) < len {
        return 256;
    }
    len
}

// The first of `n` char items that is `item`, which becomes the next if it is new; none if a length up to there is above the width.
fn find_char(w: u8, items: &[u8], lens: &[u8], n: usize, item: &[u8]) -> Option<usize>
    requires { (n ≤ MOST_ITEMS) × (n ≤ length lens.now) × (n * w ≤ length items.now) }
    ensures { result ≡ look_up (Char w) n 0 (held items.now [] lens.now) (bytes item.now) }
{
    let len = held_len(w, item.len());
    for i in 0..n {
        let l = lens[i];
        if l as usize == len {
            if same_as(items, i * (w as usize), item) {
                return Some(i);
            }
        } else if w < l {
            return None;
        }
    }
    Some(n)
}

// The same of blob items, of `len` bytes in all; none if an end up to there is wrong.
fn find_blob(items: &[u8], len: usize, ends: &[u32], n: usize, item: &[u8]) -> Option<usize>
    requires { (n ≤ length ends.now) × (len ≤ length items.now) }
    ensures { result ≡ look_up blob n len (held items.now ends.now []) (bytes item.now) }
{
    if n == 0 {
        return Some(n);
    }
    let last = n - 1;
    // No `for` is plainer: the place and the end before it go on together, and both are used behind the loop.
    let mut i = 0;
    let mut from = 0;
    while i < last {
        let end = fields::end_in(ends, i);
        if end < from {
            return None;
        }
        if len < end {
            return None;
        }
        if same_bytes(items, from, end - from, item) {
            return Some(i);
        }
        from = end;
        i += 1;
    }
    if fields::blob_wrong(n, len, ends, i, from) {
        return None;
    }
    if same_blob(items, ends, i, from, item) {
        return Some(i);
    }
    Some(n)
}

// Which of `n` entries, of `len` bytes in all, a row is that is not null: the place of the first that equals it, which for a new
// row is the next; or none, if an entry up to there has a wrong field.
pub fn look_up(
    kind: Kind,
    n: usize,
    len: usize,
    items: &[u8],
    ends: &[u32],
    lens: &[u8],
    value: i64,
    item: &[u8],
) -> Option<usize>
    requires { (n ≤ MOST_ITEMS) × FieldsThere kind n (held items.now ends.now lens.now) × BytesThere kind n len (held items.now ends.now lens.now) }
    ensures { result ≡ look_up kind n len (held items.now ends.now lens.now) (value_of kind value item.now) }
{
    match kind {
        Kind::Fixed(p) => Some(find_fixed(p, items, n, value)),
        Kind::Char(w) => find_char(w, items, lens, n, item),
        Kind::Blob(_) => find_blob(items, len, ends, n, item),
    }
}
