// Plain blocks of every kind: reading.
#![tactic(auto)]

mod texts;

ghost use Rattle.std.specs.Prelude.{◌≡◌, true, map, ◌+◌, ◌*◌, ◌<◌, ◌≤◌, ◌^◌, length, take, drop};
ghost use Rattle.std.proofs.lemmas.List.Edits.{sets};
ghost use Rattle.encode.specs.Bytes.{number, in_eight};
ghost use Rattle.encode.specs.Kinds.{width_of, blob};
ghost use Rattle.limits.specs.Limits.{MOST_ITEMS, is_width};
ghost use Rattle.limits.specs.Refusals.{number_in};
ghost use Rattle.plain.specs.Rows.{bytes_in};
ghost use Rattle.plain.specs.Plain.{places, shaped_at, fixed_at, plain_row, lengths_number, plain_number, least_bytes, ends_good, end_at, start_at, char_at};

use encode::{
    BoolKind, DateKind, FixedKind, I16Kind, I32Kind, I64Kind, Kind, Primitive, Shape, TimestampKind,
};
use limits::refusal::Refusal;

// ---- numbers and items at a place

// The item of W bytes at `at`, whole.
fn item_of<const W: usize>(s: &[u8], at: usize) -> [u8; 8]
    requires { (W ≤ 8) × (at + W ≤ length s.now) }
    ensures { result ≡ in_eight (take W (drop at s.now)) }
{
    let mut item = [0; 8];
    item[..W].copy_from_slice(&s[at..at + W]);
    item
}

// The item at `at`, whole beside its width. Each width that a fixed kind has is a copy of its own, of a known length.
pub fn item(s: &[u8], at: usize, width: usize) -> [u8; 8]
    requires { (is_width width ≡ true) × (at + width ≤ length s.now) }
    ensures { result ≡ in_eight (take width (drop at s.now)) }
{
    match width {
        8 => item_of::<8>(s, at),
        4 => item_of::<4>(s, at),
        2 => item_of::<2>(s, at),
        _ => item_of::<1>(s, at),
    }
}

// The number of the four bytes at `at`, lowest first.
pub fn u32_at(s: &[u8], at: usize) -> usize
    requires { at + 4 ≤ length s.now }
    ensures { (result ≡ number (take 4 (drop at s.now))) × (result < 2 ^ 32) }
{
    encode::low::<4>(item_of::<4>(s, at)) as usize
}

// ---- fixed kinds

// The value of item `i` of a shape's kinds.
fn value_as<K: FixedKind>(s: &[u8], i: usize) -> i64
    requires { (i < MOST_ITEMS) × (i * K.WIDTH + K.WIDTH ≤ length s.now) }
    ensures { result ≡ shaped_at K.shape s.now i }
{
    K::decode(item(s, i * K::WIDTH, K::WIDTH))
}

// The value of item `i`.
pub fn value_at(p: Primitive, s: &[u8], i: usize) -> i64
    requires { (i < MOST_ITEMS) × (i * width_of p + width_of p ≤ length s.now) }
    ensures { result ≡ fixed_at p s.now i }
{
    match p.shape() {
        Shape::Bool => value_as::<BoolKind>(s, i),
        Shape::Low2 => value_as::<I16Kind>(s, i),
        Shape::Low4 => value_as::<I32Kind>(s, i),
        Shape::Low8 => value_as::<I64Kind>(s, i),
        Shape::High4 => value_as::<DateKind>(s, i),
        Shape::High8 => value_as::<TimestampKind>(s, i),
    }
}

// The values of the `n` items from `from` on of a shape's kinds, so that no loop asks for the kind.
fn values_as<K: FixedKind>(s: &[u8], from: usize, n: usize, out: &mut [i64])
    requires { (from + n ≤ MOST_ITEMS) × (from * K.WIDTH + n * K.WIDTH ≤ length s.now) × (n ≤ length out.old) }
    ensures { out.new ≡ sets out.old 0 (map (shaped_at K.shape s.now) (places n from)) }
{
    for i in 0..n {
        out[i] = value_as::<K>(s, from + i);
    }
}

// The values of the `n` items from `from` on.
pub fn values(p: Primitive, s: &[u8], from: usize, n: usize, out: &mut [i64])
    requires { (from + n ≤ MOST_ITEMS) × (from * width_of p + n * width_of p ≤ length s.now) × (n ≤ length out.old) }
    ensures { out.new ≡ sets out.old 0 (map (fixed_at p s.now) (places n from)) }
{
    match p.shape() {
        Shape::Bool => values_as::<BoolKind>(s, from, n, out),
        Shape::Low2 => values_as::<I16Kind>(s, from, n, out),
        Shape::Low4 => values_as::<I32Kind>(s, from, n, out),
        Shape::Low8 => values_as::<I64Kind>(s, from, n, out),
        Shape::High4 => values_as::<DateKind>(s, from, n, out),
        Shape::High8 => values_as::<TimestampKind>(s, from, n, out),
    }
}

// ---- char, blob and string

// Where blob item `i` starts in the data, and where it ends.
pub fn start_at(s: &[u8], i: usize) -> usize
    requires { (i < MOST_ITEMS) × (4 * i ≤ length s.now) }
    ensures { (result ≡ start_at s.now i) × (result < 2 ^ 32) }
{
    if i == 0 {
        return 0;
    }
    u32_at(s, 4 * (i - 1))
}

pub fn end_at(s: &[u8], i: usize) -> usize
    requires { (i < MOST_ITEMS) × (4 * i + 4 ≤ length s.now) }
    ensures { (result ≡ end_at s.now i) × (result < 2 ^ 32) }
{
    u32_at(s, 4 * i)
}

// The length of char item `i`, cut at its first NUL.
fn char_len(s: &[u8], i: usize, w: usize) -> usize
    requires { (i < MOST_ITEMS) × (w < 256) × (i * w + w ≤ length s.now) }
    ensures { (result ≡ length (char_at w s.now i)) × (result ≤ w) }
{
    let at = i * w;
    s[at..at + w].iter().position(|b| *b == 0).unwrap_or(w)
}

// Where the bytes of an item lie in the block, and how many there are.
#[derive(Clone, Copy)]
pub struct Range {
    pub from: usize,
    pub len: usize,
}

// The bytes of char item `i` of `n`; of blob item `i`.
pub fn char_at(w: usize, n: usize, s: &[u8], i: usize) -> Range
    requires { (i < n) × (n ≤ MOST_ITEMS) × (w < 256) × (least_bytes (Kind.Char w) n ≤ length s.now) }
    ensures { (result.from + result.len ≤ length s.now) × (take result.len (drop result.from s.now) ≡ bytes_in (plain_row (Kind.Char w) n s.now i)) }
{
    Range {
        from: i * w,
        len: char_len(s, i, w),
    }
}

pub fn blob_at(n: usize, s: &[u8], i: usize) -> Range
    requires { (i < n) × (n ≤ MOST_ITEMS) × (least_bytes blob n ≤ length s.now) × (ends_good blob n s.now i ≡ true) }
    ensures { (result.from + result.len ≤ length s.now) × (take result.len (drop result.from s.now) ≡ bytes_in (plain_row blob n s.now i)) }
{
    let from = start_at(s, i);
    Range {
        from: 4 * n + from,
        len: end_at(s, i) - from,
    }
}

// ---- opening

// That `n` ends never fall and never pass the data, and the last one is the data's length.
fn check_ends(n: usize, s: &[u8]) -> Result<(), Refusal>
    requires { (n ≤ MOST_ITEMS) × (4 * n ≤ length s.now) }
    ensures { number_in result ≡ lengths_number blob n s.now }
{
    let data = s.len() - 4 * n;
    let mut last = 0;
    for i in 0..n {
        let end = end_at(s, i);
        if end < last {
            return Err(Refusal::Ends);
        }
        if data < end {
            return Err(Refusal::Ends);
        }
        last = end;
    }
    if last == data {
        Ok(())
    } else {
        Err(Refusal::Length)
    }
}

// What the plain rules say of `n` items of char; of blob, or of string, whose items are text.
fn check_chars(w: usize, n: usize, s: &[u8]) -> Result<(), Refusal>
    requires { (n ≤ MOST_ITEMS) × (w < 256) }
    ensures { number_in result ≡ plain_number (Kind.Char w) n s.now }
{
    if s.len() != n * w {
        return Err(Refusal::Length);
    }
    if texts::chars_are_text(w, n, s) {
        Ok(())
    } else {
        Err(Refusal::Text)
    }
}

fn check_blobs(text: bool, n: usize, s: &[u8]) -> Result<(), Refusal>
    requires { n ≤ MOST_ITEMS }
    ensures { number_in result ≡ plain_number (Kind.Blob text) n s.now }
{
    if s.len() < 4 * n {
        return Err(Refusal::Cut);
    }
    check_ends(n, s)?;
    if !text {
        return Ok(());
    }
    if texts::strings_are_text(n, s) {
        Ok(())
    } else {
        Err(Refusal::Text)
    }
}

// What the plain rules say of `n` items.
pub fn check(kind: Kind, n: usize, s: &[u8]) -> Result<(), Refusal>
    requires { n ≤ MOST_ITEMS }
    ensures { number_in result ≡ plain_number kind n s.now }
{
    match kind {
        Kind::Fixed(p) => {
            if s.len() == n * p.width() {
                Ok(())
            } else {
                Err(Refusal::Length)
            }
        }
        Kind::Char(w) => check_chars(w as usize, n, s),
        Kind::Blob(text) => check_blobs(text, n, s),
    }
}
