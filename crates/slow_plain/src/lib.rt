// Plain blocks, tested and read item by item: the second engine's own way, which shares no function with the first.
#![tactic(auto)]

ghost use Rattle.std.specs.Prelude.{◌≡◌, true, not, ◌+◌, ◌*◌, ◌^◌, ◌<◌, ◌≤◌, ltb, eqb, length, take, drop};
ghost use Rattle.limits.specs.Limits.{MOST_ITEMS};
ghost use Rattle.limits.specs.Refusals.{LENGTH, number_in};
ghost use Rattle.encode.specs.Kinds.{width_of, true_or_false, blob, string};
ghost use Rattle.encode.specs.declared.Kind.TheVariants.{Char};
ghost use Rattle.plain.specs.Plain.{end_at, start_at, fixed_at, char_at, blob_at, ends_good, least_bytes, lengths_number, all_text, plain_number};
ghost use Rattle.plain.specs.Rules.{◌if◌};
ghost use Rattle.slow_plain.specs.Items.{high_first, read_as, signed_by};

use encode::{Kind, Primitive};
use limits::refusal::Refusal;

// The bytes of an item: where they begin, and how many they are.
#[derive(Clone, Copy)]
pub struct Piece {
    pub from: usize,
    pub len: usize,
}

// ---- fixed kinds

// The bytes of an item, and whether the highest comes first.
pub fn width_of(p: Primitive) -> usize
    ensures { result ≡ width_of p }
{
    match p {
        Primitive::Bool => 1,
        Primitive::I16 => 2,
        Primitive::I32 => 4,
        Primitive::I64 => 8,
        Primitive::Date => 4,
        Primitive::Timestamp => 8,
        Primitive::TimestampTz => 8,
        Primitive::Interval => 8,
        Primitive::F64 => 8,
    }
}

fn high_first(p: Primitive) -> bool
    ensures { result ≡ high_first p }
{
    match p {
        Primitive::Bool => false,
        Primitive::I16 => false,
        Primitive::I32 => false,
        Primitive::I64 => false,
        Primitive::Date => true,
        Primitive::Timestamp => true,
        Primitive::TimestampTz => true,
        Primitive::Interval => true,
        Primitive::F64 => false,
    }
}

// Any nonzero byte is true.
fn truth(n: u64) -> i64
    ensures { result ≡ true_or_false (ltb 0 n) }
{
    if n == 0 {
        return 0;
    }
    1
}

// A number in two's complement: up to `half` it is itself; those above count down from -1, which is `top`.
fn signed(n: u64, half: u64, top: u64) -> i64
    requires { (n ≤ top) × (top ≡ half + half + 1) × (half < 2 ^ 63) }
    ensures { result ≡ signed_by n half top }
{
    if n <= half {
        return n as i64;
    }
    !((top - n) as i64)
}

// What a number of the kind's width reads as.
fn value_of(p: Primitive, n: u64) -> i64
    requires { n < 256 ^ width_of p }
    ensures { result ≡ read_as p n }
{
    match p {
        Primitive::Bool => truth(n),
        Primitive::I16 => signed(n, 0x7fff, 0xffff),
        Primitive::I32 => signed(n, 0x7fff_ffff, 0xffff_ffff),
        Primitive::I64 => signed(n, 0x7fff_ffff_ffff_ffff, 0xffff_ffff_ffff_ffff),
        Primitive::Date => signed(n, 0x7fff_ffff, 0xffff_ffff),
        Primitive::Timestamp => signed(n, 0x7fff_ffff_ffff_ffff, 0xffff_ffff_ffff_ffff),
        Primitive::TimestampTz => signed(n, 0x7fff_ffff_ffff_ffff, 0xffff_ffff_ffff_ffff),
        Primitive::Interval => signed(n, 0x7fff_ffff_ffff_ffff, 0xffff_ffff_ffff_ffff),
        Primitive::F64 => signed(n, 0x7fff_ffff_ffff_ffff, 0xffff_ffff_ffff_ffff),
    }
}

// An item's value.
pub fn value_at(p: Primitive, s: &[u8], i: usize) -> i64
    requires { (i < MOST_ITEMS) × (i * width_of p + width_of p ≤ length s.now) }
    ensures { result ≡ fixed_at p s.now i }
{
    let w = width_of(p);
    let n = slow_numbers::number_at(s, i * w, w, high_first(p));
    value_of(p, n)
}

// ---- char, blob and string

// The length of char item `i`, cut at its first NUL.
fn char_len(w: usize, s: &[u8], i: usize) -> usize
    requires { (i < MOST_ITEMS) × (w < 256) × (i * w + w ≤ length s.now) }
    ensures { (result ≡ length (char_at w s.now i)) × (result ≤ w) }
{
    let from = i * w;
    for len in 0..w {
        if s[from + len] == 0 {
            return len;
        }
    }
    w
}

// Char item `i`.
pub fn char_at(w: usize, n: usize, s: &[u8], i: usize) -> Piece
    requires { (i < n) × (n ≤ MOST_ITEMS) × (w < 256) × (least_bytes (Char w) n ≤ length s.now) }
    ensures { (result.from + result.len ≤ length s.now) × (take result.len (drop result.from s.now) ≡ char_at w s.now i) }
{
    Piece {
        from: i * w,
        len: char_len(w, s, i),
    }
}

// Where blob item `i` ends, and where it starts, counted from the first byte of the items.
fn end_at(s: &[u8], i: usize) -> usize
    requires { (i < MOST_ITEMS) × (4 * i + 4 ≤ length s.now) }
    ensures { (result ≡ end_at s.now i) × (result < 2 ^ 32) }
{
    slow_numbers::number_at(s, 4 * i, 4, false) as usize
}

fn start_at(s: &[u8], i: usize) -> usize
    requires { (i < MOST_ITEMS) × (4 * i ≤ length s.now) }
    ensures { (result ≡ start_at s.now i) × (result < 2 ^ 32) }
{
    if i == 0 {
        return 0;
    }
    end_at(s, i - 1)
}

// Blob item `i`.
pub fn blob_at(n: usize, s: &[u8], i: usize) -> Piece
    requires { (i < n) × (n ≤ MOST_ITEMS) × (least_bytes blob n ≤ length s.now) × (ends_good blob n s.now i ≡ true) }
    ensures { (result.from + result.len ≤ length s.now) × (take result.len (drop result.from s.now) ≡ blob_at n s.now i) }
{
    let start = start_at(s, i);
    Piece {
        from: 4 * n + start,
        len: end_at(s, i) - start,
    }
}

// ---- the rules

// The ends of `n` items: none falls below the one before or passes the data, and the last is the data's length.
fn ends_number(n: usize, s: &[u8]) -> Result<(), Refusal>
    requires { n ≤ MOST_ITEMS }
    ensures { number_in result ≡ lengths_number blob n s.now }
{
    if s.len() < 4 * n {
        return Err(Refusal::Cut);
    }
    let data = s.len() - 4 * n;
    let mut before = 0;
    for i in 0..n {
        let end = end_at(s, i);
        if end < before {
            return Err(Refusal::Ends);
        }
        if data < end {
            return Err(Refusal::Ends);
        }
        before = end;
    }
    if before != data {
        return Err(Refusal::Length);
    }
    Ok(())
}

fn lengths_number(kind: Kind, n: usize, s: &[u8]) -> Result<(), Refusal>
    requires { n ≤ MOST_ITEMS }
    ensures { number_in result ≡ lengths_number kind n s.now }
{
    match kind {
        Kind::Fixed(p) => whole(s.len(), n * width_of(p)),
        Kind::Char(w) => whole(s.len(), n * (w as usize)),
        Kind::Blob(_) => ends_number(n, s),
    }
}

fn whole(len: usize, due: usize) -> Result<(), Refusal>
    ensures { number_in result ≡ LENGTH if not (eqb len due) }
{
    if len == due {
        return Ok(());
    }
    Err(Refusal::Length)
}

// Whether each char item up to its first NUL is text, and each string item: two loops, since what they look up asks for other facts; one over a
// closure that says them is longer.
fn chars_are_text(w: usize, n: usize, s: &[u8]) -> bool
    requires { (n ≤ MOST_ITEMS) × (w < 256) × (n * w ≤ length s.now) }
    ensures { result ≡ all_text (Char w) n s.now }
{
    for i in 0..n {
        let item = char_at(w, n, s, i);
        if !slow_text::is_text(s, item.from, item.len) {
            return false;
        }
    }
    true
}

fn strings_are_text(n: usize, s: &[u8]) -> bool
    requires { (n ≤ MOST_ITEMS) × (lengths_number blob n s.now ≡ 0) }
    ensures { result ≡ all_text string n s.now }
{
    for i in 0..n {
        let item = blob_at(n, s, i);
        if !slow_text::is_text(s, item.from, item.len) {
            return false;
        }
    }
    true
}

fn is_text(kind: Kind, n: usize, s: &[u8]) -> bool
    requires { (n ≤ MOST_ITEMS) × (lengths_number kind n s.now ≡ 0) }
    ensures { result ≡ all_text kind n s.now }
{
    match kind {
        Kind::Fixed(_) => true,
        Kind::Char(w) => chars_are_text(w as usize, n, s),
        Kind::Blob(text) => {
            if text {
                return strings_are_text(n, s);
            }
            true
        }
    }
}

// The first rule that breaks.
pub fn plain_number(kind: Kind, n: usize, s: &[u8]) -> Result<(), Refusal>
    requires { n ≤ MOST_ITEMS }
    ensures { number_in result ≡ plain_number kind n s.now }
{
    lengths_number(kind, n, s)?;
    if is_text(kind, n, s) {
        return Ok(());
    }
    Err(Refusal::Text)
}
