// A row's text, made in lent memory.
ghost use Rattle.std.specs.Prelude.{◌≡◌, ◌+◌, ◌*◌, ◌<◌, ◌≤◌, ◌^◌, length};
ghost use Rattle.std.specs.Int.{w32, w64};
ghost use Rattle.std.proofs.Common.{of_z, to_z};
ghost use Rattle.std.proofs.lemmas.List.Edits.{sets};
ghost use Rattle.plain.specs.Rows.{row_of};
ghost use Rattle.io.specs.Digits.{hex_digit_ascii as glyph_of};
ghost use Rattle.text.specs.Text.{decimal, number_text, interval_text, is_interval, value_text, hex_of, bytes_text, row_text, made_in, held_after};

use encode::{Kind, Primitive};

// A row as a reader hands it out: whether it is present, the value of a fixed kind, the bytes of a char, a blob or a string. The text's length
// comes back, or none where the lent memory is too short for it.
pub fn row_text(
    kind: Kind,
    present: bool,
    value: i64,
    bytes: &[u8],
    out: &mut [u8],
) -> Option<usize>
    ensures value { result ≡ made_in out.old (row_text kind (row_of kind present value bytes.now)) }
    ensures out_after { out.new ≡ held_after out.old (row_text kind (row_of kind present value bytes.now)) }
{
    if !present {
        return lay(b"null", out);
    }
    match kind {
        Kind::Fixed(p) => value_text(p, value, out),
        Kind::Char(_) => bytes_text(bytes, out),
        Kind::Blob(_) => bytes_text(bytes, out),
    }
}

// A text at the start of `out`.
fn lay(text: &[u8], out: &mut [u8]) -> Option<usize>
    ensures value { result ≡ made_in out.old text.now }
    ensures out_after { out.new ≡ held_after out.old text.now }
{
    let n = text.len();
    if out.len() < n {
        return None;
    }
    area::copy(text, 0, n, out, 0);
    Some(n)
}

// ---- numbers

// A value of a fixed kind. The longest is an Interval of 23 bytes.
fn value_text(p: Primitive, v: i64, out: &mut [u8]) -> Option<usize>
    ensures value { result ≡ made_in out.old (value_text p v) }
    ensures out_after { out.new ≡ held_after out.old (value_text p v) }
{
    let mut room = [0u8; 43];
    let n = put_value(p, v, &mut room, 0);
    lay(&room[..n], out)
}

#[tactic(auto, unfolding(crate::specs::Text::is_interval))]
fn is_interval(p: Primitive) -> bool
    ensures { result ≡ is_interval p }
{
    matches!(p, Primitive::Interval)
}

// A value's text at `at`, and the place behind it.
fn put_value(p: Primitive, v: i64, out: &mut [u8], at: usize) -> usize
    requires { at + 43 ≤ length out.old }
    ensures value { (result ≡ at + length (value_text p v)) × (result ≤ at + 43) }
    ensures out_after { out.new ≡ sets out.old at (value_text p v) }
{
    let bits = v.cast_unsigned();
    if is_interval(p) {
        return put_interval(bits, out, at);
    }
    put_number(bits, out, at)
}

// Months, a space, days.
fn put_interval(bits: u64, out: &mut [u8], at: usize) -> usize
    requires { at + 43 ≤ length out.old }
    ensures value { (result ≡ at + length (interval_text bits)) × (result ≤ at + 43) }
    ensures out_after { out.new ≡ sets out.old at (interval_text bits) }
{
    let to = put_half(bits / 0x1_0000_0000, out, at);
    out[to] = 32;
    put_half(bits % 0x1_0000_0000, out, to + 1)
}

// The number whose two's complement of 64 bits is u, with its sign; of 32 bits.
fn put_number(u: u64, out: &mut [u8], at: usize) -> usize
    requires { at + 21 ≤ length out.old }
    ensures value { (result ≡ at + length (number_text (to_z w64 u))) × (result ≤ at + 21) }
    ensures out_after { out.new ≡ sets out.old at (number_text (to_z w64 u)) }
{
    if u < 0x8000_0000_0000_0000 {
        return put_digits(u, out, at);
    }
    out[at] = 45;
    put_digits(0xffff_ffff_ffff_ffff - u + 1, out, at + 1)
}

fn put_half(u: u64, out: &mut [u8], at: usize) -> usize
    requires { (u < 2 ^ 32) × (at + 21 ≤ length out.old) }
    ensures value { (result ≡ at + length (number_text (to_z w32 u))) × (result ≤ at + 21) }
    ensures out_after { out.new ≡ sets out.old at (number_text (to_z w32 u)) }
{
    if u < 0x8000_0000 {
        return put_digits(u, out, at);
    }
    out[at] = 45;
    put_digits(0xffff_ffff - u + 1, out, at + 1)
}

// n's decimal digits.
fn put_digits(n: u64, out: &mut [u8], at: usize) -> usize
    requires { at + 20 ≤ length out.old }
    ensures value { (result ≡ at + length (decimal n)) × (result ≤ at + 20) }
    ensures out_after { out.new ≡ sets out.old at (decimal n) }
{
    let mut digits = [0u8; 20];
    let k = io::decimal(n, &mut digits);
    area::copy(&digits[..k], 0, k, out, at);
    at + k
}

// ---- bytes

fn bytes_text(bytes: &[u8], out: &mut [u8]) -> Option<usize>
    ensures value { result ≡ made_in out.old (bytes_text bytes.now) }
    ensures out_after { out.new ≡ held_after out.old (bytes_text bytes.now) }
{
    let n = bytes.len();
    if n == 0 {
        return lay(b"-", out);
    }
    if out.len() / 2 < n {
        return None;
    }
    put_hex(bytes, out);
    Some(2 * n)
}

// Two digits a byte.
fn put_hex(bytes: &[u8], out: &mut [u8])
    requires { 2 * length bytes.now ≤ length out.old }
    ensures { out.new ≡ sets out.old 0 (hex_of bytes.now) }
{
    for (i, b) in bytes.iter().enumerate() {
        out[2 * i] = glyph(b / 16);
        out[2 * i + 1] = glyph(b % 16);
    }
}

fn glyph(d: u8) -> u8
    requires { d < 16 }
    ensures { result ≡ glyph_of d }
{
    if d < 10 { b'0' + d } else { b'a' - 10 + d }
}
