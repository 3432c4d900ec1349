// Runs the kinds and the run counts on chosen values, and writes a line for each: the input, and the bytes and numbers that the code gave. The file
// stdout has what the format says of them.
#![tactic(auto)]

use script::{first, rest, say, show_bytes};

fn number(n: u64) {
    io::print_decimal(1, n);
}

fn signed(v: i64) {
    if v < 0 {
        say(b"-");
    }
    number(v.unsigned_abs());
}

// The n bytes from a place on, as far as there are so many.
fn hex(s: &[u8], from: usize, n: usize) {
    show_bytes(first(rest(s, from), n));
}

// ---- run counts
fn found(count: Option<varint::Count>) {
    match count {
        Some(count) => {
            number(count.value as u64);
            say(b" ");
            number(count.len as u64);
        }
        None => {
            say(b"bad");
        }
    }
}

// What the bytes read as.
fn read(s: &[u8]) {
    say(b"read ");
    hex(s, 0, s.len());
    say(b" ");
    found(varint::decode_u32(s, 0));
    say(b"\n");
}

// A place in an area, and all that the area holds.
fn within(area: &[u8], at: usize) {
    say(b" at ");
    number(at as u64);
    say(b" in ");
    hex(area, 0, area.len());
}

// Writes a count into an area at a place, shows its bytes, their number and the whole area, and reads the count back from there.
fn written(value: u32, area: &mut [u8], at: usize) {
    say(b"count ");
    number(value as u64);
    match varint::encode_u32(value, area, at) {
        Some(len) => {
            say(b" ");
            hex(area, at, len);
            say(b" ");
            number(len as u64);
            within(area, at);
            say(b" read ");
            found(varint::decode_u32(area, at));
        }
        None => {
            say(b" no room");
            within(area, at);
        }
    }
    say(b"\n");
}

// In the middle of an area, so that its neighbours show.
fn count(value: u32) {
    let mut area = [0x55u8; 11];
    written(value, &mut area, 3);
}

fn counts() {
    for value in [
        0,
        1,
        127,
        128,
        150,
        300,
        16383,
        16384,
        2097151,
        2097152,
        268435455,
        268435456,
        0xefff_ffff,
        0xf000_0000,
        0xffff_ffff,
    ] {
        count(value);
    }
}

// Just enough room and one byte less, for two bytes and for five; a place at the end of the area, and one past it.
fn rooms() {
    let mut five = [0x55u8; 5];
    written(300, &mut five, 3);
    let mut four = [0x55u8; 4];
    written(300, &mut four, 3);
    written(1, &mut four, 4);
    written(1, &mut four, 5);
    let mut eight = [0x55u8; 8];
    written(0xffff_ffff, &mut eight, 4);
    written(0xffff_ffff, &mut eight, 3);
}

fn reads() {
    read(b"");
    read(b"\x80");
    read(b"\xac");
    read(b"\xff\xff\xff\xff");
    read(b"\xac\x02\x07");
    read(b"\x80\x00");
    read(b"\x81\x00");
    read(b"\xff\x00");
    read(b"\x80\x80\x00");
    read(b"\x80\x80\x80\x00");
    read(b"\x80\x80\x80\x80\x00");
    read(b"\xff\xff\xff\xff\x00");
    read(b"\x80\x01");
    read(b"\xff\x7f");
    read(b"\x80\x80\x01");
    read(b"\x80\x80\x80\x01");
    read(b"\x80\x80\x80\x80\x01");
    read(b"\x80\x80\x80\x80\x0f");
    read(b"\xff\xff\xff\xff\x0e");
    read(b"\xff\xff\xff\xff\x0f");
    read(b"\xff\xff\xff\xff\x10");
    read(b"\xff\xff\xff\xff\x7f");
    read(b"\x80\x80\x80\x80\x80\x00");
}

// ---- kinds
fn name(p: encode::Primitive) {
    match p {
        encode::Primitive::Bool => say(b"bool"),
        encode::Primitive::I16 => say(b"i16"),
        encode::Primitive::I32 => say(b"i32"),
        encode::Primitive::I64 => say(b"i64"),
        encode::Primitive::Date => say(b"date"),
        encode::Primitive::Timestamp => say(b"timestamp"),
        encode::Primitive::TimestampTz => say(b"timestamptz"),
        encode::Primitive::Interval => say(b"interval"),
        encode::Primitive::F64 => say(b"f64"),
    }
}

fn known(kind: encode::Kind) {
    match kind {
        encode::Kind::Fixed(p) => {
            name(p);
            say(b" ");
            number(p.width() as u64);
        }
        encode::Kind::Char(width) => {
            say(b"char ");
            number(width as u64);
        }
        encode::Kind::Blob(text) => {
            if text {
                say(b"string");
            } else {
                say(b"blob");
            }
        }
    }
}

// What a number and a width name, and how wide that is.
fn kind(id: usize, width: usize) {
    say(b"kind ");
    number(id as u64);
    say(b" ");
    number(width as u64);
    say(b" ");
    match encode::kind_of(id, width) {
        Some(k) => {
            known(k);
        }
        None => {
            say(b"unknown");
        }
    }
    say(b"\n");
}

fn kinds() {
    for (id, width) in [
        (0, 0),
        (1, 0),
        (2, 0),
        (3, 0),
        (4, 0),
        (5, 0),
        (6, 0),
        (7, 0),
        (7, 8),
        (8, 0),
        (8, 1),
        (8, 255),
        (8, 256),
        (9, 0),
        (9, 1),
        (10, 0),
        (10, 1),
        (11, 0),
        (11, 1),
        (11, 8),
        (12, 0),
    ] {
        kind(id, width);
    }
}

// What an item reads as.
fn item(p: encode::Primitive, bytes: [u8; 8]) {
    name(p);
    say(b" item ");
    hex(&bytes, 0, 8);
    say(b" ");
    signed(p.decode(bytes));
    say(b"\n");
}

// A value, its item where the kind takes it, and what the item reads as.
fn value(p: encode::Primitive, v: i64) {
    name(p);
    say(b" ");
    signed(v);
    if p.takes(v) {
        let bytes = p.encode(v);
        say(b" ");
        hex(&bytes, 0, 8);
        say(b" ");
        signed(p.decode(bytes));
    } else {
        say(b" not taken");
    }
    say(b"\n");
}

// The limits of each kind, one value beyond each limit where there is one, and a value whose bytes all differ.
fn bools() {
    for v in [-1, 0, 1, 2] {
        value(encode::Primitive::Bool, v);
    }
    item(encode::Primitive::Bool, [2, 0, 0, 0, 0, 0, 0, 0]);
    item(encode::Primitive::Bool, [255, 0, 0, 0, 0, 0, 0, 0]);
}

fn of_16_bits() {
    for v in [-32769, -32768, -1, 0x0102, 32767, 32768] {
        value(encode::Primitive::I16, v);
    }
}

fn of_32_bits(p: encode::Primitive) {
    for v in [
        -2147483649,
        -2147483648,
        -1,
        0x0102_0304,
        2147483647,
        2147483648,
    ] {
        value(p, v);
    }
}

fn of_64_bits(p: encode::Primitive) {
    for v in [
        -9223372036854775808,
        -1,
        0x0102_0304_0506_0708,
        9223372036854775807,
    ] {
        value(p, v);
    }
}

// Months and days in one value: a month less a day, and minus one month.
fn intervals() {
    for v in [0x1_ffff_ffff, -4294967296] {
        value(encode::Primitive::Interval, v);
    }
}

// By their bits: 0.0 and 1.0, the infinities, a quiet NaN and a signalling one. The least integer, above, is -0.0.
fn rates() {
    for v in [
        0,
        0x3ff0_0000_0000_0000,
        0x7ff0_0000_0000_0000,
        -4503599627370496,
        0x7ff8_0000_0000_0000,
        0x7ff0_0000_0000_0001,
    ] {
        value(encode::Primitive::F64, v);
    }
}

fn values() {
    bools();
    of_16_bits();
    of_32_bits(encode::Primitive::I32);
    of_64_bits(encode::Primitive::I64);
    of_32_bits(encode::Primitive::Date);
    of_64_bits(encode::Primitive::Timestamp);
    of_64_bits(encode::Primitive::TimestampTz);
    of_64_bits(encode::Primitive::Interval);
    intervals();
    of_64_bits(encode::Primitive::F64);
    rates();
}

fn main() {
    counts();
    rooms();
    reads();
    kinds();
    values();
}
