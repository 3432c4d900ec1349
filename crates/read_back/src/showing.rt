// Rows as they were read.
use block::Reader;
use encode::Kind;
use script::{byte, first, rest, say, show, show_bytes};

// Rows that are integers, as far as there are slots for so many.
fn show_ints(n: usize, values: &[i64], flags: &[u8]) {
    for (i, v) in first(values, n).iter().enumerate() {
        if byte(flags, i) == 0 {
            say(b" null");
        } else {
            show(*v);
        }
    }
}

// Rows that are bytes: each from the end of the one before to its own.
fn show_texts(n: usize, flags: &[u8], ends: &[u32], bytes: &[u8]) {
    let mut from = 0;
    for (i, end) in first(ends, n).iter().enumerate() {
        let to = *end as usize;
        if byte(flags, i) == 0 {
            say(b" null");
        } else {
            say(b" =");
            show_bytes(rest(first(bytes, to), from));
        }
        from = to;
    }
}

pub fn show_rows(
    reader: Reader,
    n: usize,
    values: &[i64],
    flags: &[u8],
    ends: &[u32],
    bytes: &[u8],
) {
    show(n);
    say(b":");
    // rows of a fixed kind are integers, those of the others bytes
    if let Some(Kind::Fixed(_)) = encode::kind_of(reader.kind, reader.width) {
        show_ints(n, values, flags);
    } else {
        show_texts(n, flags, ends, bytes);
    }
}
