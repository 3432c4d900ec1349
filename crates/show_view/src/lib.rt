// Reads sample A by the reader that keeps its block, and writes a line for each call: what was asked, the answer, and all that was lent.
// Numbers are written in decimal, each after a space.
#![tactic(auto)]

use script::{Shown, say};

// A number in decimal, behind a space.
pub fn decimal<T: Shown>(n: T) {
    say(b" ");
    io::print_decimal(1, n.bits());
}

pub fn signed(v: i64) {
    say(b" ");
    if v < 0 {
        say(b"-");
    }
    io::print_decimal(1, v.unsigned_abs());
}

// ---- a view

// Passes over some rows and asks for some, of a block of i32 coded by runs, with room for four values and these flags. Written are what was
// asked, and the answer: the number, the rows given, the row at which reading then stands, and all that was lent.
fn read(block: &[u8], rows: usize, skip: usize, most: usize, flags: &mut [u8]) {
    let mut values = [5i64; 4];
    let mut ends = [0u32; 1];
    let mut bytes = [0u8; 1];
    let given = view::read(
        2,
        2,
        0,
        rows,
        block,
        skip,
        most,
        &mut values,
        flags,
        &mut ends,
        &mut bytes,
    );
    say(b"read");
    decimal(rows);
    decimal(skip);
    decimal(most);
    say(b":");
    decimal(given.number);
    decimal(given.rows);
    say(b" at");
    decimal(given.reader.place);
    say(b" values");
    for v in &values {
        signed(*v);
    }
    say(b" flags");
    for f in flags {
        decimal(*f);
    }
    say(b"\n");
}

// Sample A: all of it, and parts of it.
fn reads_given(block: &[u8]) {
    read(block, 4, 0, 4, &mut [9; 4]);
    read(block, 4, 2, 1, &mut [9; 4]);
    read(block, 4, 3, 5, &mut [9; 4]);
    read(block, 4, 4, 5, &mut [9; 4]);
    read(block, 4, 1, 0, &mut [9; 4]);
    read(block, 4, 4, 0, &mut [9; 4]);
    read(block, 4, 3, 2, &mut [9]);
    read(block, 4, 2, 0, &mut [9]);
}

// Reads that are refused: too far, of nothing, of a block that isn't opened, and two rows where there is room for one.
fn reads_refused(block: &[u8]) {
    read(block, 4, 5, 1, &mut [9; 4]);
    read(block, 4, 5, 0, &mut [9; 4]);
    read(block, 4, 0, 0, &mut [9; 4]);
    read(block, 5, 0, 4, &mut [9; 4]);
    read(block, 5, 0, 0, &mut [9; 4]);
    read(block, 4, 1, 2, &mut [9]);
}

pub fn reads(block: &[u8]) {
    reads_given(block);
    reads_refused(block);
}
