// Where the parts of a block lie by the numbers at its head, and whether these numbers contradict the block's length and rows.
#![tactic(auto)]

ghost use Rattle.std.specs.Prelude.{◌≡◌, false, ◌+◌, ◌*◌, ◌≤◌};
ghost use Rattle.limits.specs.Limits.{MOST_ITEMS, MOST_BYTES};
ghost use Rattle.plain.specs.Plain.{least_bytes};
ghost use Rattle.nullable.specs.Nullable.{bitmap_length};
ghost use Rattle.format.specs.Opening.{most_rows};
ghost use Rattle.anatomy.specs.Tests.{no_runs, runs_outside, part_outside, runs_wrong, head_wrong};
ghost use Rattle.anatomy.specs.Parts.{plain_parts, nullable_parts, run_parts, null_run_parts, key_parts, parts_of, Right};

use encode::Kind;
use format::{Encoding, Head};
use source::{Marks, Source};

// A part of a block.
#[derive(Clone, Copy)]
pub struct Part {
    pub from: usize,
    pub to: usize,
}

// The parts of a block, and how they are read.
#[derive(Clone, Copy)]
pub struct Parts {
    pub source: Source,
    pub counts: Part,
    pub marks: Part,
    pub items: Part,
}

// The bytes that `n` items take at least.
fn least_bytes(kind: Kind, n: usize) -> usize
    requires { n ≤ MOST_ITEMS }
    ensures { (result ≡ least_bytes kind n) × (result ≤ 255 * MOST_ITEMS) }
{
    match kind {
        Kind::Fixed(p) => n * p.width(),
        Kind::Char(w) => n * (w as usize),
        Kind::Blob(_) => 4 * n,
    }
}

// Whether there are no runs and no counts, and so no parts of them.
fn no_runs(head: Head) -> bool
    ensures { result ≡ no_runs head }
{
    if head.runs == 0 {
        return head.counts == 0;
    }
    false
}

// Whether the counts, and `least` bytes behind them, pass the length of a run-length block.
fn runs_outside(len: usize, head: Head, least: usize) -> bool
    requires { (len ≤ MOST_BYTES) × (least ≤ 256 * MOST_ITEMS) }
    ensures { result ≡ runs_outside len head least }
{
    if no_runs(head) {
        return false;
    }
    // the counts alone pass it, and a sum with them could wrap
    if limits::MOST_BYTES < head.counts {
        return true;
    }
    len < 8 + head.counts + least
}

// Whether the keys and the entries of a dictionary pass the length of its block.
fn keys_outside(kind: Kind, len: usize, head: Head) -> bool
    requires { (len ≤ MOST_BYTES) × (head_wrong Encoding.Dictionary head 0 ≡ false) }
    ensures { result ≡ part_outside kind Encoding.Dictionary 0 len head }
{
    if limits::MOST_BYTES < head.keys {
        return true;
    }
    if len < 12 + head.keys + least_bytes(kind, head.entries) {
        return true;
    }
    runs_outside(head.keys, head, 4 * head.runs)
}

// Whether a part lies outside the block or is too short for its items.
pub fn part_outside(kind: Kind, encoding: Encoding, rows: usize, len: usize, head: Head) -> bool
    requires { (len ≤ MOST_BYTES) × (rows ≤ most_rows encoding) × (head_wrong encoding head 0 ≡ false) }
    ensures { result ≡ part_outside kind encoding rows len head }
{
    match encoding {
        Encoding::Plain => len < least_bytes(kind, rows),
        Encoding::Nullable => len < least_bytes(kind, rows) + (nullable::bitmap_len(rows) + 4),
        Encoding::RunLength => runs_outside(len, head, least_bytes(kind, head.runs)),
        Encoding::RunLengthNullable => {
            let bits = nullable::bitmap_len(head.runs) + 4;
            runs_outside(len, head, least_bytes(kind, head.runs) + bits)
        }
        Encoding::Dictionary => keys_outside(kind, len, head),
    }
}

// Whether there are too many runs, or the run passes them.
fn runs_wrong(head: Head, run: usize) -> bool
    ensures { result ≡ runs_wrong head run }
{
    if limits::MOST_ITEMS < head.runs {
        return true;
    }
    head.runs < run
}

// Whether the numbers of runs and entries pass a limit, or the run passes the runs.
pub fn head_wrong(encoding: Encoding, head: Head, run: usize) -> bool
    ensures { result ≡ head_wrong encoding head run }
{
    match encoding {
        Encoding::Plain | Encoding::Nullable => false,
        Encoding::RunLength | Encoding::RunLengthNullable => runs_wrong(head, run),
        Encoding::Dictionary => {
            if runs_wrong(head, run) {
                return true;
            }
            limits::MOST_ENTRIES < head.entries
        }
    }
}

// Every row an item, and no marks.
fn plain_parts(kind: Kind, rows: usize, len: usize) -> Parts
    ensures { result ≡ plain_parts kind rows len }
{
    let source = Source {
        kind,
        marks: Marks::Bare,
        items: rows,
        runs: 0,
        coded: false,
    };
    Parts {
        source,
        counts: Part { from: 0, to: 0 },
        marks: Part { from: 0, to: 0 },
        items: Part { from: 0, to: len },
    }
}

// Every row an item and a bit; the bitmap lies behind the items.
fn nullable_parts(kind: Kind, rows: usize, len: usize) -> Parts
    requires { (rows ≤ MOST_ITEMS) × (bitmap_length rows + 4 ≤ len) }
    ensures { result ≡ nullable_parts kind rows len }
{
    let source = Source {
        kind,
        marks: Marks::Bits,
        items: rows,
        runs: 0,
        coded: false,
    };
    let bitmap = nullable::bitmap_len(rows);
    let end = len - (bitmap + 4);
    Parts {
        source,
        counts: Part { from: 0, to: 0 },
        marks: Part {
            from: end,
            to: end + bitmap,
        },
        items: Part { from: 0, to: end },
    }
}

// Every run an item, and no marks; the items lie behind the counts.
fn run_parts(kind: Kind, len: usize, head: Head) -> Parts
    requires { no_runs head ≡ false → 8 + head.counts ≤ MOST_BYTES }
    ensures { result ≡ run_parts kind len head }
{
    let source = Source {
        kind,
        marks: Marks::Bare,
        items: head.runs,
        runs: head.runs,
        coded: true,
    };
    let none = Part { from: 0, to: 0 };
    if no_runs(head) {
        return Parts {
            source,
            counts: none,
            marks: none,
            items: none,
        };
    }
    let end = 8 + head.counts;
    Parts {
        source,
        counts: Part { from: 8, to: end },
        marks: none,
        items: Part { from: end, to: len },
    }
}

// Every run an item and a bit.
fn null_run_parts(kind: Kind, len: usize, head: Head) -> Parts
    requires { (head.runs ≤ MOST_ITEMS) × (len ≤ MOST_BYTES) × (no_runs head ≡ false → 8 + head.counts + (bitmap_length head.runs + 4) ≤ len) }
    ensures { result ≡ null_run_parts kind len head }
{
    let source = Source {
        kind,
        marks: Marks::Bits,
        items: head.runs,
        runs: head.runs,
        coded: true,
    };
    if no_runs(head) {
        let none = Part { from: 0, to: 0 };
        return Parts {
            source,
            counts: none,
            marks: none,
            items: none,
        };
    }
    let start = 8 + head.counts;
    let bitmap = nullable::bitmap_len(head.runs);
    let end = len - (bitmap + 4);
    Parts {
        source,
        counts: Part { from: 8, to: start },
        marks: Part {
            from: end,
            to: end + bitmap,
        },
        items: Part {
            from: start,
            to: end,
        },
    }
}

// Every run a key, behind the counts in the key block; the entries lie behind that.
fn key_parts(kind: Kind, len: usize, head: Head) -> Parts
    requires { (12 + head.keys ≤ MOST_BYTES) × (no_runs head ≡ false → 8 + head.counts ≤ head.keys) }
    ensures { result ≡ key_parts kind len head }
{
    let source = Source {
        kind,
        marks: Marks::Keys,
        items: head.entries,
        runs: head.runs,
        coded: true,
    };
    let end = 12 + head.keys;
    let items = Part { from: end, to: len };
    if no_runs(head) {
        let none = Part { from: 0, to: 0 };
        return Parts {
            source,
            counts: none,
            marks: none,
            items,
        };
    }
    let start = 20 + head.counts;
    Parts {
        source,
        counts: Part {
            from: 20,
            to: start,
        },
        marks: Part {
            from: start,
            to: end,
        },
        items,
    }
}

// Where the parts lie.
pub fn take_apart(kind: Kind, encoding: Encoding, rows: usize, len: usize, head: Head) -> Parts
    requires { Right kind encoding rows len head 0 }
    ensures { result ≡ parts_of kind encoding rows len head }
{
    match encoding {
        Encoding::Plain => plain_parts(kind, rows, len),
        Encoding::Nullable => nullable_parts(kind, rows, len),
        Encoding::RunLength => run_parts(kind, len, head),
        Encoding::RunLengthNullable => null_run_parts(kind, len, head),
        Encoding::Dictionary => key_parts(kind, len, head),
    }
}
