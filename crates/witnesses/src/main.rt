// Builds the lists that meet the bounds of the estimate with equality (estimate_laws/specs/Witnesses), each by one append of a row so many
// times, and writes a line for each: the encoding, the rows, the builder's estimate, the length that finish answers, the runs recorded and
// the block. The file stdout has the figures of the theorems.
#![tactic(auto)]

use builder::Builder;
use cells::Areas;
use script::{first, refused, say};
use show_view::decimal;

// What is estimated and what is finished, by a builder and its areas.
fn show(builder: Builder, areas: &Areas) {
    let estimated = builder.estimate();
    refused(estimated.number);
    say(b" estimate");
    decimal(estimated.size);
    let mut block = [0u8; 30];
    let finished = builder.finish(
        areas.items,
        areas.ends,
        areas.flags,
        areas.counts,
        areas.keys,
        areas.lens,
        &mut block,
    );
    refused(finished.number);
    say(b" length");
    decimal(finished.len);
    say(b" runs");
    decimal(builder.counted.runs);
    say(b" block");
    for b in first(&block, finished.len) {
        say(b" ");
        io::print_hex(1, u64::from(*b), 2);
    }
}

// True, or null, n times by one call, and the builder after it.
fn append_into(builder: Builder, areas: &mut Areas, present: bool, n: usize) -> Builder {
    let appended = builder.append_times(
        areas.items,
        areas.ends,
        areas.flags,
        areas.counts,
        areas.keys,
        areas.lens,
        present,
        1,
        &[0],
        n,
    );
    refused(appended.number);
    appended.builder
}

// One slot of each area is enough, since equal rows are one run.
fn append(builder: Builder, present: bool, n: usize) {
    let mut areas = Areas {
        items: &mut [0u8; 1],
        ends: &mut [0u32; 1],
        flags: &mut [0u8; 1],
        counts: &mut [0u32; 1],
        keys: &mut [0i32; 1],
        lens: &mut [0u8; 1],
    };
    let next = append_into(builder, &mut areas, present, n);
    show(next, &areas);
}

// A column of bool, its kind the number 0.
fn witness(encoding: usize, present: bool, n: usize) {
    say(b"encoding");
    decimal(encoding);
    say(b" rows");
    decimal(n);
    say(b":");
    match builder::create(0, encoding, 0, 1000) {
        Ok(builder) => {
            append(builder, present, n);
        }
        Err(refusal) => {
            refused(u8::from(refusal));
        }
    }
    say(b"\n");
}

// One row, whose count has one byte, and 268,435,456, whose count has five. In a dictionary the one row is null, which is no entry.
fn main() {
    witness(2, true, 1);
    witness(2, true, 268435456);
    witness(3, true, 1);
    witness(3, true, 268435456);
    witness(4, false, 1);
    witness(4, true, 268435456);
}
