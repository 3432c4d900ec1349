// Runs the builder that append changes in place and the reader that keeps its block, on sample A and on calls that are refused,
// and writes a line for each call. The file stdout has what the definitions say of them.
#![tactic(auto)]

use builder::Builder;
use cells::Areas;
use script::say;
use show_server::append;
use show_view::{decimal, reads};

// Sample A: 7, once and twice more, and -1; then a row that is too large for its kind, and one that has no room, each once and no times;
// and one that would fill its run and begin another, which has no room. The integers, each with how many times it is appended.
const APPENDS: [(i64, usize); 8] = [
    (7, 1),
    (7, 2),
    (-1, 1),
    (2147483648, 1),
    (2147483648, 0),
    (8, 1),
    (8, 0),
    (-1, 4294967295),
];

// Sample A finished, and read back.
fn finish(builder: Builder, areas: &Areas) {
    let mut block = [0u8; 18];
    let finished = builder.finish(
        areas.items,
        areas.ends,
        areas.flags,
        areas.counts,
        areas.keys,
        areas.lens,
        &mut block,
    );
    say(b"finish:");
    decimal(finished.number);
    decimal(finished.len);
    say(b"\n");
    reads(&block);
}

fn appends(builder: Builder) {
    let mut areas = Areas {
        items: &mut [0u8; 8],
        ends: &mut [0u32; 1],
        flags: &mut [0u8; 1],
        counts: &mut [0u32; 2],
        keys: &mut [0i32; 1],
        lens: &mut [0u8; 1],
    };
    let mut full = builder;
    for (value, times) in APPENDS {
        full = append(full, &mut areas, value, times);
    }
    finish(full, &areas);
}

fn main() {
    match builder::create(2, 2, 0, 1000) {
        Ok(builder) => {
            appends(builder);
        }
        Err(_) => {
            say(b"refused\n");
        }
    }
}
