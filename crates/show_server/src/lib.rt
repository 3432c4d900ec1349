// Appends an integer so many times by the builder that append changes in place, and writes a line: the integer, how many times, the number,
// and what the builder has counted.
#![tactic(auto)]

use builder::Builder;
use cells::Areas;
use script::say;
use show_view::{decimal, signed};

// The builder with the integer appended. Of the builder are written its rows, its runs, the last run's count and the bytes of its items.
pub fn append(builder: Builder, areas: &mut Areas, value: i64, times: usize) -> Builder {
    let answer = server::append_to(
        builder,
        areas.items,
        areas.ends,
        areas.flags,
        areas.counts,
        areas.keys,
        areas.lens,
        true,
        value,
        &[0],
        times,
    );
    say(b"append");
    signed(value);
    say(b" times");
    decimal(times);
    say(b":");
    decimal(answer.number);
    say(b" builder");
    let counted = answer.builder.counted;
    decimal(counted.rows);
    decimal(counted.runs);
    decimal(counted.last);
    decimal(counted.bytes);
    say(b"\n");
    answer.builder
}
