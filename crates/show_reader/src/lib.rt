// Reads rows into areas lent in part, and writes all that comes back, in hex: the answer, the whole reader and every lent byte.
#![tactic(auto)]

use block::Reader;
use script::{Input, say, show, show_each};

// How many slots of each area are lent.
#[derive(Clone, Copy)]
pub struct Lengths {
    pub values: usize,
    pub flags: usize,
    pub ends: usize,
    pub bytes: usize,
}

impl Lengths {
    pub fn taken(input: &mut Input) -> Lengths {
        Lengths {
            values: input.number(),
            flags: input.number(),
            ends: input.number(),
            bytes: input.number(),
        }
    }
}

pub fn show_reader(r: Reader) {
    show_each(&[r.kind, r.encoding, r.width, r.rows, r.len]);
    show_each(&[r.head.runs, r.head.counts, r.head.keys, r.head.entries]);
    show_each(&[r.place, r.spot.run, r.spot.at, r.spot.taken, r.nulls]);
}

// Reads into the areas, and shows all of them.
fn give(
    r: Reader,
    block: &[u8],
    skip: usize,
    size: usize,
    values: &mut [i64],
    flags: &mut [u8],
    ends: &mut [u32],
    bytes: &mut [u8],
) -> Reader {
    let answer = r.read(block, skip, size, values, flags, ends, bytes);
    say(b"read");
    show(answer.number);
    show_each(&[answer.rows, answer.bytes]);
    show_reader(answer.reader);
    say(b"\n values");
    show_each(values);
    say(b"\n flags");
    show_each(flags);
    say(b"\n ends");
    show_each(ends);
    say(b"\n bytes");
    show_each(bytes);
    answer.reader
}

// Lends areas of these lengths, filled with aa; the last of all flags is 0, which behind the rows given is no null. Where an area is too
// long nothing is read.
pub fn give_into(r: Reader, block: &[u8], skip: usize, size: usize, lent: Lengths) -> Reader {
    if 400 < lent.values || 400 < lent.flags || 64 < lent.ends || 255 < lent.bytes {
        return r;
    }
    let mut values = [0xaai64; 400];
    let mut flags = [0xaau8; 400];
    flags[399] = 0;
    let mut ends = [0xaau32; 64];
    let mut bytes = [0xaau8; 255];
    give(
        r,
        block,
        skip,
        size,
        &mut values[..lent.values],
        &mut flags[..lent.flags],
        &mut ends[..lent.ends],
        &mut bytes[..lent.bytes],
    )
}
