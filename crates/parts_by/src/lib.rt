// What commands are put together from. Bytes come in parts: the number of parts; for each how often it comes, its length and its bytes.
#![tactic(auto)]

use descriptor::Descriptor;
use script::{Input, byte, past};

// Sets a byte, if it is there.
pub fn put(room: &mut [u8], to: usize, b: u8) {
    if let Some(cell) = room.get_mut(to) {
        *cell = b;
    }
}

// The n bytes at the start of s into the room from a place on; 0 where s has none.
pub fn copy(s: &[u8], n: usize, room: &mut [u8], to: usize) {
    for i in 0..n {
        put(room, past(to, i), byte(s, i));
    }
}

// One part, into the room from a place on. What comes back is the place after it.
fn part(input: &mut Input, room: &mut [u8], to: usize) -> usize {
    let times = input.number();
    let n = input.number();
    let bytes = input.part(n);
    let mut next = to;
    for _ in 0..times {
        copy(bytes, n, room, next);
        next = past(next, n);
    }
    next
}

// All the parts. What comes back is their length.
pub fn parts(input: &mut Input, room: &mut [u8]) -> usize {
    let mut to = 0;
    for _ in 0..input.number() {
        to = part(input, room, to);
    }
    to
}

// A descriptor's numbers: kind, encoding, width, zero and rows.
pub fn descriptor(input: &mut Input) -> Descriptor {
    Descriptor {
        kind: input.number(),
        encoding: input.number(),
        width: input.number(),
        zero: input.number(),
        rows: input.number(),
    }
}
