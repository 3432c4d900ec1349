// The builder's record: made from numbers, changed and shown.
use builder::Builder;
use script::show_each;

// The record that stands where there is none: no call takes it.
pub fn no_builder() -> Builder {
    Builder::new(255, 0, 0, 0, 0)
}

// The record with another number in a field, counted from 0. A number names a field here alone, so an enum of the fields would tell the same
// twelve once more.
pub fn with(b: Builder, field: usize, value: usize) -> Builder {
    let mut next = b;
    match field {
        0 => next.kind = value,
        1 => next.encoding = value,
        2 => next.width = value,
        3 => next.target = value,
        4 => next.keytarget = value,
        5 => next.counted.rows = value,
        6 => next.counted.runs = value,
        7 => next.counted.entries = value,
        8 => next.counted.bytes = value,
        9 => next.counted.last = value,
        10 => next.counted.null = value,
        _ => next.counted.counts = value,
    }
    next
}

pub fn show_builder(b: Builder) {
    show_each(&[b.kind, b.encoding, b.width, b.target, b.keytarget]);
    let c = b.counted;
    show_each(&[c.rows, c.runs, c.entries, c.bytes, c.last, c.null, c.counts]);
}
