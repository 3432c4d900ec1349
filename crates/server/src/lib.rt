// The server's builder: a record that append changes in place.
#![tactic(auto)]

ghost use Rattle.append.specs.Appending.{lent};
ghost use Rattle.builder.specs.Promises.{Appends, answer_of};

use builder::{Appended, Builder};

// Appends one row so many times to the builder behind the reference. A refused call leaves it as it was.
pub fn append(
    builder: &mut Builder,
    items: &mut [u8],
    ends: &mut [u32],
    flags: &mut [u8],
    counts: &mut [u32],
    keys: &mut [i32],
    lens: &mut [u8],
    present: bool,
    value: i64,
    item: &[u8],
    times: usize,
) -> u8
    ensures { Appends builder.old
        (lent items.old ends.old flags.old counts.old keys.old lens.old)
        times present value item.now (answer_of result builder.new)
        (lent items.new ends.new flags.new counts.new keys.new lens.new) }
{
    let answer = (*builder).append_times(
        items, ends, flags, counts, keys, lens, present, value, item, times,
    );
    *builder = answer.builder;
    answer.number
}

// The same with a builder by value, for callers that hold no reference: the builder lies here while it is changed.
pub fn append_to(
    builder: Builder,
    items: &mut [u8],
    ends: &mut [u32],
    flags: &mut [u8],
    counts: &mut [u32],
    keys: &mut [i32],
    lens: &mut [u8],
    present: bool,
    value: i64,
    item: &[u8],
    times: usize,
) -> Appended
    ensures { Appends builder
        (lent items.old ends.old flags.old counts.old keys.old lens.old)
        times present value item.now result
        (lent items.new ends.new flags.new counts.new keys.new lens.new) }
{
    let mut held = builder;
    let number = append(
        &mut held, items, ends, flags, counts, keys, lens, present, value, item, times,
    );
    Appended {
        number,
        builder: held,
    }
}
