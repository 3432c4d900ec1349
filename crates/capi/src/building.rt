// The calls that build blocks.
ghost use Rattle.std.specs.Prelude.{◌≡◌, not, eqb};
ghost use Rattle.append.specs.Appending.{lent};
ghost use Rattle.builder.specs.Promises.{Appends};
ghost use Rattle.limits.specs.Refusals.{by_number};
ghost use Rattle.capi.specs.Answers.{no_builder, creation_of};
ghost use Rattle.capi.specs.Promises.{Creates, Finishes, Estimates, Asks};

use builder::{Appended, Asked, Builder, Estimated, Finished};
use limits::refusal::Refusal;

// What creation answers: 0 and a builder, or a refusal and the record that every call refuses.
#[repr(C)]
#[derive(Clone, Copy)]
pub struct Creation {
    pub number: u8,
    pub builder: Builder,
}

// The record beside a refused creation: no kind has this number.
fn no_builder() -> Builder
    ensures { result ≡ no_builder }
{
    Builder::new(255, 0, 0, 0, 0)
}

// A flag from C: 0 is null.
fn is_present(flag: u8) -> bool
    ensures { result ≡ not (eqb flag 0) }
{
    flag != 0
}

// The answer of a creation as it crosses to C.
fn creation_of(answer: Result<Builder, Refusal>) -> Creation
    ensures { result ≡ creation_of (by_number answer) }
{
    match answer {
        Ok(builder) => Creation { number: 0, builder },
        Err(refusal) => Creation {
            number: u8::from(refusal),
            builder: no_builder(),
        },
    }
}

// A builder with nothing appended. Its target is that of a dictionary's keys too.
#[unsafe(no_mangle)]
pub extern "C" fn idz_create(kind: usize, encoding: usize, width: usize, target: usize) -> Creation
    ensures { Creates kind encoding width target target result }
{
    creation_of(builder::create(kind, encoding, width, target))
}

// The same with another target for a dictionary's keys.
#[unsafe(no_mangle)]
pub extern "C" fn idz_create_with_key_target(
    kind: usize,
    encoding: usize,
    width: usize,
    target: usize,
    keytarget: usize,
) -> Creation
    ensures { Creates kind encoding width target keytarget result }
{
    creation_of(builder::create_with_key_target(kind, encoding, width, target, keytarget))
}

// Appends one row so many times, all or none: whether it is present, its integer for a fixed kind, its bytes for char, blob and string.
#[unsafe(no_mangle)]
pub extern "C" fn idz_append_times(
    builder: Builder,
    items: &mut [u8],
    ends: &mut [u32],
    flags: &mut [u8],
    counts: &mut [u32],
    keys: &mut [i32],
    lens: &mut [u8],
    present: u8,
    value: i64,
    item: &[u8],
    times: usize,
) -> Appended
    ensures { Appends builder
        (lent items.old ends.old flags.old counts.old keys.old lens.old)
        times (not (eqb present 0)) value item.now result
        (lent items.new ends.new flags.new counts.new keys.new lens.new) }
{
    let there = is_present(present);
    builder.append_times(
        items, ends, flags, counts, keys, lens, there, value, item, times,
    )
}

// Writes the block that the areas hold into the room.
#[unsafe(no_mangle)]
pub extern "C" fn idz_finish(
    builder: Builder,
    items: &[u8],
    ends: &[u32],
    flags: &[u8],
    counts: &[u32],
    keys: &[i32],
    lens: &[u8],
    out: &mut [u8],
) -> Finished
    ensures { Finishes builder
        (lent items.now ends.now flags.now counts.now keys.now lens.now)
        out.old result out.new }
{
    builder.finish(items, ends, flags, counts, keys, lens, out)
}

// The estimated size of the block.
#[unsafe(no_mangle)]
pub extern "C" fn idz_estimate(builder: Builder) -> Estimated
    ensures { Estimates builder result }
{
    builder.estimate()
}

// Whether to finish before a next row: whether that row is present, and the length of its bytes.
#[unsafe(no_mangle)]
pub extern "C" fn idz_should_finish(builder: Builder, present: u8, len: usize) -> Asked
    ensures { Asks builder (not (eqb present 0)) len result }
{
    let there = is_present(present);
    builder.should_finish(there, len)
}
