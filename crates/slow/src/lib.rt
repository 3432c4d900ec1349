// Row r of a block, found from the block's start each time, with no reader kept: the second engine, which shares definitions and declared
// types with the first and no function.
#![tactic(auto)]

ghost use Rattle.std.specs.Prelude.{◌≡◌};
ghost use Rattle.fill.specs.Areas.{areas};
ghost use Rattle.slow_answer.specs.Slow.{answer_of, row_shown};

use descriptor::Descriptor;
use limits::refusal::Refusal;
use slow_answer::RowGiven;

// Row `r` of a block, in the form of a read of one row.
pub fn row(
    d: Descriptor,
    block: &[u8],
    r: usize,
    values: &mut [i64],
    flags: &mut [u8],
    ends: &mut [u32],
    bytes: &mut [u8],
) -> RowGiven
    ensures value { result ≡ (row_shown d block.now r (areas values.old flags.old ends.old bytes.old)).answer }
    ensures bytes_after { areas values.new flags.new ends.new bytes.new
        ≡ (row_shown d block.now r (areas values.old flags.old ends.old bytes.old)).areas }
{
    slow_answer::RowGiven::from(given(d, block, r, values, flags, ends, bytes))
}

// How many bytes of char, blob or string the row has.
fn given(
    d: Descriptor,
    block: &[u8],
    r: usize,
    values: &mut [i64],
    flags: &mut [u8],
    ends: &mut [u32],
    bytes: &mut [u8],
) -> Result<usize, Refusal>
    ensures value { answer_of result ≡ (row_shown d block.now r (areas values.old flags.old ends.old bytes.old)).answer }
    ensures bytes_after { areas values.new flags.new ends.new bytes.new
        ≡ (row_shown d block.now r (areas values.old flags.old ends.old bytes.old)).areas }
{
    slow_rules::open_number(d, block)?;
    let Some(column) = slow_rules::column_of(d) else {
        return Err(Refusal::Column);
    };
    if d.rows <= r {
        return Err(Refusal::TooFar);
    }
    let place = slow_places::place_of(column.encoding, d.rows, block, r);
    slow_giving::give(
        column.kind,
        &block[place.from..place.to],
        place.items,
        place.item,
        values,
        flags,
        ends,
        bytes,
    )
}
