// The second engine's call.
ghost use Rattle.fill.specs.Areas.{areas};
ghost use Rattle.capi.specs.Promises.{GivesRow};

use descriptor::Descriptor;
use slow_answer::RowGiven;

// Row `row` of a block, found from its start, in the form of a read of one row.
#[unsafe(no_mangle)]
pub extern "C" fn idz_row(
    d: Descriptor,
    block: &[u8],
    row: usize,
    values: &mut [i64],
    flags: &mut [u8],
    ends: &mut [u32],
    bytes: &mut [u8],
) -> RowGiven
    ensures { GivesRow d block.now row (areas values.old flags.old ends.old bytes.old)
        result (areas values.new flags.new ends.new bytes.new) }
{
    slow::row(d, block, row, values, flags, ends, bytes)
}
