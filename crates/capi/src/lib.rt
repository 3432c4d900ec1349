// The calls for C and Rust, by the names that include/idzulgar.h declares: numbers, slices and records of numbers go in and
// come out, and each answer is the one of the crates below.
#![tactic(auto)]

mod building;
mod pairs;
mod rows;
mod salvages;
mod sheets;

ghost use Rattle.block.specs.Reading.{areas};
ghost use Rattle.capi.specs.Promises.{Opens, Reads, Remains};

use block::{Given, Left, Opening, Reader};

// Opens a block of `rows` rows.
#[unsafe(no_mangle)]
pub extern "C" fn idz_open(
    kind: usize,
    encoding: usize,
    width: usize,
    rows: usize,
    bytes: &[u8],
) -> Opening
    ensures { Opens kind encoding width rows bytes.now result }
{
    block::open_by_number(kind, encoding, width, rows, bytes)
}

// Passes over `skip` rows, then gives up to `size` of those behind them.
#[unsafe(no_mangle)]
pub extern "C" fn idz_read(
    reader: Reader,
    block: &[u8],
    skip: usize,
    size: usize,
    values: &mut [i64],
    flags: &mut [u8],
    ends: &mut [u32],
    bytes: &mut [u8],
) -> Given
    ensures { Reads reader block.now skip size
        (areas values.old flags.old ends.old bytes.old)
        result (areas values.new flags.new ends.new bytes.new) }
{
    reader.read(block, skip, size, values, flags, ends, bytes)
}

// How many rows are left.
#[unsafe(no_mangle)]
pub extern "C" fn idz_remaining(reader: Reader) -> Left
    ensures { Remains reader result }
{
    reader.remaining()
}
