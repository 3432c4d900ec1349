// The calls on sheet files.
ghost use Rattle.capi.specs.Promises.{OpensColumn, WritesSheet};

use sheet::Found;
use sheet_writer::Written;

// Opens one column of a sheet file, counted from 0.
#[unsafe(no_mangle)]
pub extern "C" fn idz_sheet_open(file: &[u8], column: usize) -> Found
    ensures { OpensColumn file.now column result }
{
    sheet::open(file, column)
}

// Writes a sheet file: five numbers a column, kind, encoding, width, rows and its block's length, and the blocks one after the other.
#[unsafe(no_mangle)]
pub extern "C" fn idz_sheet_write(columns: &[usize], blocks: &[u8], out: &mut [u8]) -> Written
    ensures { WritesSheet columns.now blocks.now out.old result out.new }
{
    sheet_writer::write(columns, blocks, out)
}
