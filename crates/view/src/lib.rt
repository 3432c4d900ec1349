// A reader that keeps the lent block it was opened on: thin functions over those of `block`.
#![tactic(auto)]

ghost use Rattle.std.specs.Prelude.{◌≡◌};
ghost use Rattle.block.specs.Reading.{Areas, Batch, areas, opened, read as read_of, remaining, opening_of};
ghost use Rattle.view.specs.Viewing.{read_block};
ghost use Rattle.view.specs.Stepwise.{Read, stepwise};

use block::{Given, Reader};

// A block, and where reading stands in it.
#[derive(Clone, Copy)]
pub struct View<'a> {
    pub block: &'a [u8],
    pub reader: Reader,
}

// What opening answers. Beside a refusal stands a reader that every call refuses.
#[derive(Clone, Copy)]
pub struct Viewed<'a> {
    pub number: u8,
    pub view: View<'a>,
}

// What a read answers: the rows given and, for char, blob and string, the bytes written; or a refusal with the view as it was.
#[derive(Clone, Copy)]
pub struct Taken<'a> {
    pub number: u8,
    pub rows: usize,
    pub bytes: usize,
    pub view: View<'a>,
}

// What asking for the remaining rows answers: the view comes back as it was.
#[derive(Clone, Copy)]
pub struct Unread<'a> {
    pub number: u8,
    pub rows: usize,
    pub view: View<'a>,
}

// Opens a block of `rows` rows, and keeps it.
pub fn open<'a>(
    kind: usize,
    encoding: usize,
    width: usize,
    rows: usize,
    block: &'a [u8],
) -> Viewed<'a>
    ensures { (result.number ≡ (opening_of (opened kind encoding width rows block.now)).number)
        × (result.view.block ≡ block.entry)
        × (result.view.reader ≡ (opening_of (opened kind encoding width rows block.now)).reader) }
{
    let opening = block::open_by_number(kind, encoding, width, rows, block);
    let reader = opening.reader;
    let view = View { block, reader };
    let number = opening.number;
    Viewed { number, view }
}

impl<'a> View<'a> {
    // Passes over `skip` rows, then gives up to `size` of those behind them; if that can't be done whole, nothing is.
    pub fn read(
        self,
        skip: usize,
        size: usize,
        values: &mut [i64],
        flags: &mut [u8],
        ends: &mut [u32],
        bytes: &mut [u8],
    ) -> Taken<'a>
        ensures number_value { (result.number
            ≡ (read_of self.entry.reader self.entry.block.now skip size (areas values.old flags.old ends.old bytes.old)).answer.number)
            × (result.rows
            ≡ (read_of self.entry.reader self.entry.block.now skip size (areas values.old flags.old ends.old bytes.old)).answer.rows)
            × (result.bytes
            ≡ (read_of self.entry.reader self.entry.block.now skip size (areas values.old flags.old ends.old bytes.old)).answer.bytes)
            × (result.view.block ≡ self.entry.block)
            × (result.view.reader
            ≡ (read_of self.entry.reader self.entry.block.now skip size (areas values.old flags.old ends.old bytes.old)).answer.reader) }
        ensures values_after { values.new
            ≡ (read_of self.entry.reader self.entry.block.now skip size (areas values.old flags.old ends.old bytes.old)).areas.values }
        ensures flags_after { flags.new
            ≡ (read_of self.entry.reader self.entry.block.now skip size (areas values.old flags.old ends.old bytes.old)).areas.flags }
        ensures ends_after { ends.new
            ≡ (read_of self.entry.reader self.entry.block.now skip size (areas values.old flags.old ends.old bytes.old)).areas.ends }
        ensures bytes_after { bytes.new
            ≡ (read_of self.entry.reader self.entry.block.now skip size (areas values.old flags.old ends.old bytes.old)).areas.bytes }
    {
        let answer = self
            .reader
            .read(self.block, skip, size, values, flags, ends, bytes);
        let block = self.block;
        let reader = answer.reader;
        let view = View { block, reader };
        let number = answer.number;
        let rows = answer.rows;
        let count = answer.bytes;
        Taken {
            number,
            rows,
            bytes: count,
            view,
        }
    }

    // How many rows are left.
    pub fn remaining(self) -> Unread<'a>
        ensures { (result.number ≡ (remaining self.entry.reader).number)
            × (result.rows ≡ (remaining self.entry.reader).rows)
            × (result.view.block ≡ self.entry.block)
            × (result.view.reader ≡ (remaining self.entry.reader).reader) }
    {
        let answer = self.reader.remaining();
        let block = self.block;
        let reader = answer.reader;
        let view = View { block, reader };
        let number = answer.number;
        let rows = answer.rows;
        Unread { number, rows, view }
    }
}

// ---- one function above them, with plain parameters

// What the two calls answered, one after the other.
#[derive(Clone, Copy)]
struct Steps {
    opened: u8,
    given: u8,
    rows: usize,
    bytes: usize,
    reader: Reader,
}

// Opens and reads. After a refused opening the read is one of a reader that is refused as well, and writes nothing.
fn go_through(
    kind: usize,
    encoding: usize,
    width: usize,
    rows: usize,
    block: &[u8],
    skip: usize,
    size: usize,
    values: &mut [i64],
    flags: &mut [u8],
    ends: &mut [u32],
    bytes: &mut [u8],
) -> Steps
    ensures value { result
        ≡ (stepwise (opening_of (opened kind encoding width rows block.now)) block.now skip size
        (areas values.old flags.old ends.old bytes.old)).answer }
    ensures values_after { values.new
        ≡ (stepwise (opening_of (opened kind encoding width rows block.now)) block.now skip size
        (areas values.old flags.old ends.old bytes.old)).areas.values }
    ensures flags_after { flags.new
        ≡ (stepwise (opening_of (opened kind encoding width rows block.now)) block.now skip size
        (areas values.old flags.old ends.old bytes.old)).areas.flags }
    ensures ends_after { ends.new
        ≡ (stepwise (opening_of (opened kind encoding width rows block.now)) block.now skip size
        (areas values.old flags.old ends.old bytes.old)).areas.ends }
    ensures bytes_after { bytes.new
        ≡ (stepwise (opening_of (opened kind encoding width rows block.now)) block.now skip size
        (areas values.old flags.old ends.old bytes.old)).areas.bytes }
{
    let opened = open(kind, encoding, width, rows, block);
    let taken = opened.view.read(skip, size, values, flags, ends, bytes);
    Steps {
        opened: opened.number,
        given: taken.number,
        rows: taken.rows,
        bytes: taken.bytes,
        reader: taken.view.reader,
    }
}

// Opens a block, passes over `skip` rows, and gives up to `size` of those behind them: the opening's refusal, or the read's answer.
pub fn read(
    kind: usize,
    encoding: usize,
    width: usize,
    rows: usize,
    block: &[u8],
    skip: usize,
    size: usize,
    values: &mut [i64],
    flags: &mut [u8],
    ends: &mut [u32],
    bytes: &mut [u8],
) -> Given
    ensures value { result ≡ (read_block kind encoding width rows block.now skip size (areas values.old flags.old ends.old bytes.old)).answer }
    ensures values_after { values.new
        ≡ (read_block kind encoding width rows block.now skip size (areas values.old flags.old ends.old bytes.old)).areas.values }
    ensures flags_after { flags.new
        ≡ (read_block kind encoding width rows block.now skip size (areas values.old flags.old ends.old bytes.old)).areas.flags }
    ensures ends_after { ends.new
        ≡ (read_block kind encoding width rows block.now skip size (areas values.old flags.old ends.old bytes.old)).areas.ends }
    ensures bytes_after { bytes.new
        ≡ (read_block kind encoding width rows block.now skip size (areas values.old flags.old ends.old bytes.old)).areas.bytes }
{
    let steps = go_through(
        kind, encoding, width, rows, block, skip, size, values, flags, ends, bytes,
    );
    let number = in_turn::first_refusal(steps.opened, steps.given);
    let reader = steps.reader;
    Given {
        number,
        rows: steps.rows,
        bytes: steps.bytes,
        reader,
    }
}
