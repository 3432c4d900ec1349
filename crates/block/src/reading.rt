// The reader's calls: open, remaining and read.
ghost use Rattle.std.specs.Prelude.{◌≡◌, true, ◌+◌, ◌≤◌, ◌<◌, ◌^◌, length, take};
ghost use Rattle.limits.specs.Limits.{MOST_ITEMS};
ghost use Rattle.limits.specs.Refusals.{by_number};
ghost use Rattle.rle.specs.Pieces.{reached};
ghost use Rattle.format.specs.Blocks.{column_of};
ghost use Rattle.anatomy.specs.Parts.{AllWithin};
ghost use Rattle.part_rows.specs.PartRows.{steps_by};
ghost use Rattle.fill.specs.Areas.{areas};
ghost use Rattle.block.specs.Reading.{reader_at, opened, no_reader, wrong as contradicts, remaining as remaining_of, counted, asks_nothing, read as read_of};
ghost use Rattle.block.specs.Spots.{start_of, moved_by, nulls_by, tests_of, given_of};

use crate::{Given, Left, Reader};
use anatomy::Parts;
use encode::Kind;
use format::{Column, Encoding, Head};
use limits::refusal;
use limits::refusal::Refusal;
use rle::Spot;
use source::Marks;

// Opens a block of `rows` rows. The refusals come in the order of document 01.
pub fn open(
    kind: usize,
    encoding: usize,
    width: usize,
    rows: usize,
    block: &[u8],
) -> Result<Reader, Refusal>
    ensures { by_number result ≡ opened kind encoding width rows block.now }
{
    let found = format::column_of(kind, encoding, width);
    let Some(column) = found else {
        return Err(Refusal::Column);
    };
    let e = column.encoding;
    let len = block.len();
    if limits::MOST_BYTES < len {
        return Err(Refusal::Limit);
    }
    if format::most_rows(e) < rows {
        return Err(Refusal::Limit);
    }
    let head = format::check(column.kind, e, rows, block)?;
    Ok(Reader::at_start(kind, encoding, width, rows, len, head))
}

// The record beside a refused opening: no kind has this number, so that nobody reads a bad column as an empty one.
pub fn no_reader() -> Reader
    ensures { result ≡ no_reader }
{
    let none = Head {
        runs: 0,
        counts: 0,
        keys: 0,
        entries: 0,
    };
    Reader::at_start(255, 0, 0, 0, 0, none)
}

// The place after `n` rows.
fn pass(parts: Parts, from: Spot, block: &[u8], n: usize) -> Option<Spot>
    requires { AllWithin parts (length block.now) × (parts.source.runs ≤ MOST_ITEMS) × (from.run + n < 2 ^ 64) }
    ensures { result ≡ reached (steps_by parts from block.now n) }
{
    let source = parts.source;
    if !source.coded {
        return Some(Spot {
            run: from.run + n,
            at: from.at,
            taken: from.taken,
        });
    }
    let counts = parts.counts;
    let a = counts.from;
    let b = counts.to;
    rle::advance(&block[a..b], source.runs, from, n)
}

// Whether a read would pass over no rows and give none.
fn nothing_asked(skip: usize, size: usize) -> bool
    ensures { result ≡ asks_nothing skip size }
{
    if skip != 0 {
        return false;
    }
    size == 0
}

// The nulls among `n` rows whose flags are written: rows with no marks are there, so their flags aren't looked at.
fn nulls_given(by: Marks, flags: &[u8], n: usize) -> usize
    requires { n ≤ length flags.now }
    ensures { (result ≡ nulls_by by (take n flags.now)) × (result ≤ n) }
{
    match by {
        Marks::Bare => 0,
        Marks::Bits => zeros::zeros(flags, n),
        Marks::Keys => zeros::zeros(flags, n),
    }
}

impl Reader {
    // A reader before the first row.
    pub fn at_start(
        kind: usize,
        encoding: usize,
        width: usize,
        rows: usize,
        len: usize,
        head: Head,
    ) -> Reader
        ensures { result ≡ reader_at kind encoding width rows len head }
    {
        let spot = Spot {
            run: 0,
            at: 0,
            taken: 0,
        };
        Reader {
            kind,
            encoding,
            width,
            rows,
            len,
            head,
            place: 0,
            spot,
            nulls: 0,
        }
    }

    fn named(self) -> Option<Column>
        ensures { result ≡ column_of self.kind self.encoding self.width }
    {
        format::column_of(self.kind, self.encoding, self.width)
    }

    // Whether the record contradicts itself.
    fn wrong(self, kind: Kind, encoding: Encoding) -> bool
        ensures { result ≡ contradicts kind encoding self }
    {
        if limits::MOST_BYTES < self.len {
            return true;
        }
        if format::most_rows(encoding) < self.rows {
            return true;
        }
        if self.rows < self.place {
            return true;
        }
        if self.place < self.nulls {
            return true;
        }
        if anatomy::head_wrong(encoding, self.head, self.spot.run) {
            return true;
        }
        anatomy::part_outside(kind, encoding, self.rows, self.len, self.head)
    }

    // The place in the runs; of rows that are not coded by runs, the row is the run.
    fn start(self, coded: bool) -> Spot
        ensures { result ≡ start_of coded self }
    {
        if coded {
            return self.spot;
        }
        Spot {
            run: self.place,
            at: self.spot.at,
            taken: self.spot.taken,
        }
    }

    // The reader `n` rows later, of which so many were null and given.
    fn moved(self, coded: bool, n: usize, t: Spot, nulls: usize) -> Reader
        requires { (self.place + n < 2 ^ 64) × (self.nulls + nulls < 2 ^ 64) }
        ensures { result ≡ counted (moved_by coded self n t) nulls }
    {
        let mut next = self;
        next.place = self.place + n;
        next.nulls = self.nulls + nulls;
        if coded {
            next.spot = t;
        }
        next
    }

    // The rows that remain, from the record alone.
    pub fn remaining(self) -> Left
        ensures { result ≡ remaining_of self }
    {
        let found = self.named();
        let Some(column) = found else {
            return Left {
                number: refusal::DISAGREE,
                rows: 0,
                reader: self,
            };
        };
        if self.wrong(column.kind, column.encoding) {
            return Left {
                number: refusal::DISAGREE,
                rows: 0,
                reader: self,
            };
        }
        Left {
            number: 0,
            rows: self.rows - self.place,
            reader: self,
        }
    }

    // The tests of a read before any field, in their order; the block is `len` bytes long. They are one function and not the start of
    // `read`, so that the compiler takes the rows for what is likely to come.
    fn tested(self, len: usize, skip: usize, size: usize) -> Result<Column, Refusal>
        ensures { by_number result ≡ tests_of self len skip size }
    {
        if nothing_asked(skip, size) {
            return Err(Refusal::NoRows);
        }
        let found = self.named();
        let Some(column) = found else {
            return Err(Refusal::Disagree);
        };
        if len != self.len {
            return Err(Refusal::Disagree);
        }
        if self.wrong(column.kind, column.encoding) {
            return Err(Refusal::Disagree);
        }
        if self.rows - self.place < skip {
            return Err(Refusal::TooFar);
        }
        Ok(column)
    }

    // A read's answer as a record: a refused read leaves the reader where it is.
    fn answered(self, answer: Result<Given, Refusal>) -> Given
        ensures { result ≡ given_of self (by_number answer) }
    {
        match answer {
            Ok(given) => given,
            Err(refusal) => Given {
                number: u8::from(refusal),
                rows: 0,
                bytes: 0,
                reader: self,
            },
        }
    }

    // The rows given, or why there are none.
    fn give(
        self,
        block: &[u8],
        skip: usize,
        size: usize,
        values: &mut [i64],
        flags: &mut [u8],
        ends: &mut [u32],
        bytes: &mut [u8],
    ) -> Result<Given, Refusal>
        ensures value { given_of self (by_number result) ≡ (read_of self block.now skip size (areas values.old flags.old ends.old bytes.old)).answer }
        ensures values_after { values.new ≡ (read_of self block.now skip size (areas values.old flags.old ends.old bytes.old)).areas.values }
        ensures flags_after { flags.new ≡ (read_of self block.now skip size (areas values.old flags.old ends.old bytes.old)).areas.flags }
        ensures ends_after { ends.new ≡ (read_of self block.now skip size (areas values.old flags.old ends.old bytes.old)).areas.ends }
        ensures bytes_after { bytes.new ≡ (read_of self block.now skip size (areas values.old flags.old ends.old bytes.old)).areas.bytes }
    {
        let column = self.tested(block.len(), skip, size)?;
        let parts = anatomy::take_apart(
            column.kind,
            column.encoding,
            self.rows,
            self.len,
            self.head,
        );
        let source = parts.source;
        let there = pass(parts, self.start(source.coded), block, skip);
        let Some(from) = there else {
            return Err(Refusal::Disagree);
        };
        let n = area::least(size, self.rows - self.place - skip);
        let filled = fill::write_rows(parts, from, block, n, values, flags, ends, bytes)?;
        let nulls = nulls_given(source.marks, flags, n);
        Ok(Given {
            number: 0,
            rows: n,
            bytes: filled.bytes,
            reader: self.moved(source.coded, skip + n, filled.next, nulls),
        })
    }

    // Passes over `skip` rows, then gives up to `size` of those behind them; if that can't be done whole, nothing is.
    pub fn read(
        self,
        block: &[u8],
        skip: usize,
        size: usize,
        values: &mut [i64],
        flags: &mut [u8],
        ends: &mut [u32],
        bytes: &mut [u8],
    ) -> Given
        ensures value { result ≡ (read_of self block.now skip size (areas values.old flags.old ends.old bytes.old)).answer }
        ensures values_after { values.new ≡ (read_of self block.now skip size (areas values.old flags.old ends.old bytes.old)).areas.values }
        ensures flags_after { flags.new ≡ (read_of self block.now skip size (areas values.old flags.old ends.old bytes.old)).areas.flags }
        ensures ends_after { ends.new ≡ (read_of self block.now skip size (areas values.old flags.old ends.old bytes.old)).areas.ends }
        ensures bytes_after { bytes.new ≡ (read_of self block.now skip size (areas values.old flags.old ends.old bytes.old)).areas.bytes }
    {
        let answer = self.give(block, skip, size, values, flags, ends, bytes);
        self.answered(answer)
    }
}
