// A sheet file of many columns, and one of them opened: only its own entry and block are looked at, so a column that is damaged is
// refused alone.
#![tactic(auto)]

ghost use Rattle.std.specs.Prelude.{◌≡◌, ◌+◌, ◌≤◌, ◌<◌, ◌^◌, length, take, drop};
ghost use Rattle.limits.specs.Refusals.{number_in};
ghost use Rattle.encode.specs.Bytes.{high-first, number_of};
ghost use Rattle.block.specs.Reading.{no_reader};
ghost use Rattle.descriptor.specs.Descriptor.{descriptor_of};
ghost use Rattle.sheet.specs.Sheet.{directory_end, entry_at, descriptor_in, offset_in, length_in, sheet_number, found, column_found, column_part};

use block::Reader;
use descriptor::Descriptor;
use limits::refusal::Refusal;

// What opening a column answers: 0, where its block lies in the file and a reader for it; or a refusal, no place, and the record that
// every call refuses.
#[repr(C)]
#[derive(Clone, Copy)]
pub struct Found {
    pub number: u8,
    pub from: usize,
    pub len: usize,
    pub reader: Reader,
}

// An entry of the directory.
#[derive(Clone, Copy)]
struct Entry {
    pub descriptor: Descriptor,
    pub from: usize,
    pub len: usize,
}

// Opens column j, counted from 0. Its reader's calls take the part of the file that `part` gives.
pub fn open(file: &[u8], j: usize) -> Found
    ensures { result ≡ column_found file.now j }
{
    if let Err(refusal) = check(file, j) {
        return none(u8::from(refusal));
    }
    let e = entry_at(file, j);
    let from = e.from;
    let end = from + e.len;
    let opening = descriptor::open_by_number(e.descriptor, &file[from..end]);
    if opening.number != 0 {
        return none(opening.number);
    }
    let reader = opening.reader;
    Found {
        number: 0,
        from,
        len: e.len,
        reader,
    }
}

// The block of column j, sound or not: the bytes that its entry names. Where the file or the entry is refused there are none.
pub fn part(file: &[u8], j: usize) -> &[u8]
    ensures { result.now ≡ column_part file.now j }
{
    if check(file, j).is_err() {
        return &file[..0];
    }
    let e = entry_at(file, j);
    let from = e.from;
    let end = from + e.len;
    &file[from..end]
}

fn none(number: u8) -> Found
    ensures { result ≡ found number 0 0 no_reader }
{
    Found {
        number,
        from: 0,
        len: 0,
        reader: block::no_reader(),
    }
}

// What the file, the column and its entry are refused as, in order; the block is not looked at.
fn check(file: &[u8], j: usize) -> Result<(), Refusal>
    ensures { number_in result ≡ sheet_number file.now j }
{
    let n = file.len();
    if limits::MOST_FILE < n {
        return Err(Refusal::Limit);
    }
    if n == 0 {
        return Err(Refusal::Sheet);
    }
    let columns = file[0] as usize;
    if limits::MOST_COLUMNS < columns {
        return Err(Refusal::Sheet);
    }
    let end = 1 + 16 * columns;
    if n < end {
        return Err(Refusal::Sheet);
    }
    if columns <= j {
        return Err(Refusal::NoColumn);
    }
    let e = entry_at(file, j);
    if e.from < end {
        return Err(Refusal::Outside);
    }
    if n < e.from + e.len {
        return Err(Refusal::Outside);
    }
    Ok(())
}

fn entry_at(file: &[u8], j: usize) -> Entry
    requires { directory_end j + 16 ≤ length file.now }
    ensures descriptor_value { (result.descriptor ≡ descriptor_in (entry_at j file.now)) × (result.from ≡ offset_in (entry_at j file.now)) × (result.len ≡ length_in (entry_at j file.now)) }
    ensures from_bound { (result.from < 2 ^ 32) × (result.len < 2 ^ 32) }
{
    let at = 1 + 16 * j;
    Entry {
        descriptor: descriptor_at(file, at),
        from: four(file, at + 8),
        len: four(file, at + 12),
    }
}

// The descriptor at a place.
fn descriptor_at(file: &[u8], at: usize) -> Descriptor
    requires { at + 8 ≤ length file.now }
    ensures { result ≡ descriptor_of (take 8 (drop at file.now)) }
{
    descriptor::unpack(plain::item(file, at, 8))
}

// Four bytes as a number, the most significant first.
fn four(file: &[u8], at: usize) -> usize
    requires { at + 4 ≤ length file.now }
    ensures { (result ≡ number_of high-first (take 4 (drop at file.now))) × (result < 2 ^ 32) }
{
    encode::high::<4>(plain::item(file, at, 4)) as usize
}
