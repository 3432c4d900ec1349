// A sheet file written in one call, whole or not at all.
#![tactic(auto)]

ghost use Rattle.std.specs.Prelude.{◌≡◌, [], ◌+◌, ◌*◌, ◌≤◌, length, drop};
ghost use Rattle.limits.specs.Refusals.{refusal_number, number_in, by_number};
ghost use Rattle.std.proofs.lemmas.List.Edits.{sets};
ghost use Rattle.limits.specs.Limits.{MOST_COLUMNS};
ghost use Rattle.sheet.specs.Sheet.{directory_end};
ghost use Rattle.sheet_writer.specs.Writing.{written, first_filed, first_number, blocks_number, write};
ghost use Rattle.sheet_writer.specs.Lent.{lent_entry, lent_entries, lent_bytes, summed_by, write_from};

use descriptor::Descriptor;
use limits::refusal::Refusal;

// What writing answers: the file's length, or a refusal.
#[repr(C)]
#[derive(Clone, Copy)]
pub struct Written {
    pub number: u8,
    pub len: usize,
}

// Writes a file of columns that are lent as five numbers each, kind, encoding, width, rows and the length of its block, and their blocks one
// after the other.
pub fn write(numbers: &[usize], blocks: &[u8], out: &mut [u8]) -> Written
    ensures value { result ≡ (write numbers.now blocks.now out.old).answer }
    ensures out_after { out.new ≡ (write numbers.now blocks.now out.old).out }
{
    let columns = numbers.len() / 5;
    if limits::MOST_COLUMNS < columns {
        return refused(Refusal::Sheet);
    }
    if numbers.len() % 5 != 0 {
        return refused(Refusal::Sheet);
    }
    match sum(numbers, columns, blocks) {
        Ok(bytes) => put_file(numbers, columns, blocks, bytes, out),
        Err(refusal) => refused(refusal),
    }
}

fn refused(refusal: Refusal) -> Written
    ensures { result ≡ written (refusal_number refusal) 0 }
{
    Written {
        number: u8::from(refusal),
        len: 0,
    }
}

// ---- the blocks

// The length of the blocks, or the refusal of the first that is bad. Each column in order: whether the lent bytes hold its block, and
// whether that is sound.
fn sum(numbers: &[usize], columns: usize, blocks: &[u8]) -> Result<usize, Refusal>
    requires { 5 * columns ≤ length numbers.now }
    ensures { by_number result ≡ summed_by (blocks_number columns numbers.now blocks.now) (lent_bytes columns numbers.now) }
{
    let mut at = 0;
    for i in 0..columns {
        check(numbers, 5 * i, blocks, at)?;
        at += numbers[5 * i + 4];
    }
    Ok(at)
}

// One column, whose numbers lie at a place and whose block begins at another.
fn check(numbers: &[usize], place: usize, blocks: &[u8], at: usize) -> Result<(), Refusal>
    requires { (place + 5 ≤ length numbers.now) × (at ≤ length blocks.now) }
    ensures { number_in result ≡ first_number (drop place numbers.now) (drop at blocks.now) }
{
    let len = numbers[place + 4];
    if blocks.len() - at < len {
        return Err(Refusal::Cut);
    }
    let end = at + len;
    let d = descriptor_at(numbers, place);
    block::open(d.kind, d.encoding, d.width, d.rows, &blocks[at..end])?;
    Ok(())
}

fn descriptor_at(numbers: &[usize], place: usize) -> Descriptor
    requires { place + 5 ≤ length numbers.now }
    ensures { result ≡ (first_filed (drop place numbers.now) []).descriptor }
{
    Descriptor {
        kind: numbers[place],
        encoding: numbers[place + 1],
        width: numbers[place + 2],
        zero: 0,
        rows: numbers[place + 3],
    }
}

// ---- the file

// Of columns whose blocks are sound: the file, if it isn't too long and the room holds it.
fn put_file(
    numbers: &[usize],
    columns: usize,
    blocks: &[u8],
    bytes: usize,
    out: &mut [u8],
) -> Written
    requires { (columns ≤ MOST_COLUMNS) × (5 * columns ≤ length numbers.now) × (bytes ≡ lent_bytes columns numbers.now) × (bytes ≤ length blocks.now) }
    ensures value { result ≡ (write_from columns numbers.now blocks.now out.old).answer }
    ensures out_after { out.new ≡ (write_from columns numbers.now blocks.now out.old).out }
{
    let start = 1 + 16 * columns;
    if limits::MOST_FILE - start < bytes {
        return refused(Refusal::Limit);
    }
    let len = start + bytes;
    if out.len() < len {
        return refused(Refusal::Room);
    }
    out[0] = columns as u8;
    put_entries(numbers, columns, out);
    area::copy(blocks, 0, bytes, out, start);
    Written { number: 0, len }
}

// The entry of each column in order, the first block lying at the directory's end.
fn put_entries(numbers: &[usize], columns: usize, out: &mut [u8])
    requires { (5 * columns ≤ length numbers.now) × (directory_end columns + lent_bytes columns numbers.now ≤ length out.old) }
    ensures { out.new ≡ sets out.old 1 (lent_entries columns (directory_end columns) numbers.now) }
{
    let mut from = 1 + 16 * columns;
    for i in 0..columns {
        put_entry(numbers, 5 * i, from, out, 1 + 16 * i);
        from += numbers[5 * i + 4];
    }
}

// One entry: the descriptor, the place of the block and its length.
fn put_entry(numbers: &[usize], place: usize, at: usize, out: &mut [u8], to: usize)
    requires { (place + 5 ≤ length numbers.now) × (to + 16 ≤ length out.old) }
    ensures { out.new ≡ sets out.old to (lent_entry at (drop place numbers.now)) }
{
    let d = descriptor_at(numbers, place);
    let len = numbers[place + 4];
    area::put(descriptor::pack(d), 8, out, to);
    area::put(encode::high_first::<4>(at as u64), 4, out, to + 8);
    area::put(encode::high_first::<4>(len as u64), 4, out, to + 12);
}
