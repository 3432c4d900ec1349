// What the program `salvage` is made of, apart from its calls on files: a file salvaged, which is a descriptor and a block, and the ranges
// of rows that it lost printed.
#![tactic(auto)]

ghost use Rattle.std.specs.Prelude.{◌≡◌, ◌≤◌, length, take};
ghost use Rattle.salvaging.specs.Salvaging.{salvaged};
ghost use Rattle.salvage_by.specs.Asked.{SLOTS as slots_lent, descriptor_in, file_salvaged};

use descriptor::Descriptor;
use limits::refusal;
use salvaging::Salvaged;

// As many ranges as a file of the most bytes can have. The twenty bytes before its counts and its descriptor leave room for 13,101 runs,
// a count of one byte and a key of four each, and between two ranges lies a run.
const SLOTS: usize = 6551;

// The lists that the program lends.
pub fn slots() -> [usize; SLOTS]
    ensures { slots_lent ≡ length result }
{
    [0; SLOTS]
}

// ---- salvaging

// The repaired block, written from the start of `out` on, and the ranges, put down in lent lists. The file's own tests come first.
pub fn salvage(file: &[u8], firsts: &mut [usize], lasts: &mut [usize], out: &mut [u8]) -> Salvaged
    ensures value { result ≡ (file_salvaged file.now firsts.old lasts.old out.old).answer }
    ensures firsts_after { firsts.new ≡ (file_salvaged file.now firsts.old lasts.old out.old).firsts }
    ensures lasts_after { lasts.new ≡ (file_salvaged file.now firsts.old lasts.old out.old).lasts }
    ensures out_after { out.new ≡ (file_salvaged file.now firsts.old lasts.old out.old).out }
    ensures ranges_in_bounds { (result.ranges ≤ length firsts.new) × (result.ranges ≤ length lasts.new) }
{
    if file.len() < 8 {
        return none(refusal::CUT);
    }
    if limits::MOST_INPUT < file.len() {
        return none(refusal::LIMIT);
    }
    let d = descriptor_in(file);
    let block = text::block_of(file);
    salvaging::salvage(d, block, firsts, lasts, out)
}

fn none(number: u8) -> Salvaged
    ensures { result ≡ salvaged number 0 0 }
{
    Salvaged {
        number,
        len: 0,
        ranges: 0,
    }
}

fn descriptor_in(file: &[u8]) -> Descriptor
    requires { 8 ≤ length file.now }
    ensures { result ≡ descriptor_in file.now }
{
    descriptor::unpack(plain::item(file, 0, 8))
}

// ---- the file to be made

// Its descriptor is that of the file it is made of: kind, encoding, width and rows stay.
pub fn head_of(file: &[u8]) -> &[u8]
    ensures { result.now ≡ take 8 file.now }
{
    file.get(..8).unwrap_or(file)
}

// The block behind it, in the memory that it was written to.
pub fn block_made(answer: Salvaged, out: &[u8]) -> &[u8]
    ensures { result.now ≡ take answer.len out.now }
{
    out.get(..answer.len).unwrap_or(out)
}

// ---- printing

// A line for each range on standard output and `end`, or `refused` and the number.
pub fn print(answer: Salvaged, firsts: &[usize], lasts: &[usize])
    requires { (answer.ranges ≤ length firsts.now) × (answer.ranges ≤ length lasts.now) }
{
    if answer.number != 0 {
        printing::say_refused(answer.number);
        return;
    }
    range_lines::say_ranges(answer.ranges, firsts, lasts);
}
