// What the program `compare` is made of, apart from its calls on files: two files compared, each a descriptor and a block, and the
// ranges of rows that differ printed.
#![tactic(auto)]

ghost use Rattle.std.specs.Prelude.{◌≡◌, ◌≤◌, length};
ghost use Rattle.limits.specs.Refusals.{refusal_number, number_in};
ghost use Rattle.comparing.specs.Comparing.{compared};
ghost use Rattle.compare_by.specs.Asked.{SLOTS as slots_lent, descriptor_in, file_number, files_number, blocks_compared, files_compared, compares_asked};

use comparing::Compared;
use descriptor::Descriptor;
use limits::refusal::Refusal;

// The most ranges that are printed.
const SLOTS: usize = 2048;

// Compares two files and prints on standard output a line for each range of rows that differ, or `refused`. What comes back is 0 or the
// number that was printed behind `refused`; it is a number and no `Refusal` because the comparison's answer, which C has too, is a record
// with a number.
pub fn print(first: &[u8], second: &[u8]) -> u8
    ensures { result ≡ compares_asked first.now second.now }
{
    let mut firsts = slots();
    let mut lasts = slots();
    print_by(first, second, &mut firsts, &mut lasts)
}

fn slots() -> [usize; SLOTS]
    ensures { slots_lent ≡ length result }
{
    [0; SLOTS]
}

// The same by lent lists.
fn print_by(first: &[u8], second: &[u8], firsts: &mut [usize], lasts: &mut [usize]) -> u8
    ensures { result ≡ files_number first.now second.now (length firsts.old) (length lasts.old) }
{
    let answer = compare(first, second, firsts, lasts);
    if answer.number != 0 {
        printing::say_refused(answer.number);
        return answer.number;
    }
    range_lines::say_ranges(answer.ranges, firsts, lasts);
    0
}

// ---- comparing

// The ranges, put down in lent lists. All of the first file's own tests come before the second's, and those before the comparison's.
fn compare(first: &[u8], second: &[u8], firsts: &mut [usize], lasts: &mut [usize]) -> Compared
    ensures value { result ≡ (files_compared first.now second.now firsts.old lasts.old).answer }
    ensures firsts_after { firsts.new ≡ (files_compared first.now second.now firsts.old lasts.old).firsts }
    ensures lasts_after { lasts.new ≡ (files_compared first.now second.now firsts.old lasts.old).lasts }
{
    if let Err(refusal) = tested(first) {
        return none(refusal);
    }
    if let Err(refusal) = tested(second) {
        return none(refusal);
    }
    compare_blocks(first, second, firsts, lasts)
}

// The blocks of two files that have descriptors.
fn compare_blocks(
    first: &[u8],
    second: &[u8],
    firsts: &mut [usize],
    lasts: &mut [usize],
) -> Compared
    requires { (8 ≤ length first.now) × (8 ≤ length second.now) }
    ensures value { result ≡ (blocks_compared first.now second.now firsts.old lasts.old).answer }
    ensures firsts_after { firsts.new ≡ (blocks_compared first.now second.now firsts.old lasts.old).firsts }
    ensures lasts_after { lasts.new ≡ (blocks_compared first.now second.now firsts.old lasts.old).lasts }
{
    let a = descriptor_in(first);
    let x = text::block_of(first);
    let b = descriptor_in(second);
    let y = text::block_of(second);
    comparing::compare(a, x, b, y, firsts, lasts)
}

fn none(refusal: Refusal) -> Compared
    ensures { result ≡ compared (refusal_number refusal) 0 }
{
    Compared {
        number: u8::from(refusal),
        ranges: 0,
    }
}

// What a file is refused as, before the other is looked at.
fn tested(file: &[u8]) -> Result<(), Refusal>
    ensures { number_in result ≡ file_number file.now }
{
    if file.len() < 8 {
        return Err(Refusal::Cut);
    }
    if limits::MOST_INPUT < file.len() {
        return Err(Refusal::Limit);
    }
    let d = descriptor_in(file);
    if d.zero != 0 {
        return Err(Refusal::Column);
    }
    Ok(())
}

fn descriptor_in(file: &[u8]) -> Descriptor
    requires { 8 ≤ length file.now }
    ensures { result ≡ descriptor_in file.now }
{
    descriptor::unpack(plain::item(file, 0, 8))
}
