// Runs the commands of standard input on two blocks, and writes what comes back: of a comparison the number, how many ranges there are and
// every slot that was lent, in hex. tools/compares.py makes the commands, and by a reading of its own of document 02 the answers (the file
// stdout).
//
// A command is a byte and its numbers. A number below 255 is one byte; any other is the byte 255 and eight bytes, lowest first.
// 0 puts the first block together: the number of parts; for each how often it comes, its length and its bytes.
// 1 puts the second block together, likewise.
// 2 compares the first block with the second: of each, kind, encoding, width, zero and rows; how many slots of either list are lent.
// 3 compares the second block with the first, by the same numbers in the same order.
// 4 prints what the program `compare` prints of two files whose bytes are the two blocks.
#![tactic(auto)]

ghost use Rattle.std.specs.Prelude.{◌≡◌, length};

use descriptor::Descriptor;
use parts_by::{descriptor, parts};
use script::{Input, first, say, show, show_each};

// A command, by its number.
#[derive(Clone, Copy)]
enum Command {
    LoadFirst,
    LoadSecond,
    Compare,
    CompareTurned,
    Print,
}

impl From<u8> for Command {
    fn from(number: u8) -> Command {
        match number {
            0 => Command::LoadFirst,
            1 => Command::LoadSecond,
            2 => Command::Compare,
            3 => Command::CompareTurned,
            _ => Command::Print,
        }
    }
}

// What stands between two commands: the input, the lengths of the two blocks.
#[derive(Clone, Copy)]
struct State<'a> {
    input: Input<'a>,
    one: usize,
    other: usize,
}

// A column: its descriptor and its block.
#[derive(Clone, Copy)]
struct Column<'b> {
    descriptor: Descriptor,
    block: &'b [u8],
}

// ---- blocks

fn load(input: &mut Input, word: &[u8], room: &mut [u8]) -> usize {
    let len = parts(input, room);
    say(word);
    show(len);
    say(b"\n");
    len
}

// ---- comparing

fn compare_into(one: Column, other: Column, firsts: &mut [usize], lasts: &mut [usize]) {
    let answer = comparing::compare(
        one.descriptor,
        one.block,
        other.descriptor,
        other.block,
        firsts,
        lasts,
    );
    say(b"compare");
    show(answer.number);
    show(answer.ranges);
    say(b"\n firsts");
    show_each(firsts);
    say(b"\n lasts");
    show_each(lasts);
    say(b"\n");
}

// The first block with the second, or the second with the first. As many slots are lent as is told, filled with what is no row's number here;
// where a list is too long nothing is compared.
fn compare(input: &mut Input, turned: bool, first: &[u8], second: &[u8]) {
    let one = Column {
        descriptor: descriptor(input),
        block: first,
    };
    let other = Column {
        descriptor: descriptor(input),
        block: second,
    };
    let n = input.number();
    let m = input.number();
    if 2100 < n || 2100 < m {
        return;
    }
    let mut firsts = [0xaaaa_aaaausize; 2100];
    let mut lasts = [0xaaaa_aaaausize; 2100];
    if turned {
        compare_into(other, one, &mut firsts[..n], &mut lasts[..m]);
    } else {
        compare_into(one, other, &mut firsts[..n], &mut lasts[..m]);
    }
}

// ---- the commands

impl State<'_> {
    fn run(&mut self, one: &mut [u8], other: &mut [u8]) {
        let command = Command::from(self.input.byte());
        match command {
            Command::LoadFirst => self.one = load(&mut self.input, b"first", one),
            Command::LoadSecond => self.other = load(&mut self.input, b"second", other),
            Command::Compare => compare(
                &mut self.input,
                false,
                first(one, self.one),
                first(other, self.other),
            ),
            Command::CompareTurned => compare(
                &mut self.input,
                true,
                first(one, self.one),
                first(other, self.other),
            ),
            Command::Print => {
                compare_by::print(first(one, self.one), first(other, self.other));
            }
        }
    }
}

// Each command takes a byte at least, so there are no more of them than bytes.
fn run_all(s: &[u8], one: &mut [u8], other: &mut [u8]) {
    let mut state = State {
        input: Input::new(s),
        one: 0,
        other: 0,
    };
    for _ in 0..s.len() {
        if state.input.is_done() {
            return;
        }
        state.run(one, other);
    }
}

// Room for a block of the most rows, by keys.
fn room() -> [u8; 700000]
    ensures { 700000 ≡ length result }
{
    [0; 700000]
}

fn main() {
    let mut input = io::large_buffer();
    let mut one = room();
    let mut other = room();
    let n = io::read_full(0, &mut input);
    run_all(&input[..n], &mut one, &mut other);
}
