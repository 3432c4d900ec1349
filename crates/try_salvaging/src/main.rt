// Runs the commands of standard input on a block, and writes what comes back: of a salvage the number, the length of the block that was
// written, how many ranges there are, and every slot and every byte that was lent, in hex. tools/salvages.py makes the commands, and by a
// reading of its own of document 02 the answers (the file stdout).
//
// A command is a byte and its numbers. A number below 255 is one byte; any other is the byte 255 and eight bytes, lowest first.
// 0 puts the block together: the number of parts; for each how often it comes, its length and its bytes.
// 1 changes a byte of it: the place; the byte, as it is.
// 2 salvages it: kind, encoding, width, zero and rows; how many slots of either list are lent, and how many bytes.
// 3 prints what the program `salvage` prints of a file whose bytes are the block, and shows the file that it makes.
#![tactic(auto)]

ghost use Rattle.std.specs.Prelude.{◌≡◌, length};

use descriptor::Descriptor;
use parts_by::{descriptor, parts, put};
use script::{Input, first, say, show, show_bytes, show_each, show_sums};

// A command, by its number.
#[derive(Clone, Copy)]
enum Command {
    Load,
    Change,
    Salvage,
    Print,
}

impl From<u8> for Command {
    fn from(number: u8) -> Command {
        match number {
            0 => Command::Load,
            1 => Command::Change,
            2 => Command::Salvage,
            _ => Command::Print,
        }
    }
}

// What stands between two commands: the input, the length of the block.
#[derive(Clone, Copy)]
struct State<'a> {
    input: Input<'a>,
    len: usize,
}

// ---- what is shown

// All bytes, or, of more than 4,000, the sums.
fn show_all(s: &[u8]) {
    if 4000 < s.len() {
        show_sums(s);
        return;
    }
    say(b":");
    show_bytes(s);
}

// ---- salvaging

fn salvage_into(
    d: Descriptor,
    block: &[u8],
    firsts: &mut [usize],
    lasts: &mut [usize],
    out: &mut [u8],
) {
    let answer = salvaging::salvage(d, block, firsts, lasts, out);
    say(b"salvage");
    show(answer.number);
    show(answer.len);
    show(answer.ranges);
    say(b"\n firsts");
    show_each(firsts);
    say(b"\n lasts");
    show_each(lasts);
    say(b"\n out");
    show_all(out);
    say(b"\n");
}

// Memory filled with aa, for a block of the most rows.
fn out_room() -> [u8; 700000]
    ensures { 700000 ≡ length result }
{
    [0xaa; 700000]
}

// As many slots are lent as is told, filled with what is no row's number here, and as many bytes. Where there are fewer nothing is salvaged.
fn salvage(input: &mut Input, block: &[u8]) {
    let d = descriptor(input);
    let n = input.number();
    let m = input.number();
    let len = input.number();
    if 100 < n || 100 < m || 700000 < len {
        return;
    }
    let mut firsts = [0xaaaa_aaaausize; 100];
    let mut lasts = [0xaaaa_aaaausize; 100];
    let mut out = out_room();
    salvage_into(d, block, &mut firsts[..n], &mut lasts[..m], &mut out[..len]);
}

// ---- the program

// What the program prints of a file, and the file that it makes, if it makes one: a descriptor and a block.
fn print(file: &[u8]) {
    let mut firsts = salvage_by::slots();
    let mut lasts = salvage_by::slots();
    let mut out = io::large_buffer();
    let answer = salvage_by::salvage(file, &mut firsts, &mut lasts, &mut out);
    salvage_by::print(answer, &firsts, &lasts);
    if answer.number == 0 {
        say(b"made ");
        show_bytes(salvage_by::head_of(file));
        show_all(salvage_by::block_made(answer, &out));
        say(b"\n");
    }
}

// ---- the commands

impl State<'_> {
    fn load(&mut self, room: &mut [u8]) {
        self.len = parts(&mut self.input, room);
        say(b"block");
        show(self.len);
        say(b"\n");
    }

    fn change(&mut self, room: &mut [u8]) {
        let place = self.input.number();
        let b = self.input.byte();
        put(room, place, b);
        say(b"change");
        show(place);
        show(b);
        say(b"\n");
    }

    fn run(&mut self, room: &mut [u8]) {
        let command = Command::from(self.input.byte());
        match command {
            Command::Load => self.load(room),
            Command::Change => self.change(room),
            Command::Salvage => salvage(&mut self.input, first(room, self.len)),
            Command::Print => print(first(room, self.len)),
        }
    }
}

// Each command takes a byte at least, so there are no more of them than bytes.
fn run_all(s: &[u8], room: &mut [u8]) {
    let mut state = State {
        input: Input::new(s),
        len: 0,
    };
    for _ in 0..s.len() {
        if state.input.is_done() {
            return;
        }
        state.run(room);
    }
}

// Room for a block of the most rows.
fn room() -> [u8; 700000]
    ensures { 700000 ≡ length result }
{
    [0; 700000]
}

fn main() {
    let mut input = io::large_buffer();
    let mut block = room();
    let n = io::read_full(0, &mut input);
    run_all(&input[..n], &mut block);
}
