// Runs the commands of standard input on blocks and readers, and writes all that comes back, in hex: numbers, counts, the whole
// reader and every lent byte. tools/answers.py makes the commands, and by a model of its own the answers (the file stdout).
//
// A command is a byte and its numbers. A number below 255 is one byte; any other is the byte 255 and eight bytes, lowest first.
// 0 puts a block together: the number of parts; for each how often it comes, its length and its bytes.
// 1 opens it: kind, encoding, width, rows.
// 2 reads: the rows to pass over; the rows to give at most; the lengths of the lent values, flags, ends and bytes.
// 3 asks for the rows that remain.
// 4 sets a field of the reader: which one, counted from 0; the number.
// 5 changes a byte of the block: the place; the byte, as it is.
// 6 lends the block at another length from here on: the length.
#![tactic(auto)]

ghost use Rattle.std.specs.Prelude.{◌≡◌, length};

use block::Reader;
use limits::refusal::Refusal;
use parts_by::{parts, put};
use script::{Input, first, say, show, show_byte};
use show_reader::{Lengths, give_into, show_reader};

// A command, by its number.
#[derive(Clone, Copy)]
enum Command {
    Load,
    Open,
    Read,
    Remaining,
    Set,
    Change,
    Lend,
}

impl From<u8> for Command {
    fn from(number: u8) -> Command {
        match number {
            0 => Command::Load,
            1 => Command::Open,
            2 => Command::Read,
            3 => Command::Remaining,
            4 => Command::Set,
            5 => Command::Change,
            _ => Command::Lend,
        }
    }
}

// What stands between two commands: the input, the length of the lent block, the reader.
#[derive(Clone, Copy)]
struct State<'a> {
    input: Input<'a>,
    len: usize,
    reader: Reader,
}

// ---- readers

// The reader with another number in a field, counted from 0. A number names a field here alone, so an enum of the fields would tell the same
// fourteen once more.
fn with(r: Reader, field: usize, value: usize) -> Reader {
    let mut next = r;
    match field {
        0 => next.kind = value,
        1 => next.encoding = value,
        2 => next.width = value,
        3 => next.rows = value,
        4 => next.len = value,
        5 => next.head.runs = value,
        6 => next.head.counts = value,
        7 => next.head.keys = value,
        8 => next.head.entries = value,
        9 => next.place = value,
        10 => next.spot.run = value,
        11 => next.spot.at = value,
        12 => next.spot.taken = value,
        _ => next.nulls = value,
    }
    next
}

fn opened(answer: Result<Reader, Refusal>) -> Reader {
    say(b"open");
    match answer {
        Ok(r) => {
            show(0);
            show_reader(r);
            r
        }
        Err(refusal) => {
            show_byte(u8::from(refusal));
            block::no_reader()
        }
    }
}

impl State<'_> {
    // ---- blocks

    fn load(&mut self, block: &mut [u8]) {
        self.len = parts(&mut self.input, block);
        say(b"block");
        show(self.len);
    }

    fn change(&mut self, block: &mut [u8]) {
        let place = self.input.number();
        put(block, place, self.input.byte());
        say(b"change");
    }

    fn lend(&mut self) {
        self.len = self.input.number();
        say(b"lend");
    }

    // ---- readers

    fn set(&mut self) {
        let field = self.input.number();
        let value = self.input.number();
        say(b"set");
        self.reader = with(self.reader, field, value);
    }

    fn open(&mut self, block: &[u8]) {
        let kind = self.input.number();
        let encoding = self.input.number();
        let width = self.input.number();
        let rows = self.input.number();
        let bytes = first(block, self.len);
        self.reader = opened(block::open(kind, encoding, width, rows, bytes));
    }

    fn remaining(&mut self) {
        let answer = self.reader.remaining();
        say(b"left");
        show(answer.number);
        show(answer.rows);
        self.reader = answer.reader;
    }

    fn read(&mut self, block: &[u8]) {
        let skip = self.input.number();
        let size = self.input.number();
        let lent = Lengths::taken(&mut self.input);
        let part = first(block, self.len);
        self.reader = give_into(self.reader, part, skip, size, lent);
    }

    // ---- the commands

    fn run(&mut self, block: &mut [u8]) {
        let command = Command::from(self.input.byte());
        match command {
            Command::Load => self.load(block),
            Command::Open => self.open(block),
            Command::Read => self.read(block),
            Command::Remaining => self.remaining(),
            Command::Set => self.set(),
            Command::Change => self.change(block),
            Command::Lend => self.lend(),
        }
    }
}

// Each command takes a byte at least, so there are no more of them than bytes.
fn run_all(s: &[u8], block: &mut [u8]) {
    let mut state = State {
        input: Input::new(s),
        len: 0,
        reader: block::no_reader(),
    };
    for _ in 0..s.len() {
        if state.input.is_done() {
            return;
        }
        state.run(block);
        say(b"\n");
    }
}

// Room for the commands.
fn commands() -> [u8; 80000]
    ensures { 80000 ≡ length result }
{
    [0; 80000]
}

// Room for the largest block: 1,048,576 runs over a nullable block of bools.
fn room() -> [u8; 2300000]
    ensures { 2300000 ≡ length result }
{
    [0; 2300000]
}

fn main() {
    let mut input = commands();
    let mut block = room();
    let n = io::read_full(0, &mut input);
    run_all(&input[..n], &mut block);
}
