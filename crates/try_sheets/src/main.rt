// Runs the commands of standard input on sheet files, and writes what comes back, in hex: numbers, places, the whole reader, a column's
// block and its first rows, and the memory lent to be written. tools/sheets.py makes the commands, and by a reading of its own of document
// 02 the answers (the file stdout).
//
// A command is a byte and its numbers. A number below 255 is one byte; any other is the byte 255 and eight bytes, lowest first.
// 0 puts a file together: the number of parts; for each how often it comes, its length and its bytes.
// 1 opens columns of it and reads their first rows: the first column; how many columns.
// 2 changes a byte of the file: the place; the byte, as it is.
// 3 lends the file at another length from here on: the length.
// 4 writes a file whose blocks are the bytes of the file so far: the length of the lent memory; how many numbers; the numbers.
// 5 does the same, and goes on with the file that was written.
// 6 lists a column of the file as the program `column` does: the length of the argument that names it; its bytes.
#![tactic(auto)]

ghost use Rattle.std.specs.Prelude.{◌≡◌, length};

use parts_by::{copy, parts, put};
use script::{Input, first, past, say, show, show_bytes};
use show_reader::{Lengths, give_into, show_reader};

// A command, by its number.
#[derive(Clone, Copy)]
enum Command {
    Load,
    Open,
    Change,
    Lend,
    Write,
    WriteOn,
    List,
}

impl From<u8> for Command {
    fn from(number: u8) -> Command {
        match number {
            0 => Command::Load,
            1 => Command::Open,
            2 => Command::Change,
            3 => Command::Lend,
            4 => Command::Write,
            5 => Command::WriteOn,
            _ => Command::List,
        }
    }
}

// What stands between two commands: the input, the length of the lent file.
#[derive(Clone, Copy)]
struct State<'a> {
    input: Input<'a>,
    len: usize,
}

// ---- columns

// The slots that are lent for the first four rows of a column.
const FOUR: Lengths = Lengths {
    values: 4,
    flags: 4,
    ends: 4,
    bytes: 16,
};

// Column j: its answer, its block's length and first bytes, and of a sound one the first four rows.
fn open_one(file: &[u8], j: usize) {
    let answer = sheet::open(file, j);
    let block = sheet::part(file, j);
    say(b"open");
    show(j);
    show(answer.number);
    show(answer.from);
    show(answer.len);
    show_reader(answer.reader);
    say(b"\n part");
    show(block.len());
    say(b":");
    show_bytes(first(block, 64));
    say(b"\n");
    if answer.number == 0 {
        give_into(answer.reader, block, 0, 4, FOUR);
        say(b"\n");
    }
}

// ---- writing

// Writes into the memory, and shows its first bytes. What comes back is the file's length.
fn write_into(list: &[usize], blocks: &[u8], out: &mut [u8]) -> usize {
    let answer = sheet_writer::write(list, blocks, out);
    say(b"write");
    show(answer.number);
    show(answer.len);
    say(b"\n out:");
    show_bytes(first(out, 4000));
    say(b"\n");
    answer.len
}

// Memory filled with aa, for a file whose last places take three bytes.
fn out_room() -> [u8; 70000]
    ensures { 70000 ≡ length result }
{
    [0xaa; 70000]
}

impl State<'_> {
    // ---- files

    fn load(&mut self, file: &mut [u8]) {
        self.len = parts(&mut self.input, file);
        say(b"file");
        show(self.len);
        say(b"\n");
    }

    fn change(&mut self, file: &mut [u8]) {
        let place = self.input.number();
        let b = self.input.byte();
        put(file, place, b);
        say(b"change");
        show(place);
        show(b);
        say(b"\n");
    }

    fn lend(&mut self) {
        self.len = self.input.number();
        say(b"lend");
        show(self.len);
        say(b"\n");
    }

    // ---- columns

    fn open(&mut self, file: &[u8]) {
        let j = self.input.number();
        let n = self.input.number();
        for i in 0..n {
            open_one(first(file, self.len), past(j, i));
        }
    }

    // ---- writing

    // Writes by as many numbers as are told, into as much memory as is told: nothing where there is less. The written file comes to the place
    // of the file, or the file stays.
    fn write(&mut self, goes_on: bool, file: &mut [u8]) {
        let lent = self.input.number();
        let n = self.input.number();
        let mut list = [0usize; 400];
        let mut out = out_room();
        for i in 0..n {
            let value = self.input.number();
            if let Some(cell) = list.get_mut(i) {
                *cell = value;
            }
        }
        let mut len = 0;
        if n <= list.len() && lent <= out.len() {
            len = write_into(&list[..n], first(file, self.len), &mut out[..lent]);
        }
        if goes_on {
            copy(&out, len, file, 0);
            self.len = len;
        }
    }

    // ---- listing

    fn list(&mut self, file: &[u8]) {
        let n = self.input.number();
        let text = self.input.part(n);
        column_by::print(first(file, self.len), text);
    }

    // ---- the commands

    fn run(&mut self, file: &mut [u8]) {
        let command = Command::from(self.input.byte());
        match command {
            Command::Load => self.load(file),
            Command::Open => self.open(file),
            Command::Change => self.change(file),
            Command::Lend => self.lend(),
            Command::Write => self.write(false, file),
            Command::WriteOn => self.write(true, file),
            Command::List => self.list(file),
        }
    }
}

// Each command takes a byte at least, so there are no more of them than bytes.
fn run_all(s: &[u8], file: &mut [u8]) {
    let mut state = State {
        input: Input::new(s),
        len: 0,
    };
    for _ in 0..s.len() {
        if state.input.is_done() {
            return;
        }
        state.run(file);
    }
}

// Room for a file whose places take three bytes.
fn room() -> [u8; 200000]
    ensures { 200000 ≡ length result }
{
    [0; 200000]
}

fn main() {
    let mut input = io::large_buffer();
    let mut file = room();
    let n = io::read_full(0, &mut input);
    run_all(&input[..n], &mut file);
}
