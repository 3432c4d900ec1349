// Runs the commands of standard input on a block, and writes what comes back: of a row that the second engine is asked for the number, the
// bytes written and every slot and every byte that was lent, in hex. tools/slows.py makes the commands, and by a reading of its own of
// documents 01 and 02 the answers (the file stdout).
//
// A command is a byte and its numbers. A number below 255 is one byte; any other is the byte 255 and eight bytes, lowest first.
// 0 puts the block together: the number of parts; for each how often it comes, its length and its bytes.
// 1 changes a byte of it: the place; the byte, as it is.
// 2 lends it at another length from here on: the length.
// 3 tells the column: kind, encoding, width, zero and rows.
// 4 asks for a row of it: the row; the lengths of the lent values, flags, ends and bytes.
// 5 prints what the program `night` prints of a file whose bytes are the block, and whether it is one that differs.
// 6 does the same of a sheet file.
#![tactic(auto)]

ghost use Rattle.std.specs.Prelude.{◌≡◌, length};

use descriptor::Descriptor;
use parts_by::{parts, put};
use script::{Input, first, say, show, show_bytes, show_each};

// A command, by its number.
#[derive(Clone, Copy)]
enum Command {
    Load,
    Change,
    Lend,
    Tell,
    Ask,
    PrintFile,
    PrintSheet,
}

impl From<u8> for Command {
    fn from(number: u8) -> Command {
        match number {
            0 => Command::Load,
            1 => Command::Change,
            2 => Command::Lend,
            3 => Command::Tell,
            4 => Command::Ask,
            6 => Command::PrintSheet,
            _ => Command::PrintFile,
        }
    }
}

// What stands between two commands: the input, the length of the lent block, the column.
#[derive(Clone, Copy)]
struct State<'a> {
    input: Input<'a>,
    len: usize,
    column: Descriptor,
}

// ---- rows

// Gives a row into the areas, and shows all of them.
fn give(
    d: Descriptor,
    block: &[u8],
    r: usize,
    values: &mut [i64],
    flags: &mut [u8],
    ends: &mut [u32],
    bytes: &mut [u8],
) {
    let answer = slow::row(d, block, r, values, flags, ends, bytes);
    say(b"row");
    show(answer.number);
    show(answer.bytes);
    say(b" values");
    show_each(values);
    say(b" flags:");
    show_bytes(flags);
    say(b" ends");
    show_each(ends);
    say(b" bytes:");
    show_bytes(bytes);
}

// ---- the program `night`

fn show_differs(differs: bool) {
    say(b"file");
    if differs {
        say(b" differs");
    }
}

fn print_file(file: &[u8]) {
    let mut one = whole_file::room();
    let mut other = whole_file::room();
    show_differs(night_by::compare_file(b"NAME", file, &mut one, &mut other));
}

fn print_sheet(file: &[u8]) {
    let mut one = whole_file::room();
    let mut other = whole_file::room();
    show_differs(night_by::compare_sheet(b"NAME", file, &mut one, &mut other));
}

impl State<'_> {
    // ---- blocks

    fn load(&mut self, room: &mut [u8]) {
        self.len = parts(&mut self.input, room);
        say(b"block");
        show(self.len);
    }

    fn change(&mut self, room: &mut [u8]) {
        let place = self.input.number();
        let b = self.input.byte();
        put(room, place, b);
        say(b"change");
        show(place);
        show(b);
    }

    fn lend(&mut self) {
        self.len = self.input.number();
        say(b"lend");
        show(self.len);
    }

    // ---- columns

    fn tell(&mut self) {
        let d = parts_by::descriptor(&mut self.input);
        say(b"column");
        show_each(&[d.kind, d.encoding, d.width, d.zero, d.rows]);
        self.column = d;
    }

    // Lends areas of the lengths that are told, filled with aa. Where an area is too long nothing is asked.
    fn ask(&mut self, block: &[u8]) {
        let r = self.input.number();
        let values = self.input.number();
        let flags = self.input.number();
        let ends = self.input.number();
        let bytes = self.input.number();
        if 4 < values || 4 < flags || 4 < ends || 300 < bytes {
            return;
        }
        let mut v = [0xaai64; 4];
        let mut f = [0xaau8; 4];
        let mut e = [0xaau32; 4];
        let mut b = [0xaau8; 300];
        give(
            self.column,
            block,
            r,
            &mut v[..values],
            &mut f[..flags],
            &mut e[..ends],
            &mut b[..bytes],
        );
    }

    // ---- the commands

    fn run(&mut self, room: &mut [u8]) {
        let command = Command::from(self.input.byte());
        match command {
            Command::Load => self.load(room),
            Command::Change => self.change(room),
            Command::Lend => self.lend(),
            Command::Tell => self.tell(),
            Command::Ask => self.ask(first(room, self.len)),
            Command::PrintFile => print_file(first(room, self.len)),
            Command::PrintSheet => print_sheet(first(room, self.len)),
        }
    }
}

// Each command takes a byte at least, so there are no more of them than bytes.
fn run_all(s: &[u8], room: &mut [u8]) {
    let mut state = State {
        input: Input::new(s),
        len: 0,
        column: descriptor::unpack([0; 8]),
    };
    for _ in 0..s.len() {
        if state.input.is_done() {
            return;
        }
        state.run(room);
        say(b"\n");
    }
}

// Room for the commands.
fn commands() -> [u8; 120000]
    ensures { 120000 ≡ length result }
{
    [0; 120000]
}

// Room for a block of the most rows.
fn room() -> [u8; 700000]
    ensures { 700000 ≡ length result }
{
    [0; 700000]
}

fn main() {
    let mut input = commands();
    let mut block = room();
    let n = io::read_full(0, &mut input);
    run_all(&input[..n], &mut block);
}
