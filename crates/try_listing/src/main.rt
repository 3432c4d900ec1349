// Lists the inputs of standard input one after the other, as the program `list` does with one. tools/listings.py makes the
// inputs, and by a reading of its own of document 01 the answers (the file stdout).
//
// An input is its length, four bytes, how many of its bytes follow, two bytes, both lowest first, and these bytes. The rest of it is 0.
// With 2^31 added to its length, it is opened, and changed before its rows are listed: five bytes more are a place in its block, how many
// rows are passed over first, two bytes each, and the byte that then comes to that place. Of an input that isn't opened, the rows are listed
// by the record that stands beside a refused opening.
#![tactic(auto)]

ghost use Rattle.std.specs.Prelude.{◌≡◌, length};

use block::Reader;
use script::{Input, byte, first, past};

// The next bytes as a number, lowest first.
fn four(input: &mut Input) -> usize {
    let bytes = [input.byte(), input.byte(), input.byte(), input.byte()];
    u32::from_le_bytes(bytes) as usize
}

fn two(input: &mut Input) -> usize {
    usize::from(u16::from_le_bytes([input.byte(), input.byte()]))
}

// An input of this length at the start of the room: the bytes that are given of it, and 0 behind them.
fn load(given: &[u8], len: usize, room: &mut [u8]) {
    for (i, cell) in room.iter_mut().enumerate() {
        if len <= i {
            return;
        }
        *cell = byte(given, i);
    }
}

// Past some rows, if there are so many.
fn passed(reader: Reader, block: &[u8], rows: usize) -> Reader {
    let mut values = [0i64; 0];
    let mut flags = [0u8; 0];
    let mut ends = [0u32; 0];
    let mut bytes = [0u8; 0];
    let answer = reader.read(
        block,
        rows,
        0,
        &mut values,
        &mut flags,
        &mut ends,
        &mut bytes,
    );
    answer.reader
}

// The reader of an input, past some rows.
fn reader_of(input: &[u8], rows: usize) -> Reader {
    let answer = text::open(input);
    match answer {
        Ok(reader) => passed(reader, text::block_of(input), rows),
        Err(_) => block::no_reader(),
    }
}

// Lists the rows of the file in the room, which is changed after it is opened.
fn list_changed(input: &mut Input, len: usize, room: &mut [u8]) {
    let place = past(two(input), 8);
    let rows = two(input);
    let value = input.byte();
    let reader = reader_of(first(room, len), rows);
    if let Some(cell) = room.get_mut(place) {
        *cell = value;
    }
    printing::print_rows(reader, text::block_of(first(room, len)));
}

// Lists the next input.
fn list(input: &mut Input, room: &mut [u8]) {
    let told = four(input);
    let n = two(input);
    let len = told % 0x8000_0000;
    load(input.part(n), len, room);
    if told < 0x8000_0000 {
        printing::print(first(room, len));
    } else {
        list_changed(input, len, room);
    }
}

// Each input takes a byte at least, so there are no more of them than bytes.
fn list_all(s: &[u8], room: &mut [u8]) {
    let mut input = Input::new(s);
    for _ in 0..s.len() {
        if input.is_done() {
            return;
        }
        list(&mut input, room);
    }
}

// Room for an input that is too long by a byte.
fn room() -> [u8; 65537]
    ensures { 65537 ≡ length result }
{
    [0; 65537]
}

fn main() {
    let mut input = io::large_buffer();
    let mut space = room();
    let n = io::read_full(0, &mut input);
    list_all(&input[..n], &mut space);
}
