// The listing program's calls on files: it prints what `text` opens and the texts that `text` makes. Rows are read one after
// the other, so that a listing of any length needs the room of one row only.
#![tactic(auto)]

ghost use Rattle.std.specs.Prelude.{◌≡◌, length};
ghost use Rattle.limits.specs.Limits.{MOST_INPUT};
ghost use Rattle.block.specs.Reading.{remaining};
ghost use Rattle.text.specs.Input.{input_opened};
ghost use Rattle.printing.specs.Printing.{refusal_of, next_row, rows_refused, listed};

use block::{Given, Reader};
use encode::Kind;
use limits::refusal;

// Lists the input on standard output. What comes back is 0 or the number that was printed behind `refused`. It is a number and no `Refusal`
// because the calls of a reader, which C has too, answer records with numbers.
pub fn print(input: &[u8]) -> u8
    ensures { result ≡ refusal_of (input_opened input.now) }
{
    let answer = text::open(input);
    match answer {
        Ok(reader) => print_rows(reader, text::block_of(input)),
        Err(refusal) => {
            let number = u8::from(refusal);
            say_refused(number);
            number
        }
    }
}

// Lists the rows that a reader has left: `rows`, at most 1,000 rows, `more` where more are left, `end`. A read that is refused ends
// the listing: `refused` and its number stand in the row's place, nothing follows, and the number comes back. No reader that was opened on
// the block comes to that, as the proof of `print` shows; a record or a block that has changed since is told so, and never as rows.
pub fn print_rows(reader: Reader, block: &[u8]) -> u8
    ensures { result ≡ listed reader block.now }
{
    let left = reader.remaining();
    if left.number != 0 {
        say_refused(left.number);
        return left.number;
    }
    let n = left.rows;
    say_line(b"rows ", n as u64);
    let number = say_rows(reader, area::least(n, 1000), block);
    if number != 0 {
        return number;
    }
    say_more(n);
    say(b"end\n");
    0
}

fn say(text: &[u8]) {
    io::write_all(1, text);
}

// A word and a number.
fn say_line(word: &[u8], n: u64) {
    say(word);
    io::print_decimal(1, n);
    say(b"\n");
}

// A refusal's line.
pub fn say_refused(number: u8) {
    say_line(b"refused ", number as u64);
}

// The rows that are not printed.
fn say_more(n: usize) {
    if n <= 1000 {
        return;
    }
    say_line(b"more ", (n - 1000) as u64);
}

// The next n rows of a reader, whose record contradicts nothing, and so names a kind.
fn say_rows(reader: Reader, n: usize, block: &[u8]) -> u8
    requires { (remaining reader).number ≡ 0 }
    ensures { result ≡ rows_refused n reader block.now MOST_INPUT }
{
    let Some(kind) = encode::kind_of(reader.kind, reader.width) else {
        say_refused(refusal::DISAGREE);
        return refusal::DISAGREE;
    };
    let mut bytes = io::large_buffer();
    let mut text = text_room();
    say_each(reader, kind, n, block, &mut bytes, &mut text)
}

// Room for the longest text: two digits for each of fewer than 65,536 bytes.
fn text_room() -> [u8; 131072]
    ensures { 131072 ≡ length result }
{
    [0; 131072]
}

// The next n rows, up to one that is refused.
fn say_each(
    from: Reader,
    kind: Kind,
    n: usize,
    block: &[u8],
    bytes: &mut [u8],
    text: &mut [u8],
) -> u8
    ensures { result ≡ rows_refused n from block.now (length bytes.old) }
{
    let mut reader = from;
    for i in 0..n {
        let answer = say_next(reader, kind, i, block, bytes, text);
        if answer.number != 0 {
            return answer.number;
        }
        reader = answer.reader;
    }
    0
}

// One row: it is read, then its line is written.
fn say_next(
    reader: Reader,
    kind: Kind,
    index: usize,
    block: &[u8],
    bytes: &mut [u8],
    text: &mut [u8],
) -> Given
    ensures { result ≡ next_row reader block.now (length bytes.old) }
{
    let mut values = [0i64; 1];
    let mut flags = [0u8; 1];
    let mut ends = [0u32; 1];
    let answer = reader.read(block, 0, 1, &mut values, &mut flags, &mut ends, bytes);
    if answer.number != 0 {
        say_refused(answer.number);
        return answer;
    }
    let made = text::row_text(
        kind,
        flags[0] != 0,
        values[0],
        bytes.get(..answer.bytes).unwrap_or(bytes),
        text,
    );
    say_row(index, made, text);
    answer
}

// The row's index and its text, which the room always holds.
fn say_row(index: usize, made: Option<usize>, text: &[u8]) {
    let Some(n) = made else {
        return;
    };
    io::print_decimal(1, index as u64);
    say(b" ");
    say(text.get(..n).unwrap_or(text));
    say(b"\n");
}
