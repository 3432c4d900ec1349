// The list of names on standard input, line by line, and what a line names.
ghost use Rattle.std.specs.Prelude.{IfErr, IfOk, ◌≡◌, true, ◌≤◌, length};
ghost use Rattle.io.specs.Counts.{IsPrefixLen};

use std::io;
use std::io::{Error, ErrorKind, Read};

// The most bytes of a line that are kept: `sheet ` and one byte more than the longest name that a file can have. So of a longer line no file
// is opened by a part of its name.
const MOST: usize = 4102;

// A line that was read: so many bytes of it, without its end, are in the room; and whether there may be a line behind it.
#[derive(Clone, Copy)]
pub struct Line {
    pub len: usize,
    pub more: bool,
}

// Why the list can't be read on, and how many bytes of the line that was begun are in the room.
#[derive(Clone, Copy)]
pub struct Broken {
    pub len: usize,
    pub error: Error,
}

pub fn room() -> [u8; MOST]
    ensures { 4102 ≡ length result }
{
    [0; MOST]
}

// The next byte of the list, if it has one.
fn next_byte(rt: &HostRuntime) -> io::Result<Option<u8>> {
    let mut one = [0u8; 1];
    let mut input = rt.stdin();
    let got = input.read(&mut one)?;
    Ok((0 < got).then_some(one[0]))
}

// Puts a byte behind those that are in the room, if it has room, and answers how many they are then.
fn keep(room: &mut [u8], len: usize, b: u8) -> usize
    requires { len ≤ length room.old }
    ensures { result ≤ length room.new }
{
    if room.len() <= len {
        return len;
    }
    room[len] = b;
    len + 1
}

// Reads up to the end of a line. Bytes that the room doesn't hold are passed over.
pub fn read_line(rt: &HostRuntime, room: &mut [u8]) -> Result<Line, Broken>
    ensures line { IfOk result (λ line. IsPrefixLen line.len room.new) }
    ensures unfinished { IfErr result (λ broken. IsPrefixLen broken.len room.new) }
{
    let mut len = 0;
    for _ in 0..usize::MAX {
        match next_byte(rt) {
            Ok(None) => return Ok(Line { len, more: false }),
            Ok(Some(b'\n')) => return Ok(Line { len, more: true }),
            Ok(Some(b)) => len = keep(room, len, b),
            Err(error) => return Err(Broken { len, error }),
        }
    }
    Err(Broken {
        len,
        error: Error::from(ErrorKind::FileTooLarge),
    })
}

// Whether a line names a sheet file: `sheet` and a space before the name.
pub fn is_sheet(line: &[u8]) -> bool
    ensures { result ≡ true → 6 ≤ length line.now }
{
    line.starts_with(b"sheet ")
}
