// Why a file can't be read or made, told on standard error in the system's words.
use std::fmt::Write;
use std::io::Error;
use std::{fmt, str};

// The system's numbers for reasons that std has in words of its own or not at all: an argument that is missing or has a byte 0, a name that
// is too long, one that isn't text, and a call that a signal held up.
pub const INVALID: i32 = 22;

pub const NAME_TOO_LONG: i32 = 36;

pub const NO_TEXT: i32 = 84;

pub const INTERRUPTED: i32 = 4;

// More bytes than the system's longest reason has, with what std writes behind it.
const MOST: usize = 128;

// A reason as it is written, byte by byte.
#[derive(Drop)]
struct Words {
    bytes: [u8; MOST],
    len: usize,
}

impl fmt::Write for Words {
    fn write_str(&mut self, text: &str) -> fmt::Result {
        for b in text.as_bytes() {
            self.put(*b);
        }
        Ok(())
    }
}

impl Words {
    fn put(&mut self, b: u8) {
        if self.len < MOST {
            self.bytes[self.len] = b;
            self.len += 1;
        }
    }

    fn text(&self) -> &str {
        match str::from_utf8(&self.bytes[..self.len.min(MOST)]) {
            Ok(text) => text,
            Err(_) => "",
        }
    }
}

// The system's words for an error. std writes the error's number behind them.
fn without_number(text: &str) -> &str {
    match text.split_once(" (os error ") {
        Some((words, _)) => words,
        None => text,
    }
}

// Writes a line to standard error: what failed, a colon and the reason.
pub fn fail(what: &[u8], error: Error) {
    let mut words = Words {
        bytes: [0; MOST],
        len: 0,
    };
    let _ = words.write(error);
    io::write_all(2, what);
    io::write_all(2, b": ");
    io::write_all(2, without_number(words.text()).as_bytes());
    io::write_all(2, b"\n");
}
