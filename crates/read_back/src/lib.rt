// A block read back by the commands of standard input: opening and reads, each with the rows that remain, and a block given.
#![tactic(auto)]

mod calls;
mod showing;

use block::Reader;
use script::{Input, show_each};

// What stands between two commands: the input, the length of the block, its reader.
#[derive(Clone, Copy)]
pub struct Reading<'a> {
    pub input: Input<'a>,
    pub len: usize,
    pub reader: Reader,
}

// The numbers that name a column.
#[derive(Clone, Copy)]
pub struct Named {
    pub kind: usize,
    pub encoding: usize,
    pub width: usize,
}

impl Named {
    pub fn taken(input: &mut Input) -> Named {
        Named {
            kind: input.number(),
            encoding: input.number(),
            width: input.number(),
        }
    }

    pub fn show(self) {
        show_each(&[self.kind, self.encoding, self.width]);
    }
}

impl<'a> Reading<'a> {
    // At the first command there is no block, and no reader.
    pub fn new(bytes: &'a [u8]) -> Reading<'a> {
        Reading {
            input: Input::new(bytes),
            len: 0,
            reader: block::no_reader(),
        }
    }
}
