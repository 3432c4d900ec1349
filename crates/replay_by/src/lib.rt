// The commands on a builder and on the block that it makes, as `try_replay` tells them.
#![tactic(auto)]

mod building;
mod taking;

use builder::Builder;
use cells::Lent;
use read_back::Reading;
pub use taking::{Plan, rows};

// What stands between two commands: the builder, and the input with what is read.
#[derive(Clone, Copy)]
pub struct State<'a> {
    pub builder: Builder,
    pub reading: Reading<'a>,
}

impl<'a> State<'a> {
    // At the first command there is neither.
    pub fn new(bytes: &'a [u8]) -> State<'a> {
        State {
            builder: trial::no_builder(),
            reading: Reading::new(bytes),
        }
    }
}

// Every area is lent whole.
pub fn whole() -> Lent {
    Lent {
        items: limits::MOST_BYTES,
        ends: limits::MOST_BYTES,
        flags: limits::MOST_BYTES,
        counts: limits::MOST_BYTES,
        keys: limits::MOST_BYTES,
        lens: limits::MOST_BYTES,
    }
}
