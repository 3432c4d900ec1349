// Builders of blocks of every kind and encoding, by value, over lent areas.
#![tactic(auto)]

mod appending;
mod finishing;
mod sizing;

ghost use Rattle.std.specs.Prelude.{◌≡◌};
ghost use Rattle.limits.specs.Refusals.{by_number};
ghost use Rattle.builder.specs.Building.{empty, created, counting};

use limits::refusal::Refusal;
use needs::Counted;

// A builder: what creation was given, and what was appended so far. Any numbers can stand here.
#[repr(C)]
#[derive(Clone, Copy)]
pub struct Builder {
    pub kind: usize,
    pub encoding: usize,
    pub width: usize,
    pub target: usize,
    pub keytarget: usize,
    pub counted: Counted,
}

// What an append answers: 0 and the next builder, or a refusal with the builder as it was. The records of the answers keep
// their numbers: they are the C interface.
#[repr(C)]
#[derive(Clone, Copy)]
pub struct Appended {
    pub number: u8,
    pub builder: Builder,
}

// What finishing answers: the bytes written, and the builder as it was.
#[repr(C)]
#[derive(Clone, Copy)]
pub struct Finished {
    pub number: u8,
    pub len: usize,
    pub builder: Builder,
}

// What asking for the estimated size answers, and what asking whether to finish answers: the builder comes back as it was.
#[repr(C)]
#[derive(Clone, Copy)]
pub struct Estimated {
    pub number: u8,
    pub size: usize,
    pub builder: Builder,
}

#[repr(C)]
#[derive(Clone, Copy)]
pub struct Asked {
    pub number: u8,
    pub full: bool,
    pub builder: Builder,
}

impl Builder {
    // The builder of these numbers, with nothing appended, whether they name a column or not.
    pub fn new(
        kind: usize,
        encoding: usize,
        width: usize,
        target: usize,
        keytarget: usize,
    ) -> Builder
        ensures { result ≡ empty kind encoding width target keytarget }
    {
        let counted = Counted {
            rows: 0,
            runs: 0,
            entries: 0,
            bytes: 0,
            last: 0,
            null: 0,
            counts: 0,
        };
        Builder {
            kind,
            encoding,
            width,
            target,
            keytarget,
            counted,
        }
    }

    // The builder with other counted numbers.
    fn counting(self, counted: Counted) -> Builder
        ensures { result ≡ counting self counted }
    {
        Builder { counted, ..self }
    }
}

// A builder of a column, with nothing appended; a refused column has none. Its target is that of a dictionary's keys too.
pub fn create(kind: usize, encoding: usize, width: usize, target: usize) -> Result<Builder, Refusal>
    ensures { by_number result ≡ created kind encoding width target target }
{
    create_with_key_target(kind, encoding, width, target, target)
}

// The same with another target for a dictionary's keys: with 0 a block is to be finished after each row. Every encoding keeps it, the others never look at it.
pub fn create_with_key_target(
    kind: usize,
    encoding: usize,
    width: usize,
    target: usize,
    keytarget: usize,
) -> Result<Builder, Refusal>
    ensures { by_number result ≡ created kind encoding width target keytarget }
{
    match format::column_of(kind, encoding, width) {
        Some(_) => Ok(Builder::new(kind, encoding, width, target, keytarget)),
        None => Err(Refusal::Column),
    }
}
