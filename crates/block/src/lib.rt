// Blocks of every kind and encoding: a reader by value, and its calls.
#![tactic(auto)]

mod reading;

ghost use Rattle.std.specs.Prelude.{◌≡◌};
ghost use Rattle.limits.specs.Refusals.{by_number};
ghost use Rattle.block.specs.Reading.{opened, opening_of};

use format::Head;
use limits::refusal::Refusal;
pub use reading::{no_reader, open};
use rle::Spot;

// A reader: what opening was given and found at the block's head, where reading stands, and how many of the rows given were null. Any
// numbers can stand here.
#[repr(C)]
#[derive(Clone, Copy)]
pub struct Reader {
    pub kind: usize,
    pub encoding: usize,
    pub width: usize,
    pub rows: usize,
    pub len: usize,
    pub head: Head,
    pub place: usize,
    pub spot: Spot,
    pub nulls: usize,
}

// What opening answers as a number and a record, for callers who take no enum: 0 and a reader, or a refusal and a record that names no
// column.
#[repr(C)]
#[derive(Clone, Copy)]
pub struct Opening {
    pub number: u8,
    pub reader: Reader,
}

// What a read answers: the rows given and, for char, blob and string, the bytes written; or a refusal with the reader as it was.
#[repr(C)]
#[derive(Clone, Copy)]
pub struct Given {
    pub number: u8,
    pub rows: usize,
    pub bytes: usize,
    pub reader: Reader,
}

// What asking for the remaining rows answers: the reader comes back as it was.
#[repr(C)]
#[derive(Clone, Copy)]
pub struct Left {
    pub number: u8,
    pub rows: usize,
    pub reader: Reader,
}

impl From<Result<Reader, Refusal>> for Opening {
    ghost from_gives = { λ answer opening. opening ≡ opening_of (by_number answer) };

    fn from(answer: Result<Reader, Refusal>) -> Opening {
        match answer {
            Ok(reader) => Opening { number: 0, reader },
            Err(refusal) => Opening {
                number: u8::from(refusal),
                reader: no_reader(),
            },
        }
    }
}

// Opens a block, and answers a number and a record.
pub fn open_by_number(
    kind: usize,
    encoding: usize,
    width: usize,
    rows: usize,
    block: &[u8],
) -> Opening
    ensures { result ≡ opening_of (opened kind encoding width rows block.now) }
{
    Opening::from(open(kind, encoding, width, rows, block))
}
