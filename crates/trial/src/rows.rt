// Rows, as a command gives them.
use script::Input;

// Which rows are there: none, all, or all but those where the first integer comes.
#[derive(Clone, Copy, PartialEq, Eq)]
pub enum Presence {
    Null,
    There,
    NullAtFirst,
}

impl From<usize> for Presence {
    fn from(number: usize) -> Presence {
        match number {
            0 => Presence::Null,
            2 => Presence::NullAtFirst,
            _ => Presence::There,
        }
    }
}

// Rows: how many; which are there; the first integer, the step to the next, after how many the first comes again (0: never); their bytes, or
// none where they are the first of the integer's, lowest first; how many bytes they were told to have; whether to ask before each.
#[derive(Clone, Copy)]
pub struct Rows<'a> {
    pub times: usize,
    pub presence: Presence,
    pub start: u64,
    pub step: u64,
    pub period: usize,
    pub text: Option<&'a [u8]>,
    pub len: usize,
    pub asks: bool,
}

impl<'a> Rows<'a> {
    // One row: presence, the integer, the number of bytes; those bytes.
    pub fn one(input: &mut Input<'a>) -> Rows<'a> {
        let presence = Presence::from(input.number());
        let start = input.number() as u64;
        let len = input.number();
        Rows {
            times: 1,
            presence,
            start,
            step: 0,
            period: 0,
            text: Some(input.part(len)),
            len,
            asks: false,
        }
    }

    // A row so many times: how many, and the row.
    pub fn equal(input: &mut Input<'a>) -> Rows<'a> {
        let times = input.number();
        let row = Rows::one(input);
        Rows { times, ..row }
    }
}
