// The refusals of document 01 and of its changes. Each has a number, by the names that include/idzulgar.h has too. 0 is done.
ghost use Rattle.std.specs.Prelude.{◌≡◌};
ghost use Rattle.limits.specs.Refusals.{refusal_number};

// Why a call is refused.
#[derive(Clone, Copy, Debug, PartialEq, Eq)]
pub enum Refusal {
    // Kind, encoding or width is not one of the pairs.
    Column,

    // An appended item doesn't fit its kind.
    Item,

    // A limit is passed.
    Limit,

    // Lent room is too short for the whole answer.
    Room,

    // Nothing asked for: a read that passes over no rows and gives none.
    NoRows,

    // More rows to pass over than remain.
    TooFar,

    // The record and the lent memory disagree.
    Disagree,

    // The block is cut.
    Cut,

    // A length is wrong.
    Length,

    // A run count is cut, too large or longer than needed.
    Varint,

    // A run count is 0, or the counts don't fill their section.
    Counts,

    // A blob end falls or passes the data.
    Ends,

    // A dictionary key names no entry.
    Key,

    // The run counts don't add up to the rows.
    Sum,

    // A stored char or string item isn't text.
    Text,

    // A sheet file has no such column.
    NoColumn,

    // A sheet file is empty, names more than 64 columns or ends in its directory.
    Sheet,

    // A column's block begins in the directory or ends behind the file.
    Outside,

    // Kinds or widths of two blocks that are compared differ.
    Unlike,
}

// Its number, for callers who take no enum.
impl From<Refusal> for u8 {
    ghost from_gives = { λ refusal n. n ≡ refusal_number refusal };

    fn from(refusal: Refusal) -> u8 {
        match refusal {
            Refusal::Column => COLUMN,
            Refusal::Item => ITEM,
            Refusal::Limit => LIMIT,
            Refusal::Room => ROOM,
            Refusal::NoRows => NO_ROWS,
            Refusal::TooFar => TOO_FAR,
            Refusal::Disagree => DISAGREE,
            Refusal::Cut => CUT,
            Refusal::Length => LENGTH,
            Refusal::Varint => VARINT,
            Refusal::Counts => COUNTS,
            Refusal::Ends => ENDS,
            Refusal::Key => KEY,
            Refusal::Sum => SUM,
            Refusal::Text => TEXT,
            Refusal::NoColumn => NO_COLUMN,
            Refusal::Sheet => SHEET,
            Refusal::Outside => OUTSIDE,
            Refusal::Unlike => UNLIKE,
        }
    }
}

// Kind, encoding or width is not one of the pairs.
pub const COLUMN: u8 = 1;

// An appended item doesn't fit its kind.
pub const ITEM: u8 = 2;

// A limit is passed.
pub const LIMIT: u8 = 3;

// Lent room is too short for the whole answer.
pub const ROOM: u8 = 4;

// Nothing asked for: a read that passes over no rows and gives none.
pub const NO_ROWS: u8 = 6;

// More rows to pass over than remain.
pub const TOO_FAR: u8 = 7;

// The record and the lent memory disagree.
pub const DISAGREE: u8 = 9;

// The block is cut.
pub const CUT: u8 = 10;

// A length is wrong.
pub const LENGTH: u8 = 11;

// A run count is cut, too large or longer than needed.
pub const VARINT: u8 = 12;

// A run count is 0, or the counts don't fill their section.
pub const COUNTS: u8 = 13;

// A blob end falls or passes the data.
pub const ENDS: u8 = 14;

// A dictionary key names no entry.
pub const KEY: u8 = 15;

// The run counts don't add up to the rows.
pub const SUM: u8 = 16;

// A stored char or string item isn't text.
pub const TEXT: u8 = 17;

// A sheet file has no such column.
pub const NO_COLUMN: u8 = 20;

// A sheet file is empty, names more than 64 columns or ends in its directory.
pub const SHEET: u8 = 21;

// A column's block begins in the directory or ends behind the file.
pub const OUTSIDE: u8 = 22;

// Kinds or widths of two blocks that are compared differ.
pub const UNLIKE: u8 = 25;
