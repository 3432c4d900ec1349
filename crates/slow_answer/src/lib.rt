// What a row comes back as from the second engine, and what is due.
#![tactic(auto)]

ghost use Rattle.std.specs.Prelude.{◌≡◌};
ghost use Rattle.limits.specs.Refusals.{refusal_number};
ghost use Rattle.slow_answer.specs.Slow.{answer_of};

use limits::refusal;
use limits::refusal::Refusal;

// A number, and the bytes written of char, blob and string. C sees it: so the number stands beside the bytes.
#[repr(C)]
#[derive(Clone, Copy)]
pub struct RowGiven {
    pub number: u8,
    pub bytes: usize,
}

// A refusal's number, by a function of the second engine's own: it calls none that the first one calls.
fn number_of(why: Refusal) -> u8
    ensures { result ≡ refusal_number why }
{
    match why {
        Refusal::Column => refusal::COLUMN,
        Refusal::Item => refusal::ITEM,
        Refusal::Limit => refusal::LIMIT,
        Refusal::Room => refusal::ROOM,
        Refusal::NoRows => refusal::NO_ROWS,
        Refusal::TooFar => refusal::TOO_FAR,
        Refusal::Disagree => refusal::DISAGREE,
        Refusal::Cut => refusal::CUT,
        Refusal::Length => refusal::LENGTH,
        Refusal::Varint => refusal::VARINT,
        Refusal::Counts => refusal::COUNTS,
        Refusal::Ends => refusal::ENDS,
        Refusal::Key => refusal::KEY,
        Refusal::Sum => refusal::SUM,
        Refusal::Text => refusal::TEXT,
        Refusal::NoColumn => refusal::NO_COLUMN,
        Refusal::Sheet => refusal::SHEET,
        Refusal::Outside => refusal::OUTSIDE,
        Refusal::Unlike => refusal::UNLIKE,
    }
}

// The bytes that were written; or a refusal's number, and no bytes.
impl From<Result<usize, Refusal>> for RowGiven {
    ghost from_gives = { λ given answer. answer ≡ answer_of given };

    fn from(given: Result<usize, Refusal>) -> RowGiven {
        match given {
            Ok(bytes) => RowGiven { number: 0, bytes },
            Err(why) => RowGiven {
                number: number_of(why),
                bytes: 0,
            },
        }
    }
}
