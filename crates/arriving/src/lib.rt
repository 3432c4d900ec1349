// What a check of a block that arrives in pieces waits for.
#![tactic(auto)]

ghost use Rattle.std.specs.Prelude.{◌≡◌, not, ◌*◌, ◌≤◌, eqb};
ghost use Rattle.limits.specs.Limits.{MOST_ITEMS, MOST_ENTRIES};
ghost use Rattle.limits.specs.Refusals.{LENGTH, number_in};
ghost use Rattle.plain.specs.Rules.{◌if◌};
ghost use Rattle.format.specs.Opening.{most_rows};
ghost use Rattle.arriving.specs.Stages.{stage_of};
ghost use Rattle.arriving.specs.Arriving.{trailed as trailed_in, settled as settled_by, ends_from, chars_from, plain_from, nullable_from, no_runs, runs_from, began_by, began as began_of, keys_from, inner_from};

use encode::Kind;
use format::Encoding;
use limits::refusal::Refusal;

// The stage that it is in. Bytes of an unfinished field stand beside it.
#[derive(Clone, Copy)]
pub enum Stage {
    // the verdict is known, and what comes is counted alone
    Done(Result<(), Refusal>),
    // a dictionary: the length of its key block, in eight bytes
    KeyLength,
    // and the number of its entries, in four
    Entries {
        keys: usize,
    },
    // a run-length block of so many bytes: its runs, and the length of their counts, in eight
    RunHead {
        size: usize,
        entries: usize,
    },
    // counts: the length of the inner block, the runs, the bytes of the counts that are left and the runs that are, the sum so far
    Counts {
        inner: usize,
        runs: usize,
        left: usize,
        more: usize,
        sum: usize,
        entries: usize,
    },
    // so many keys more, in four bytes each
    Keys {
        left: usize,
        entries: usize,
    },
    // so many ends more, in four bytes each; the last one so far, the length of the data, and of the bitmap behind it
    Ends {
        left: usize,
        last: usize,
        data: usize,
        bits: usize,
    },
    // so many bytes more of char items, a place in one, and whether it has had its NUL
    Chars {
        left: usize,
        at: usize,
        ended: bool,
        bits: usize,
    },
    // a nullable block: the four bytes at its end, and what the plain rules said
    Trailer {
        bits: usize,
        later: Result<(), Refusal>,
    },
}

// ---- where it goes on: each answers the stage that comes next

// Whether a trailer comes last.
fn trailed(e: Encoding) -> bool
    ensures { result ≡ trailed_in e }
{
    match e {
        Encoding::Nullable | Encoding::RunLengthNullable => true,
        Encoding::Plain | Encoding::RunLength | Encoding::Dictionary => false,
    }
}

// What the plain rules said is the verdict, or waits for the trailer.
pub fn settled(e: Encoding, bits: usize, v: Result<(), Refusal>) -> Stage
    ensures { stage_of result ≡ settled_by e bits (number_in v) }
{
    if trailed(e) {
        return Stage::Trailer { bits, later: v };
    }
    Stage::Done(v)
}

// So many ends more.
pub fn ends_from(e: Encoding, bits: usize, n: usize, last: usize, long: usize) -> Stage
    ensures { stage_of result ≡ ends_from e bits n last long }
{
    if n == 0 {
        if last == long {
            return settled(e, bits, Ok(()));
        }
        return settled(e, bits, Err(Refusal::Length));
    }
    Stage::Ends {
        left: n,
        last,
        data: long,
        bits,
    }
}

// So many bytes more of char items.
pub fn chars_from(e: Encoding, bits: usize, n: usize, at: usize, ended: bool) -> Stage
    ensures { stage_of result ≡ chars_from e bits n at ended }
{
    if n == 0 {
        return settled(e, bits, Ok(()));
    }
    Stage::Chars {
        left: n,
        at,
        ended,
        bits,
    }
}

// Items one after another, of `w` bytes each, have to fill the length.
fn filled(n: usize, w: usize, len: usize) -> Result<(), Refusal>
    requires { (n ≤ MOST_ITEMS) × (w ≤ 255) }
    ensures { number_in result ≡ (LENGTH if not (eqb len (n * w))) }
{
    if len == n * w {
        return Ok(());
    }
    Err(Refusal::Length)
}

// A plain block of so many items in the next `len` bytes.
pub fn plain_from(kind: Kind, e: Encoding, bits: usize, n: usize, len: usize) -> Stage
    requires { n ≤ MOST_ITEMS }
    ensures { stage_of result ≡ plain_from kind e bits n len }
{
    match kind {
        Kind::Fixed(p) => settled(e, bits, filled(n, p.width(), len)),
        Kind::Char(w) => match filled(n, w as usize, len) {
            Ok(()) => chars_from(e, bits, len, 0, false),
            Err(refusal) => settled(e, bits, Err(refusal)),
        },
        Kind::Blob(_) => {
            if len < 4 * n {
                return settled(e, bits, Err(Refusal::Cut));
            }
            ends_from(e, bits, n, 0, len - 4 * n)
        }
    }
}

// A nullable one: whether bitmap and trailer fit is known already, but the trailer's own rule comes first.
pub fn nullable_from(kind: Kind, e: Encoding, n: usize, len: usize) -> Stage
    requires { n ≤ MOST_ITEMS }
    ensures { stage_of result ≡ nullable_from kind e n len }
{
    let bits = nullable::bitmap_len(n);
    if len < 4 {
        return Stage::Done(Err(Refusal::Cut));
    }
    if len < bits + 4 {
        return Stage::Trailer {
            bits,
            later: Err(Refusal::Cut),
        };
    }
    plain_from(kind, e, bits, n, len - (bits + 4))
}

// A run-length block of no bytes, which has no rows.
fn no_runs(kind: Kind, e: Encoding, entries: usize, rest: usize) -> Stage
    requires { entries ≤ MOST_ENTRIES }
    ensures { stage_of result ≡ no_runs kind e entries rest }
{
    match e {
        Encoding::Dictionary => plain_from(kind, e, 0, entries, rest),
        Encoding::Plain | Encoding::Nullable | Encoding::RunLength | Encoding::RunLengthNullable =>
            Stage::Done(Ok(())),
    }
}

// A run-length block of `size` bytes; of a dictionary it is the key block, and `rest` bytes are to come with it.
pub fn runs_from(
    kind: Kind,
    e: Encoding,
    n: usize,
    size: usize,
    entries: usize,
    rest: usize,
) -> Stage
    requires { entries ≤ MOST_ENTRIES }
    ensures { stage_of result ≡ runs_from kind e n size entries rest }
{
    if size == 0 {
        if n == 0 {
            return no_runs(kind, e, entries, rest);
        }
        return Stage::Done(Err(Refusal::Sum));
    }
    if size < 8 {
        return Stage::Done(Err(Refusal::Cut));
    }
    Stage::RunHead { size, entries }
}

// So many keys more, and behind them the entries.
pub fn keys_from(kind: Kind, n: usize, entries: usize, rest: usize) -> Stage
    requires { entries ≤ MOST_ENTRIES }
    ensures { stage_of result ≡ keys_from kind n entries rest }
{
    if n == 0 {
        return plain_from(kind, Encoding::Dictionary, 0, entries, rest);
    }
    Stage::Keys { left: n, entries }
}

// What stands behind the counts of so many runs, in `inner` bytes.
pub fn inner_from(
    kind: Kind,
    e: Encoding,
    runs: usize,
    inner: usize,
    entries: usize,
    rest: usize,
) -> Stage
    requires { (runs ≤ MOST_ITEMS) × (entries ≤ MOST_ENTRIES) }
    ensures { stage_of result ≡ inner_from kind e runs inner entries rest }
{
    match e {
        Encoding::Plain | Encoding::Nullable => Stage::Done(Ok(())),
        Encoding::RunLength => plain_from(kind, e, 0, runs, inner),
        Encoding::RunLengthNullable => nullable_from(kind, e, runs, inner),
        Encoding::Dictionary => {
            if inner != 4 * runs {
                return Stage::Done(Err(Refusal::Length));
            }
            keys_from(kind, runs, entries, rest)
        }
    }
}

// ---- before the first byte

fn began_by(kind: Kind, e: Encoding, n: usize, total: usize) -> Stage
    requires { n ≤ most_rows e }
    ensures { stage_of result ≡ began_by kind e n total }
{
    match e {
        Encoding::Plain => plain_from(kind, e, 0, n, total),
        Encoding::Nullable => nullable_from(kind, e, n, total),
        Encoding::RunLength | Encoding::RunLengthNullable => runs_from(kind, e, n, total, 0, total),
        Encoding::Dictionary => {
            if total < 12 {
                return Stage::Done(Err(Refusal::Cut));
            }
            Stage::KeyLength
        }
    }
}

// What is known of a block of so many rows from its length.
pub fn began(kind: Kind, e: Encoding, n: usize, total: usize) -> Stage
    ensures { stage_of result ≡ began_of kind e n total }
{
    if limits::MOST_BYTES < total {
        return Stage::Done(Err(Refusal::Limit));
    }
    if format::most_rows(e) < n {
        return Stage::Done(Err(Refusal::Limit));
    }
    began_by(kind, e, n, total)
}
