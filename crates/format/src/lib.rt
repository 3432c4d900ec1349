// Columns of every kind and encoding: which numbers name them, and whether a block is sound.
#![tactic(auto)]

ghost use Rattle.std.specs.Prelude.{◌≡◌, ◌≤◌, length};
ghost use Rattle.limits.specs.Limits.{MOST_BYTES, MOST_ITEMS};
ghost use Rattle.limits.specs.Refusals.{number_in, by_number};
ghost use Rattle.rle.specs.RunLength.{run_length_number};
ghost use Rattle.dict.specs.Dictionary.{dictionary_rules};
ghost use Rattle.format.specs.Blocks.{encoding_of, column_of};
ghost use Rattle.format.specs.Opening.{most_rows, rules_of, head, head_of};
ghost use Rattle.format.specs.Found.{found_by, inner_number, runs_head, key_block_number, dictionary_asked};

use encode::{Kind, Primitive};
use limits::refusal::Refusal;

// How a column is laid out: encodings 0 to 4.
#[derive(Clone, Copy)]
pub enum Encoding {
    Plain,
    Nullable,
    RunLength,
    RunLengthNullable,
    Dictionary,
}

// What the numbers of a kind, an encoding and a width name together.
#[derive(Clone, Copy)]
pub struct Column {
    pub kind: Kind,
    pub encoding: Encoding,
}

// The numbers at the head of a block: of its runs, of the bytes of their counts, of the bytes of its key block and of its entries. Those
// that its encoding lacks are 0.
#[repr(C)]
#[derive(Clone, Copy)]
pub struct Head {
    pub runs: usize,
    pub counts: usize,
    pub keys: usize,
    pub entries: usize,
}

// The encoding of a number.
fn encoding_of(number: usize) -> Option<Encoding>
    ensures { result ≡ encoding_of number }
{
    match number {
        0 => Some(Encoding::Plain),
        1 => Some(Encoding::Nullable),
        2 => Some(Encoding::RunLength),
        3 => Some(Encoding::RunLengthNullable),
        4 => Some(Encoding::Dictionary),
        _ => None,
    }
}

// The pair that three numbers name.
pub fn column_of(kind: usize, encoding: usize, width: usize) -> Option<Column>
    ensures { result ≡ column_of kind encoding width }
{
    let kind = encode::kind_of(kind, width)?;
    let encoding = encoding_of(encoding)?;
    Some(Column { kind, encoding })
}

// The most rows that an encoding holds: in the first two every row is a stored item.
pub fn most_rows(e: Encoding) -> usize
    ensures { result ≡ most_rows e }
{
    match e {
        Encoding::Plain | Encoding::Nullable => limits::MOST_ITEMS,
        Encoding::RunLength | Encoding::RunLengthNullable | Encoding::Dictionary =>
            limits::MOST_ROWS,
    }
}

// The outcome of a block with nothing at its head.
fn bare(outcome: Result<(), Refusal>) -> Result<Head, Refusal>
    ensures { by_number result ≡ found_by (number_in outcome) (head 0 0 0 0) }
{
    outcome?;
    Ok(Head {
        runs: 0,
        counts: 0,
        keys: 0,
        entries: 0,
    })
}

// The rules of an inner block of `n` items, plain or nullable.
fn check_inner(kind: Kind, nullable: bool, n: usize, s: &[u8]) -> Result<(), Refusal>
    requires { n ≤ MOST_ITEMS }
    ensures { number_in result ≡ inner_number nullable kind n s.now }
{
    if nullable {
        return nullable::check(kind, n, s);
    }
    plain::check(kind, n, s)
}

// The rules of a run-length block over a plain or a nullable one.
fn check_runs(kind: Kind, nullable: bool, rows: usize, s: &[u8]) -> Result<Head, Refusal>
    requires { length s.now ≤ MOST_BYTES }
    ensures { by_number result ≡ found_by (run_length_number (inner_number nullable kind) rows s.now) (runs_head s.now) }
{
    let found = rle::find_head(rows as u64, s)?;
    let Some(head) = found else {
        return bare(Ok(()));
    };
    let end = 8 + head.counts;
    check_inner(kind, nullable, head.runs, &s[end..])?;
    Ok(Head {
        runs: head.runs,
        counts: head.counts,
        keys: 0,
        entries: 0,
    })
}

// The rules of a dictionary's key block, and, if that is asked, that each key is null or names one of `entries`.
fn check_keys(asked: bool, rows: usize, s: &[u8], entries: usize) -> Result<Head, Refusal>
    requires { length s.now ≤ MOST_BYTES }
    ensures { by_number result ≡ found_by (key_block_number asked rows entries s.now) (runs_head s.now) }
{
    let head = check_runs(Kind::Fixed(Primitive::I32), false, rows, s)?;
    // no runs, no keys
    if head.runs == 0 {
        return Ok(head);
    }
    if !asked {
        return Ok(head);
    }
    let end = 8 + head.counts;
    if dict::known(&s[end..], head.runs, entries) {
        return Ok(head);
    }
    Err(Refusal::Key)
}

// The rules of a dictionary block; that of its keys only if it is asked.
fn check_dictionary(asked: bool, kind: Kind, rows: usize, s: &[u8]) -> Result<Head, Refusal>
    requires { length s.now ≤ MOST_BYTES }
    ensures { by_number result ≡ found_by (dictionary_asked asked kind rows s.now) (head_of Encoding.Dictionary s.now) }
{
    let n = s.len();
    if n < 12 {
        return Err(Refusal::Cut);
    }
    let entries = dict::entries_in(s);
    if limits::MOST_ENTRIES < entries {
        return Err(Refusal::Limit);
    }
    // 12 is taken off the length and not added to the key block's, which can be near 2^64
    let keys = dict::key_len(s) as usize;
    if n - 12 < keys {
        return Err(Refusal::Cut);
    }
    let end = 12 + keys;
    let head = check_keys(asked, rows, &s[12..end], entries)?;
    plain::check(kind, entries, &s[end..])?;
    Ok(Head {
        runs: head.runs,
        counts: head.counts,
        keys,
        entries,
    })
}

// The rules of a column: the head of a sound block, or the refusal.
pub fn check(kind: Kind, encoding: Encoding, rows: usize, s: &[u8]) -> Result<Head, Refusal>
    requires { (length s.now ≤ MOST_BYTES) × (rows ≤ most_rows encoding) }
    ensures { by_number result ≡ found_by (rules_of kind encoding rows s.now) (head_of encoding s.now) }
{
    match encoding {
        Encoding::Plain => bare(plain::check(kind, rows, s)),
        Encoding::Nullable => bare(nullable::check(kind, rows, s)),
        Encoding::RunLength => check_runs(kind, false, rows, s),
        Encoding::RunLengthNullable => check_runs(kind, true, rows, s),
        Encoding::Dictionary => check_dictionary(true, kind, rows, s),
    }
}

// The rules of a dictionary block as if every key were good.
pub fn check_but_keys(kind: Kind, rows: usize, s: &[u8]) -> Result<Head, Refusal>
    requires { length s.now ≤ MOST_BYTES }
    ensures { by_number result ≡ found_by (dictionary_rules 0 kind rows s.now) (head_of Encoding.Dictionary s.now) }
{
    check_dictionary(false, kind, rows, s)
}
