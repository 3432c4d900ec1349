// Opening's rules, tested from the block's start: the second engine's own way, which shares no function with the first.
#![tactic(auto)]

ghost use Rattle.std.specs.Prelude.{◌≡◌, not, ◌*◌, ◌≤◌, eqb, length};
ghost use Rattle.limits.specs.Limits.{MOST_ITEMS, MOST_BYTES};
ghost use Rattle.limits.specs.Refusals.{SUM, number_in};
ghost use Rattle.encode.specs.Kinds.{kind_of, numbered as numbered_kind};
ghost use Rattle.plain.specs.Rules.{◌if◌};
ghost use Rattle.plain.specs.Plain.{places};
ghost use Rattle.nullable.specs.Nullable.{nullable_number};
ghost use Rattle.rle.specs.RunLength.{run_length_number};
ghost use Rattle.dict.specs.Dictionary.{known, keys_number, dictionary_number};
ghost use Rattle.format.specs.Blocks.{column_of, encoding_of};
ghost use Rattle.format.specs.Opening.{most_rows, rules_of, column_number};
ghost use Rattle.format.specs.Found.{inner_number};
ghost use Rattle.descriptor.specs.Descriptor.{described_number};
ghost use Rattle.slow_rules.specs.KeyBlock.{KeyBlock};

use descriptor::Descriptor;
use encode::{Kind, Primitive};
use format::{Column, Encoding};
use limits::refusal::Refusal;

// ---- nullable

fn nullable_number(kind: Kind, n: usize, s: &[u8]) -> Result<(), Refusal>
    requires { n ≤ MOST_ITEMS }
    ensures { number_in result ≡ nullable_number kind n s.now }
{
    let len = s.len();
    if len < 4 {
        return Err(Refusal::Cut);
    }
    let bits = slow_marks::bitmap_len(n);
    if slow_numbers::number_at(s, len - 4, 4, false) != (bits as u64) {
        return Err(Refusal::Length);
    }
    if len < bits + 4 {
        return Err(Refusal::Cut);
    }
    let end = len - (bits + 4);
    slow_plain::plain_number(kind, n, &s[..end])
}

fn inner_number(kind: Kind, nullable: bool, n: usize, s: &[u8]) -> Result<(), Refusal>
    requires { n ≤ MOST_ITEMS }
    ensures { number_in result ≡ inner_number nullable kind n s.now }
{
    if nullable {
        return nullable_number(kind, n, s);
    }
    slow_plain::plain_number(kind, n, s)
}

// ---- run-length

fn run_length_number(kind: Kind, nullable: bool, rows: usize, s: &[u8]) -> Result<(), Refusal>
    requires { length s.now ≤ MOST_BYTES }
    ensures { number_in result ≡ run_length_number (inner_number nullable kind) rows s.now }
{
    if s.len() == 0 {
        return no_bytes(rows);
    }
    if s.len() < 8 {
        return Err(Refusal::Cut);
    }
    let runs = slow_numbers::number_at(s, 0, 4, false) as usize;
    if limits::MOST_ITEMS < runs {
        return Err(Refusal::Limit);
    }
    if runs == 0 {
        return Err(Refusal::Counts);
    }
    let end = 8 + (slow_numbers::number_at(s, 4, 4, false) as usize);
    if s.len() < end {
        return Err(Refusal::Cut);
    }
    slow_counts::counts_number(rows, runs, &s[8..end])?;
    inner_number(kind, nullable, runs, &s[end..])
}

// A run-length block of no bytes has no rows.
fn no_bytes(rows: usize) -> Result<(), Refusal>
    ensures { number_in result ≡ SUM if not (eqb rows 0) }
{
    if rows == 0 {
        return Ok(());
    }
    Err(Refusal::Sum)
}

// ---- dictionary

// Whether each of `n` keys is null or names one of `entries`.
fn keys_known(keys: &[u8], n: usize, entries: usize) -> bool
    requires { (n ≤ MOST_ITEMS) × (4 * n ≤ length keys.now) }
    ensures { result ≡ known entries keys.now (places n 0) }
{
    for i in 0..n {
        if entries < slow_marks::slot_at(keys, i) {
            return false;
        }
    }
    true
}

// The keys of a sound key block.
fn keys_number(entries: usize, s: &[u8]) -> Result<(), Refusal>
    requires { KeyBlock s.now }
    ensures { number_in result ≡ keys_number entries s.now }
{
    if s.len() == 0 {
        return Ok(());
    }
    let runs = slow_numbers::number_at(s, 0, 4, false) as usize;
    let end = 8 + (slow_numbers::number_at(s, 4, 4, false) as usize);
    if keys_known(&s[end..], runs, entries) {
        return Ok(());
    }
    Err(Refusal::Key)
}

fn dictionary_number(kind: Kind, rows: usize, s: &[u8]) -> Result<(), Refusal>
    requires { length s.now ≤ MOST_BYTES }
    ensures { number_in result ≡ dictionary_number kind rows s.now }
{
    if s.len() < 12 {
        return Err(Refusal::Cut);
    }
    let entries = slow_numbers::number_at(s, 8, 4, true) as usize;
    let keys = slow_numbers::number_at(s, 0, 8, true);
    let room = (s.len() - 12) as u64;
    if limits::MOST_ENTRIES < entries {
        return Err(Refusal::Limit);
    }
    if room < keys {
        return Err(Refusal::Cut);
    }
    let end = 12 + (keys as usize);
    run_length_number(Kind::Fixed(Primitive::I32), false, rows, &s[12..end])?;
    keys_number(entries, &s[12..end])?;
    slow_plain::plain_number(kind, entries, &s[end..])
}

// ---- a column

// The kinds by number; the width is 0 for every kind but char.
fn numbered(kind: usize) -> Option<Kind>
    ensures { result ≡ numbered_kind kind }
{
    match kind {
        0 => Some(Kind::Fixed(Primitive::Bool)),
        1 => Some(Kind::Fixed(Primitive::I16)),
        2 => Some(Kind::Fixed(Primitive::I32)),
        3 => Some(Kind::Fixed(Primitive::I64)),
        4 => Some(Kind::Fixed(Primitive::Date)),
        5 => Some(Kind::Fixed(Primitive::Timestamp)),
        6 => Some(Kind::Fixed(Primitive::TimestampTz)),
        7 => Some(Kind::Fixed(Primitive::Interval)),
        9 => Some(Kind::Blob(false)),
        10 => Some(Kind::Blob(true)),
        11 => Some(Kind::Fixed(Primitive::F64)),
        _ => None,
    }
}

fn kind_of(kind: usize, width: usize) -> Option<Kind>
    ensures { result ≡ kind_of kind width }
{
    if kind == 8 {
        if width == 0 {
            return None;
        }
        if limits::MOST_WIDTH < width {
            return None;
        }
        return Some(Kind::Char(width as u8));
    }
    if width == 0 {
        return numbered(kind);
    }
    None
}

fn encoding_of(number: usize) -> Option<Encoding>
    ensures { result ≡ encoding_of number }
{
    match number {
        0 => Some(Encoding::Plain),
        1 => Some(Encoding::Nullable),
        2 => Some(Encoding::RunLength),
        3 => Some(Encoding::RunLengthNullable),
        4 => Some(Encoding::Dictionary),
        _ => None,
    }
}

pub fn column_of(d: Descriptor) -> Option<Column>
    ensures { result ≡ column_of d.kind d.encoding d.width }
{
    let kind = kind_of(d.kind, d.width)?;
    let encoding = encoding_of(d.encoding)?;
    Some(Column { kind, encoding })
}

fn most_rows(e: Encoding) -> usize
    ensures { result ≡ most_rows e }
{
    match e {
        Encoding::Plain | Encoding::Nullable => limits::MOST_ITEMS,
        Encoding::RunLength | Encoding::RunLengthNullable | Encoding::Dictionary =>
            limits::MOST_ROWS,
    }
}

fn rules_number(kind: Kind, e: Encoding, rows: usize, s: &[u8]) -> Result<(), Refusal>
    requires { (length s.now ≤ MOST_BYTES) × (rows ≤ most_rows e) }
    ensures { number_in result ≡ rules_of kind e rows s.now }
{
    match e {
        Encoding::Plain => slow_plain::plain_number(kind, rows, s),
        Encoding::Nullable => nullable_number(kind, rows, s),
        Encoding::RunLength => run_length_number(kind, false, rows, s),
        Encoding::RunLengthNullable => run_length_number(kind, true, rows, s),
        Encoding::Dictionary => dictionary_number(kind, rows, s),
    }
}

fn column_number(c: Option<Column>, rows: usize, s: &[u8]) -> Result<(), Refusal>
    ensures { number_in result ≡ column_number c rows s.now }
{
    let Some(column) = c else {
        return Err(Refusal::Column);
    };
    if limits::MOST_BYTES < s.len() {
        return Err(Refusal::Limit);
    }
    if most_rows(column.encoding) < rows {
        return Err(Refusal::Limit);
    }
    rules_number(column.kind, column.encoding, rows, s)
}

// The first rule that a block breaks, if it breaks one.
pub fn open_number(d: Descriptor, s: &[u8]) -> Result<(), Refusal>
    ensures { number_in result ≡ described_number d s.now }
{
    if d.zero != 0 {
        return Err(Refusal::Column);
    }
    column_number(column_of(d), d.rows, s)
}
