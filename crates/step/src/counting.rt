// The counted numbers with one row more.
ghost use Rattle.std.specs.Prelude.{◌≡◌, true, false, cond, not, ◌&&◌, ◌+◌, ◌-◌, ◌*◌, ◌≤◌, ◌<◌, ltb};
ghost use Rattle.limits.specs.Limits.{MOST_ROWS, MOST_ITEMS, MOST_ENTRIES, MOST_BYTES, MOST_COUNT};
ghost use Rattle.format.specs.declared.Encoding.TheVariants.{Plain, RunLength, Dictionary};
ghost use Rattle.needs.specs.Needs.{record_wrong};
ghost use Rattle.needs.specs.Tests.{rows_by, runs_by};
ghost use Rattle.step.specs.Counting.{growth as growth_at, grown as grown_by, answered, with_entries, counted_by};

use encode::Kind;
use limits::refusal::Refusal;
use needs::{Counted, Room};

// The bytes by which the last count's varint grows with one row more.
fn growth(last: usize) -> usize
    requires { last < MOST_COUNT }
    ensures { (result ≡ growth_at last) × (result ≤ 5) }
{
    varint::size((last + 1) as u32) - varint::size(last as u32)
}

// ---- rows

// With a row that has an item of `len` bytes.
pub fn grown_row(c: Counted, len: usize) -> Counted
    requires { (c.rows ≤ MOST_ITEMS) × (c.bytes ≤ MOST_BYTES) × (len ≤ MOST_BYTES) }
    ensures { result ≡ grown_by Plain c 0 len true false }
{
    Counted {
        rows: c.rows + 1,
        runs: c.runs,
        entries: c.entries,
        bytes: c.bytes + len,
        last: c.last,
        null: c.null,
        counts: c.counts,
    }
}

// The record with the row counted in, or that it passes a limit or has no room. An item longer than any block is refused before it goes into a sum.
pub fn row_counted(
    c: Counted,
    kind: Kind,
    nullable: bool,
    room: Room,
    len: usize,
) -> Result<Counted, Refusal>
    requires { record_wrong kind (rows_by nullable) c ≡ false }
    ensures { answered c result ≡ counted_by kind (rows_by nullable) c room (grown_by (rows_by nullable) c 0 len true false) }
{
    if limits::MOST_BYTES < len {
        return Err(Refusal::Limit);
    }
    let next = grown_row(c, len);
    if needs::rows_past(next, kind, nullable) {
        return Err(Refusal::Limit);
    }
    if needs::rows_short(next, kind, nullable, room) {
        return Err(Refusal::Room);
    }
    Ok(next)
}

// ---- runs and keys: the fields that a row changes

pub fn next_entries(c: Counted, stored: bool) -> usize
    requires { c.entries ≤ MOST_ENTRIES }
    ensures { result ≡ cond stored (c.entries + 1) c.entries }
{
    if stored {
        return c.entries + 1;
    }
    c.entries
}

fn next_bytes(c: Counted, len: usize, stored: bool) -> usize
    requires { (c.bytes ≤ MOST_BYTES) × (stored ≡ true → len ≤ MOST_BYTES) }
    ensures { result ≡ cond stored (c.bytes + len) c.bytes }
{
    if stored {
        return c.bytes + len;
    }
    c.bytes
}

pub fn next_null(present: bool) -> usize
    ensures { result ≡ 1 - cond present 1 0 }
{
    if present {
        return 0;
    }
    1
}

// With a row that has an item of `len` bytes: whether that is stored, and whether the row joins the last run.
pub fn grown_run(
    c: Counted,
    entries: usize,
    present: bool,
    len: usize,
    stored: bool,
    joins: bool,
) -> Counted
    requires { (c.rows ≤ MOST_ROWS) × (c.runs ≤ MOST_ITEMS) × (c.bytes ≤ MOST_BYTES) × (stored ≡ true → len ≤ MOST_BYTES) × (c.counts ≤ MOST_BYTES) × (joins ≡ true → c.last < MOST_COUNT) }
    ensures { result ≡ with_entries (grown_by RunLength c (cond present 1 0) len stored joins) entries }
{
    let bytes = next_bytes(c, len, stored);
    let null = next_null(present);
    if joins {
        return Counted {
            rows: c.rows + 1,
            runs: c.runs,
            entries,
            bytes,
            last: c.last + 1,
            null,
            counts: c.counts + growth(c.last),
        };
    }
    Counted {
        rows: c.rows + 1,
        runs: c.runs + 1,
        entries,
        bytes,
        last: 1,
        null,
        counts: c.counts + 1,
    }
}

// Whether an item that is stored is longer than any block.
pub fn too_long(stored: bool, len: usize) -> bool
    ensures { result ≡ (stored && ltb MOST_BYTES len) }
{
    if stored {
        return limits::MOST_BYTES < len;
    }
    false
}

// The same answer for a row of runs, and for one of keys.
pub fn run_counted(
    c: Counted,
    kind: Kind,
    nullable: bool,
    room: Room,
    present: bool,
    len: usize,
    stored: bool,
    joins: bool,
) -> Result<Counted, Refusal>
    requires { (record_wrong kind (runs_by nullable) c ≡ false) × (joins ≡ true → c.last < MOST_COUNT) × (stored ≡ not joins) }
    ensures { answered c result ≡ counted_by kind (runs_by nullable) c room (grown_by (runs_by nullable) c (cond present 1 0) len stored joins) }
{
    if too_long(stored, len) {
        return Err(Refusal::Limit);
    }
    let next = grown_run(c, c.entries, present, len, stored, joins);
    if needs::runs_past(next, kind, nullable) {
        return Err(Refusal::Limit);
    }
    if needs::runs_short(next, kind, nullable, room) {
        return Err(Refusal::Room);
    }
    Ok(next)
}

pub fn key_counted(
    c: Counted,
    kind: Kind,
    room: Room,
    present: bool,
    len: usize,
    stored: bool,
    joins: bool,
) -> Result<Counted, Refusal>
    requires { (record_wrong kind Dictionary c ≡ false) × (joins ≡ true → c.last < MOST_COUNT) }
    ensures { answered c result ≡ counted_by kind Dictionary c room (grown_by Dictionary c (cond present 1 0) len stored joins) }
{
    if too_long(stored, len) {
        return Err(Refusal::Limit);
    }
    let next = grown_run(c, next_entries(c, stored), present, len, stored, joins);
    if needs::keys_past(next, kind) {
        return Err(Refusal::Limit);
    }
    if needs::keys_short(next, kind, room) {
        return Err(Refusal::Room);
    }
    Ok(next)
}
