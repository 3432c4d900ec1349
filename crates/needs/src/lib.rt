// What a builder has counted, and what that says of the block and of the lent areas: sizes, limits and needs.
#![tactic(auto)]

ghost use Rattle.std.specs.Prelude.{◌≡◌, true, false, ◌+◌, ◌*◌, ◌≤◌};
ghost use Rattle.limits.specs.Limits.{MOST_ITEMS, MOST_ENTRIES, MOST_BYTES};
ghost use Rattle.format.specs.declared.Encoding.TheVariants.{Dictionary};
ghost use Rattle.needs.specs.Needs.{coded, flagged, keyed, stored_by, plain_bytes, run_bytes, finished_bytes, counts_past, past_limits};
ghost use Rattle.needs.specs.Needs.{bytes_wrong, record_wrong, fields_short, too_short, disagree};
ghost use Rattle.needs.specs.Tests.{rows_by, runs_by, items_wrong, inner_by, inner_short};

use encode::Kind;
use format::Encoding;

// What was appended so far. Any numbers can stand here. Rows; runs; a dictionary's entries; the bytes of the stored items; the
// last run's count; nonzero if the last row is null; the byte length of the counts.
#[repr(C)]
#[derive(Clone, Copy)]
pub struct Counted {
    pub rows: usize,
    pub runs: usize,
    pub entries: usize,
    pub bytes: usize,
    pub last: usize,
    pub null: usize,
    pub counts: usize,
}

// How long each lent area is.
#[derive(Clone, Copy)]
pub struct Room {
    pub items: usize,
    pub ends: usize,
    pub flags: usize,
    pub counts: usize,
    pub keys: usize,
    pub lens: usize,
}

// Whether rows are coded by runs; whether a flag stands beside each stored item; whether a run has a key.
#[tactic(auto, unfolding(crate::specs::Needs::coded))]
pub fn is_coded(e: Encoding) -> bool
    ensures { result ≡ coded e }
{
    matches!(
        e,
        Encoding::RunLength | Encoding::RunLengthNullable | Encoding::Dictionary
    )
}

#[tactic(auto, unfolding(crate::specs::Needs::flagged))]
pub fn is_flagged(e: Encoding) -> bool
    ensures { result ≡ flagged e }
{
    matches!(e, Encoding::Nullable | Encoding::RunLengthNullable)
}

#[tactic(auto, unfolding(crate::specs::Needs::keyed))]
pub fn is_keyed(e: Encoding) -> bool
    ensures { result ≡ keyed e }
{
    matches!(e, Encoding::Dictionary)
}

// The stored items: rows, runs or entries.
pub fn stored(c: Counted, e: Encoding) -> usize
    ensures { result ≡ stored_by e c }
{
    match e {
        Encoding::Plain | Encoding::Nullable => c.rows,
        Encoding::RunLength | Encoding::RunLengthNullable => c.runs,
        Encoding::Dictionary => c.entries,
    }
}

// A plain block of `n` items of `len` bytes in all: only a blob's has ends.
pub fn plain_bytes(kind: Kind, n: usize, len: usize) -> usize
    requires { (n ≤ MOST_ITEMS) × (len ≤ 2 * MOST_BYTES) }
    ensures { (result ≡ plain_bytes kind n len) × (result ≤ 4 * MOST_ITEMS + 2 * MOST_BYTES) }
{
    match kind {
        Kind::Fixed(_) | Kind::Char(_) => len,
        Kind::Blob(_) => 4 * n + len,
    }
}

// An inner block of `n` items of `len` bytes in all: plain, or nullable with its bitmap and its trailer.
fn inner_bytes(kind: Kind, nullable: bool, n: usize, len: usize) -> usize
    requires { (n ≤ MOST_ITEMS) × (len ≤ 2 * MOST_BYTES) }
    ensures { (result ≡ inner_by kind nullable n len) × (result ≤ 5 * MOST_ITEMS + 2 * MOST_BYTES) }
{
    let bare = plain_bytes(kind, n, len);
    if nullable {
        return bare + (nullable::bitmap_len(n) + 4);
    }
    bare
}

// A block of the runs over `inner` bytes: no runs, no bytes.
fn run_bytes(c: Counted, inner: usize) -> usize
    requires { (c.counts ≤ 2 * MOST_BYTES) × (inner ≤ 5 * MOST_ITEMS + 2 * MOST_BYTES) }
    ensures { (result ≡ run_bytes c inner) × (result ≤ 5 * MOST_ITEMS + 5 * MOST_BYTES) }
{
    if c.runs == 0 {
        return 0;
    }
    8 + c.counts + inner
}

// The finished block's length by what is counted: of rows, of runs, of keys; of each encoding.
fn rows_bytes(c: Counted, kind: Kind, nullable: bool) -> usize
    requires { (c.rows ≤ MOST_ITEMS) × (c.bytes ≤ 2 * MOST_BYTES) }
    ensures { result ≡ finished_bytes kind (rows_by nullable) c }
{
    inner_bytes(kind, nullable, c.rows, c.bytes)
}

fn runs_bytes(c: Counted, kind: Kind, nullable: bool) -> usize
    requires { (c.runs ≤ MOST_ITEMS) × (c.bytes ≤ 2 * MOST_BYTES) × (c.counts ≤ 2 * MOST_BYTES) }
    ensures { result ≡ finished_bytes kind (runs_by nullable) c }
{
    run_bytes(c, inner_bytes(kind, nullable, c.runs, c.bytes))
}

fn keys_bytes(c: Counted, kind: Kind) -> usize
    requires { (c.runs ≤ MOST_ITEMS) × (c.entries ≤ MOST_ENTRIES) × (c.bytes ≤ 2 * MOST_BYTES) × (c.counts ≤ 2 * MOST_BYTES) }
    ensures { result ≡ finished_bytes kind Dictionary c }
{
    12 + run_bytes(c, 4 * c.runs) + plain_bytes(kind, c.entries, c.bytes)
}

pub fn block_bytes(c: Counted, kind: Kind, e: Encoding) -> usize
    requires { (counts_past e c ≡ false) × (c.bytes ≤ 2 * MOST_BYTES) × (coded e ≡ true → c.counts ≤ 2 * MOST_BYTES) }
    ensures { result ≡ finished_bytes kind e c }
{
    match e {
        Encoding::Plain => rows_bytes(c, kind, false),
        Encoding::Nullable => rows_bytes(c, kind, true),
        Encoding::RunLength => runs_bytes(c, kind, false),
        Encoding::RunLengthNullable => runs_bytes(c, kind, true),
        Encoding::Dictionary => keys_bytes(c, kind),
    }
}

// Whether a limit is passed: by rows, by runs, by keys; by each encoding.
pub fn rows_past(c: Counted, kind: Kind, nullable: bool) -> bool
    requires { c.bytes ≤ 2 * MOST_BYTES }
    ensures { result ≡ past_limits kind (rows_by nullable) c }
{
    if limits::MOST_ITEMS < c.rows {
        return true;
    }
    limits::MOST_BYTES < rows_bytes(c, kind, nullable)
}

pub fn runs_past(c: Counted, kind: Kind, nullable: bool) -> bool
    requires { (c.bytes ≤ 2 * MOST_BYTES) × (c.counts ≤ 2 * MOST_BYTES) }
    ensures { result ≡ past_limits kind (runs_by nullable) c }
{
    if limits::MOST_ROWS < c.rows {
        return true;
    }
    if limits::MOST_ITEMS < c.runs {
        return true;
    }
    limits::MOST_BYTES < runs_bytes(c, kind, nullable)
}

pub fn keys_past(c: Counted, kind: Kind) -> bool
    requires { (c.bytes ≤ 2 * MOST_BYTES) × (c.counts ≤ 2 * MOST_BYTES) }
    ensures { result ≡ past_limits kind Dictionary c }
{
    if limits::MOST_ROWS < c.rows {
        return true;
    }
    if limits::MOST_ITEMS < c.runs {
        return true;
    }
    if limits::MOST_ENTRIES < c.entries {
        return true;
    }
    limits::MOST_BYTES < keys_bytes(c, kind)
}

pub fn is_past(c: Counted, kind: Kind, e: Encoding) -> bool
    requires { (c.bytes ≤ 2 * MOST_BYTES) × (coded e ≡ true → c.counts ≤ 2 * MOST_BYTES) }
    ensures { result ≡ past_limits kind e c }
{
    match e {
        Encoding::Plain => rows_past(c, kind, false),
        Encoding::Nullable => rows_past(c, kind, true),
        Encoding::RunLength => runs_past(c, kind, false),
        Encoding::RunLengthNullable => runs_past(c, kind, true),
        Encoding::Dictionary => keys_past(c, kind),
    }
}

// Whether the item bytes are not the need of `n` items. A blob's can be any, but none of no items.
pub fn bytes_wrong(kind: Kind, n: usize, len: usize) -> bool
    requires { n ≤ MOST_ITEMS }
    ensures { result ≡ bytes_wrong kind n len }
{
    match kind {
        Kind::Fixed(p) => len != n * p.width(),
        Kind::Char(w) => len != n * (w as usize),
        Kind::Blob(_) => {
            if n == 0 {
                return len != 0;
            }
            false
        }
    }
}

// Whether `n` stored items are too many, their bytes not their need, or more than any block has.
fn items_wrong(kind: Kind, n: usize, len: usize) -> bool
    ensures { result ≡ items_wrong kind n len }
{
    if limits::MOST_ITEMS < n {
        return true;
    }
    if bytes_wrong(kind, n, len) {
        return true;
    }
    limits::MOST_BYTES < len
}

// Whether the record is wrong by itself: of rows, of runs, of keys; of each encoding. Each number is held to a limit before it
// goes into a sum or a product.
pub fn rows_wrong(c: Counted, kind: Kind, nullable: bool) -> bool
    ensures { result ≡ record_wrong kind (rows_by nullable) c }
{
    if items_wrong(kind, c.rows, c.bytes) {
        return true;
    }
    rows_past(c, kind, nullable)
}

pub fn runs_wrong(c: Counted, kind: Kind, nullable: bool) -> bool
    ensures { result ≡ record_wrong kind (runs_by nullable) c }
{
    if limits::MOST_BYTES < c.counts {
        return true;
    }
    if items_wrong(kind, c.runs, c.bytes) {
        return true;
    }
    runs_past(c, kind, nullable)
}

pub fn keys_wrong(c: Counted, kind: Kind) -> bool
    ensures { result ≡ record_wrong kind Dictionary c }
{
    if limits::MOST_BYTES < c.counts {
        return true;
    }
    if items_wrong(kind, c.entries, c.bytes) {
        return true;
    }
    keys_past(c, kind)
}

pub fn is_wrong(c: Counted, kind: Kind, e: Encoding) -> bool
    ensures { result ≡ record_wrong kind e c }
{
    match e {
        Encoding::Plain => rows_wrong(c, kind, false),
        Encoding::Nullable => rows_wrong(c, kind, true),
        Encoding::RunLength => runs_wrong(c, kind, false),
        Encoding::RunLengthNullable => runs_wrong(c, kind, true),
        Encoding::Dictionary => keys_wrong(c, kind),
    }
}

// Whether the ends or the lengths of `n` items don't fit.
fn fields_short(kind: Kind, n: usize, room: Room) -> bool
    ensures { result ≡ fields_short kind n room }
{
    match kind {
        Kind::Fixed(_) => false,
        Kind::Char(_) => room.lens < n,
        Kind::Blob(_) => room.ends < n,
    }
}

// Whether the items of an inner block, their fields or their flags don't fit.
fn inner_short(kind: Kind, nullable: bool, n: usize, len: usize, room: Room) -> bool
    requires { n ≤ MOST_ITEMS }
    ensures { result ≡ inner_short kind nullable n len room }
{
    if room.items < len {
        return true;
    }
    if fields_short(kind, n, room) {
        return true;
    }
    if nullable {
        return room.flags < nullable::bitmap_len(n);
    }
    false
}

// Whether a lent area is below the record's need: of rows, of runs, of keys; of each encoding.
pub fn rows_short(c: Counted, kind: Kind, nullable: bool, room: Room) -> bool
    requires { c.rows ≤ MOST_ITEMS }
    ensures { result ≡ too_short kind (rows_by nullable) c room }
{
    inner_short(kind, nullable, c.rows, c.bytes, room)
}

pub fn runs_short(c: Counted, kind: Kind, nullable: bool, room: Room) -> bool
    requires { c.runs ≤ MOST_ITEMS }
    ensures { result ≡ too_short kind (runs_by nullable) c room }
{
    if inner_short(kind, nullable, c.runs, c.bytes, room) {
        return true;
    }
    room.counts < c.runs
}

pub fn keys_short(c: Counted, kind: Kind, room: Room) -> bool
    requires { c.entries ≤ MOST_ITEMS }
    ensures { result ≡ too_short kind Dictionary c room }
{
    if inner_short(kind, false, c.entries, c.bytes, room) {
        return true;
    }
    if room.counts < c.runs {
        return true;
    }
    room.keys < c.runs
}

pub fn is_short(c: Counted, kind: Kind, e: Encoding, room: Room) -> bool
    requires { counts_past e c ≡ false }
    ensures { result ≡ too_short kind e c room }
{
    match e {
        Encoding::Plain => rows_short(c, kind, false, room),
        Encoding::Nullable => rows_short(c, kind, true, room),
        Encoding::RunLength => runs_short(c, kind, false, room),
        Encoding::RunLengthNullable => runs_short(c, kind, true, room),
        Encoding::Dictionary => keys_short(c, kind, room),
    }
}

// Whether the numbers are wrong by themselves, or a lent area is below their need: of rows, of runs, of keys; of each encoding.
pub fn rows_disagree(c: Counted, kind: Kind, nullable: bool, room: Room) -> bool
    ensures { result ≡ disagree kind (rows_by nullable) c room }
{
    if rows_wrong(c, kind, nullable) {
        return true;
    }
    rows_short(c, kind, nullable, room)
}

pub fn runs_disagree(c: Counted, kind: Kind, nullable: bool, room: Room) -> bool
    ensures { result ≡ disagree kind (runs_by nullable) c room }
{
    if runs_wrong(c, kind, nullable) {
        return true;
    }
    runs_short(c, kind, nullable, room)
}

pub fn keys_disagree(c: Counted, kind: Kind, room: Room) -> bool
    ensures { result ≡ disagree kind Dictionary c room }
{
    if keys_wrong(c, kind) {
        return true;
    }
    keys_short(c, kind, room)
}

pub fn disagrees(c: Counted, kind: Kind, e: Encoding, room: Room) -> bool
    ensures { result ≡ disagree kind e c room }
{
    if is_wrong(c, kind, e) {
        return true;
    }
    is_short(c, kind, e, room)
}
