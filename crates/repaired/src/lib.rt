// A dictionary column of which some keys may name no entry, read run by run with those runs as nulls: its next run as a builder would
// make it, and the ranges of rows that are lost.
#![tactic(auto)]

ghost use Rattle.std.specs.Prelude.{◌≡◌, ◌∷◌, map, ◌+◌, ◌-◌, ◌*◌, ◌<◌, ◌≤◌, length};
ghost use Rattle.limits.specs.Limits.{MOST_ITEMS, MOST_COUNT};
ghost use Rattle.plain.specs.Rows.{same};
ghost use Rattle.rle.specs.RunLength.{run, runs_of};
ghost use Rattle.dict.specs.Dictionary.{entry_row};
ghost use Rattle.ranges.specs.Ranges.{ranges_of};
ghost use Rattle.ranges.specs.Recording.{put_down};
ghost use Rattle.repaired.specs.Repaired.{lost_at, slot_in, keys_by, runs_walked, runs_ahead, rows_ahead, none_yet, Keyed, Entered, Ahead};

use encode::{Kind, Primitive};
use rle::Spot;
use source::{Marks, ShownRun, Source};

// Rows that follow each other and are the same: the entry that they show, from 1 on (0 is null), how many they are, and the run that was
// taken last, with the rows of it that are left.
#[derive(Clone, Copy)]
pub struct Repeated {
    pub slot: usize,
    pub rows: usize,
    pub rest: ShownRun,
}

// How the keys are read: as a column of integers, coded by runs.
pub fn keys_by(runs: usize) -> Source
    ensures { result ≡ keys_by runs }
{
    Source {
        kind: Kind::Fixed(Primitive::I32),
        marks: Marks::Bare,
        items: runs,
        runs,
        coded: true,
    }
}

// No rows of a run, before the first.
pub fn none_yet() -> ShownRun
    ensures { result ≡ none_yet }
{
    ShownRun {
        slot: 0,
        rows: 0,
        next: Spot {
            run: 0,
            at: 0,
            taken: 0,
        },
    }
}

// Whether the key of run `i` is neither null's nor an entry's.
fn lost_at(entries: usize, keys: &[u8], i: usize) -> bool
    requires { (i < MOST_ITEMS) × (4 * i + 4 ≤ length keys.now) }
    ensures { result ≡ lost_at entries keys.now i }
{
    entries < dict::slot_at(keys, i)
}

// Which entry run `i` shows, from 1 on: 0, where its key is null's or names none.
fn slot_in(entries: usize, keys: &[u8], i: usize) -> usize
    requires { (i < MOST_ITEMS) × (4 * i + 4 ≤ length keys.now) }
    ensures { (result ≡ slot_in entries keys.now i) × (result ≤ entries) }
{
    let slot = dict::slot_at(keys, i);
    if entries < slot {
        return 0;
    }
    slot
}

// Whether two entries, counted from 1 on, read the same; 0 is null.
fn same_entry(kind: Kind, entries: usize, items: &[u8], a: usize, b: usize) -> bool
    requires { Entered kind entries items.now × (a ≤ entries) × (b ≤ entries) }
    ensures { result ≡ same (entry_row kind entries items.now a) (entry_row kind entries items.now b) }
{
    if a == b {
        return true;
    }
    matching::same_slot(kind, entries, items, a, entries, items, b)
}

// The next run of the `left` rows ahead: rows that are the same, up to the most that a run takes.
pub fn next_run(
    kind: Kind,
    entries: usize,
    runs: usize,
    counts: &[u8],
    keys: &[u8],
    items: &[u8],
    from: ShownRun,
    left: usize,
) -> Repeated
    requires { Keyed runs keys.now × Entered kind entries items.now × Ahead runs counts.now from left × (0 < left) }
    ensures { (0 < result.rows) × (result.rows ≤ left) × (result.rows ≤ MOST_COUNT) × (result.slot ≤ entries) × Ahead runs counts.now result.rest (left - result.rows)
        × (runs_of (rows_ahead kind entries runs counts.now keys.now items.now from left)
        ≡ (run (entry_row kind entries items.now result.slot) result.rows
        ∷ runs_of (rows_ahead kind entries runs counts.now keys.now items.now result.rest (left - result.rows)))) }
{
    let most = area::least(left, limits::MOST_COUNT);
    let source = keys_by(runs);
    let none = [0u8; 0];
    let mut x = from;
    let mut slot = 0;
    let mut rows = 0;
    while rows < most {
        if x.rows == 0 {
            let at = x.next;
            x = source::shown_run(source, counts, &none, keys, at, left - rows);
        } else {
            let shown = slot_in(entries, keys, x.slot - 1);
            if rows == 0 {
                slot = shown;
            } else if !same_entry(kind, entries, items, slot, shown) {
                return Repeated {
                    slot,
                    rows,
                    rest: x,
                };
            }
            let m = area::least(x.rows, most - rows);
            rows += m;
            x.rows -= m;
        }
    }
    Repeated {
        slot,
        rows,
        rest: x,
    }
}

// The ranges of rows that are lost: how many there are, and as many of them written as the lists have slots for.
pub fn mark_lost(
    entries: usize,
    runs: usize,
    counts: &[u8],
    keys: &[u8],
    n: usize,
    firsts: &mut [usize],
    lasts: &mut [usize],
) -> usize
    requires { Keyed runs keys.now × Ahead runs counts.now none_yet n }
    ensures value { result ≡ length (ranges_of (map (lost_at entries keys.now) (runs_walked runs counts.now n))) }
    ensures firsts_after { firsts.new ≡ put_down firsts.old (map (λ r. r.first) (ranges_of (map (lost_at entries keys.now) (runs_walked runs counts.now n)))) }
    ensures lasts_after { lasts.new ≡ put_down lasts.old (map (λ r. r.last) (ranges_of (map (lost_at entries keys.now) (runs_walked runs counts.now n)))) }
{
    let source = keys_by(runs);
    let none = [0u8; 0];
    let mut mark = ranges::start();
    let mut left = n;
    let mut x = none_yet();
    while 0 < left {
        if x.rows == 0 {
            let at = x.next;
            x = source::shown_run(source, counts, &none, keys, at, left);
        } else {
            let lost = lost_at(entries, keys, x.slot - 1);
            mark = mark.add(lost, x.rows, firsts, lasts);
            left -= x.rows;
            x.rows = 0;
        }
    }
    let ended = mark.end(firsts, lasts);
    ended.count
}
