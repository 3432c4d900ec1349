// Where the rows of a block come from, whatever its encoding: its counts, its marks and its items. A place is an item or a run. Here are
// the item that a place looks at and the one that it shows, the next run of the pass that looks and of the one that writes, and the
// bytes and the flag of an item. `weigh`, `fixed_rows` and `byte_rows` have the loops.
#![tactic(auto)]

ghost use Rattle.std.specs.Prelude.{◌≡◌, true, ◌+◌, ◌-◌, ◌<◌, ◌≤◌, length, take, drop, replicate, Some};
ghost use Rattle.std.proofs.lemmas.List.Edits.{sets};
ghost use Rattle.limits.specs.Limits.{MOST_ITEMS};
ghost use Rattle.encode.specs.Kinds.{blob};
ghost use Rattle.encode.specs.declared.Kind.TheVariants.{Char};
ghost use Rattle.plain.specs.Plain.{least_bytes, ends_good};
ghost use Rattle.rle.specs.Pieces.{run_piece};
ghost use Rattle.source.specs.Rows.{shown_by, seen_by, most_by, text_of, good_by, Ready, piece_of, look_by, Good};

use encode::Kind;
use plain::Range;
use rle::Spot;

// What stands beside the items: nothing, a bit a row, or a key a run.
#[derive(Clone, Copy)]
pub enum Marks {
    Bare,
    Bits,
    Keys,
}

// How the parts are read: the kind, the marks, the number of items and of runs, and whether rows are coded by runs.
#[derive(Clone, Copy)]
pub struct Source {
    pub kind: Kind,
    pub marks: Marks,
    pub items: usize,
    pub runs: usize,
    pub coded: bool,
}

// The bytes of the next rows, of which one more than a read can give stands for all that are more, and the place after them. There is
// none where a count, an item or a key is wrong.
#[derive(Clone, Copy)]
pub struct Weighed {
    pub bytes: usize,
    pub next: Spot,
}

// A run that is looked at: its item, from 1 on (0 is none: a null key has none, and a run that was used up is not looked at),
// how many rows, and the place after them. There is none where the count or the key is wrong.
#[derive(Clone, Copy)]
pub struct Look {
    pub seen: usize,
    pub rows: usize,
    pub next: Spot,
}

// A run of which rows are written: its item, from 1 on (0 is null, and stands for a run that was used up too), how many
// rows, and the place after them.
#[derive(Clone, Copy)]
pub struct ShownRun {
    pub slot: usize,
    pub rows: usize,
    pub next: Spot,
}

// ---- a place

// The item that place `i` shows, from 1 on; 0 is null.
pub fn shown_at(s: Source, marks: &[u8], items: &[u8], i: usize) -> usize
    requires { Ready s marks.now items.now × (good_by s marks.now items.now i ≡ true) }
    ensures { (result ≡ shown_by s.marks marks.now i) × (result ≤ s.items) }
{
    let by = s.marks;
    match by {
        Marks::Bare => i + 1,
        Marks::Bits => {
            if nullable::bit_at(marks, i) == 0 {
                0
            } else {
                i + 1
            }
        }
        Marks::Keys => dict::slot_at(marks, i),
    }
}

// Which item place `i` looks at, from 1 on: under a null bit too, and none for a null key. Past the items, where there is no such
// place.
pub fn seen_at(s: Source, marks: &[u8], items: &[u8], i: usize) -> usize
    requires { Ready s marks.now items.now × (i ≤ MOST_ITEMS) }
    ensures { (most_by s.marks s.items s.runs ≤ i → s.items < result) × (i < most_by s.marks s.items s.runs → result ≡ seen_by s.marks marks.now i) }
{
    let by = s.marks;
    match by {
        Marks::Bare | Marks::Bits => i + 1,
        Marks::Keys => {
            if s.runs <= i {
                return s.items + 1;
            }
            dict::slot_at(marks, i)
        }
    }
}

// Which item is shown, of the one that is looked at: none under a null bit.
pub fn shown_of(s: Source, marks: &[u8], items: &[u8], i: usize, seen: usize) -> usize
    requires { Ready s marks.now items.now × (seen ≤ s.items) × (0 < seen → seen ≡ seen_by s.marks marks.now i) }
    ensures { (0 < result → result ≡ seen) × (seen ≡ seen_by s.marks marks.now i → result ≡ shown_by s.marks marks.now i) }
{
    if seen == 0 {
        return 0;
    }
    let by = s.marks;
    match by {
        Marks::Bits => {
            if nullable::bit_at(marks, i) == 0 {
                0
            } else {
                seen
            }
        }
        Marks::Bare | Marks::Keys => seen,
    }
}

// ---- the next run

// The next run that is looked at: its item is there.
pub fn seen_run(
    s: Source,
    counts: &[u8],
    marks: &[u8],
    items: &[u8],
    at: Spot,
    left: usize,
) -> Option<Look>
    requires { Ready s marks.now items.now × (at.run ≤ MOST_ITEMS) }
    ensures { result ≡ look_by s marks.now at.run (piece_of s counts.now at left) }
{
    let piece = rle::take_piece(s.coded, counts, s.runs, at, left)?;
    let rows = piece.rows;
    let next = piece.next;
    if rows == 0 {
        return Some(Look {
            seen: 0,
            rows,
            next,
        });
    }
    let seen = seen_at(s, marks, items, at.run);
    if s.items < seen {
        return None;
    }
    Some(Look { seen, rows, next })
}

// The next run of which rows are written. The first pass has found it there and good.
pub fn shown_run(
    s: Source,
    counts: &[u8],
    marks: &[u8],
    items: &[u8],
    at: Spot,
    left: usize,
) -> ShownRun
    requires { Ready s marks.now items.now × (at.run ≤ MOST_ITEMS) × Good (good_by s marks.now items.now) at.run (piece_of s counts.now at left) }
    ensures { (piece_of s counts.now at left ≡ Some (run_piece result.rows result.next))
        × (0 < result.rows → result.slot ≡ shown_by s.marks marks.now at.run) × (result.slot ≤ s.items)
        × (0 < result.slot → ends_good s.kind s.items items.now (result.slot - 1) ≡ true) }
{
    let taken = rle::take_piece(s.coded, counts, s.runs, at, left);
    let Some(piece) = taken else {
        return ShownRun {
            slot: 0,
            rows: 0,
            next: at,
        };
    };
    let rows = piece.rows;
    let next = piece.next;
    if rows == 0 {
        return ShownRun {
            slot: 0,
            rows,
            next,
        };
    }
    let slot = shown_at(s, marks, items, at.run);
    ShownRun { slot, rows, next }
}

// ---- an item, counted from 1 on

// The bytes of a char item, counted from 1 on, and of a blob: none of a null.
pub fn char_of(w: usize, n: usize, items: &[u8], slot: usize) -> Range
    requires { (slot ≤ n) × (n ≤ MOST_ITEMS) × (w < 256) × (least_bytes (Char w) n ≤ length items.now) }
    ensures { (result.from + result.len ≤ length items.now) × (take result.len (drop result.from items.now) ≡ text_of (Char w) n items.now slot) }
{
    if slot == 0 {
        return Range { from: 0, len: 0 };
    }
    plain::char_at(w, n, items, slot - 1)
}

pub fn blob_of(n: usize, items: &[u8], slot: usize) -> Range
    requires { (slot ≤ n) × (n ≤ MOST_ITEMS) × (least_bytes blob n ≤ length items.now) × (0 < slot → ends_good blob n items.now (slot - 1) ≡ true) }
    ensures { (result.from + result.len ≤ length items.now) × (take result.len (drop result.from items.now) ≡ text_of blob n items.now slot) }
{
    if slot == 0 {
        return Range { from: 0, len: 0 };
    }
    plain::blob_at(n, items, slot - 1)
}

// The flag of an item, counted from 1 on: 0 of a null.
pub fn flag_of(slot: usize) -> u8
    ensures { (slot ≡ 0 → result ≡ 0) × (0 < slot → result ≡ 1) }
{
    if slot == 0 { 0 } else { 1 }
}

// `rows` times one flag. One row, which is what most runs of a dictionary have, takes no loop.
pub fn fill_flags(flags: &mut [u8], to: usize, rows: usize, flag: u8)
    requires { to + rows ≤ length flags.old }
    ensures { flags.new ≡ sets flags.old to (replicate rows flag) }
{
    if rows == 1 {
        flags[to] = flag;
        return;
    }
    area::fill(flags, to, rows, flag);
}
