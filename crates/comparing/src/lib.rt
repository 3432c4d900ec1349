// Two blocks of one kind and width compared, in any encodings: the ranges of rows that differ, written into two lent lists.
#![tactic(auto)]

mod ranged;
mod sides;

ghost use Rattle.std.specs.Prelude.{◌≡◌, ◌/◌, ltb};
ghost use Rattle.comparing.specs.Comparing.{compared, compare};
ghost use Rattle.comparing.specs.Taken.{Opens};

use anatomy::Parts;
use descriptor::Descriptor;
use limits::refusal;
use ranged::mark_ranges;
use sides::take_side;

// What comparing answers: how many ranges were written, or a refusal.
#[repr(C)]
#[derive(Clone, Copy)]
pub struct Compared {
    pub number: u8,
    pub ranges: usize,
}

// Compares two blocks by their descriptors. A range's first row and its last stand at the same place of the two lists.
pub fn compare(
    a: Descriptor,
    first: &[u8],
    b: Descriptor,
    second: &[u8],
    firsts: &mut [usize],
    lasts: &mut [usize],
) -> Compared
    ensures value { result ≡ (compare a first.now b second.now firsts.old lasts.old).answer }
    ensures firsts_after { firsts.new ≡ (compare a first.now b second.now firsts.old lasts.old).firsts }
    ensures lasts_after { lasts.new ≡ (compare a first.now b second.now firsts.old lasts.old).lasts }
{
    if a.kind != b.kind {
        return refused(refusal::UNLIKE);
    }
    if a.width != b.width {
        return refused(refusal::UNLIKE);
    }
    match take_side(a, first) {
        Ok(p) => compare_to(a, p, first, b, second, firsts, lasts),
        Err(refusal) => refused(u8::from(refusal)),
    }
}

// A sound block against another.
fn compare_to(
    a: Descriptor,
    p: Parts,
    first: &[u8],
    b: Descriptor,
    second: &[u8],
    firsts: &mut [usize],
    lasts: &mut [usize],
) -> Compared
    requires { Opens a first.now p × (a.kind ≡ b.kind) × (a.width ≡ b.width) }
    ensures value { result ≡ (compare a first.now b second.now firsts.old lasts.old).answer }
    ensures firsts_after { firsts.new ≡ (compare a first.now b second.now firsts.old lasts.old).firsts }
    ensures lasts_after { lasts.new ≡ (compare a first.now b second.now firsts.old lasts.old).lasts }
{
    match take_side(b, second) {
        Ok(q) => put_ranges(a, p, first, b, q, second, firsts, lasts),
        Err(refusal) => refused(u8::from(refusal)),
    }
}

// Whether lists of so many slots hold the ranges of so many rows, whatever they are: between two ranges lies a row that is equal.
fn holds_any(rows: usize, slots: usize) -> bool
    ensures { result ≡ ltb (rows / 2) slots }
{
    rows / 2 < slots
}

// Two sound blocks. Where both lists hold any ranges of so many rows, these are written as they are found; else they are counted first,
// and written if there are some and both lists have a slot for each.
fn put_ranges(
    a: Descriptor,
    p: Parts,
    first: &[u8],
    b: Descriptor,
    q: Parts,
    second: &[u8],
    firsts: &mut [usize],
    lasts: &mut [usize],
) -> Compared
    requires { Opens a first.now p × Opens b second.now q × (a.kind ≡ b.kind) × (a.width ≡ b.width) }
    ensures value { result ≡ (compare a first.now b second.now firsts.old lasts.old).answer }
    ensures firsts_after { firsts.new ≡ (compare a first.now b second.now firsts.old lasts.old).firsts }
    ensures lasts_after { lasts.new ≡ (compare a first.now b second.now firsts.old lasts.old).lasts }
{
    let n = area::least(a.rows, b.rows);
    let most = (a.rows - n) + b.rows;
    if holds_any(most, area::least(firsts.len(), lasts.len())) {
        let written = mark_ranges(a, p, first, b, q, second, firsts, lasts);
        return Compared {
            number: 0,
            ranges: written,
        };
    }
    let mut none = [0usize; 0];
    let mut nowhere = [0usize; 0];
    let ranges = mark_ranges(a, p, first, b, q, second, &mut none, &mut nowhere);
    if ranges == 0 {
        return Compared { number: 0, ranges };
    }
    if firsts.len() < ranges {
        return refused(refusal::ROOM);
    }
    if lasts.len() < ranges {
        return refused(refusal::ROOM);
    }
    mark_ranges(a, p, first, b, q, second, firsts, lasts);
    Compared { number: 0, ranges }
}

fn refused(number: u8) -> Compared
    ensures { result ≡ compared number 0 }
{
    Compared { number, ranges: 0 }
}
