// Two columns walked in step, run by run: each row of the one against the row of the other at its place, and where they differ recorded.
// A step compares one item with one, however many rows have them.
#![tactic(auto)]

mod items;

ghost use Rattle.std.specs.Prelude.{◌≡◌};
ghost use Rattle.in_step.specs.Differences.{differences};
ghost use Rattle.in_step.specs.Walking.{rows_walked, Walks, way_by, way_in};
ghost use Rattle.rle.specs.Stepping.{spot};
ghost use Rattle.ranges.specs.Recording.{Recorded};

use encode::{Kind, Primitive};
use items::walk_items;
use ranges::Mark;
use rle::Spot;
use source::{Marks, ShownRun, Source};

// The first `n` rows of both.
pub fn walk(
    a: Source,
    counts: &[u8],
    marks: &[u8],
    items: &[u8],
    b: Source,
    counts2: &[u8],
    marks2: &[u8],
    items2: &[u8],
    n: usize,
    firsts: &mut [usize],
    lasts: &mut [usize],
) -> Mark
    requires { Walks a counts.now marks.now items.now n × Walks b counts2.now marks2.now items2.now n × (a.kind ≡ b.kind) }
    ensures { Recorded
        (differences (rows_walked a counts.now marks.now items.now n) (rows_walked b counts2.now marks2.now items2.now n))
        result firsts.old lasts.old firsts.new lasts.new }
{
    match (way_of(a), way_of(b)) {
        (Some(p), Some(_)) => walk_items(p, items, items2, n, firsts, lasts),
        _ => walk_runs(
            a, counts, marks, items, b, counts2, marks2, items2, n, firsts, lasts,
        ),
    }
}

// How a column is walked: item by item of a fixed kind, where each row is one and none is null; or, by None, run by run.
#[tactic(auto, unfolding(crate::specs::Walking::way_in))]
fn way_of(s: Source) -> Option<Primitive>
    ensures { result ≡ way_in s.coded s.marks s.kind }
{
    if s.coded {
        return None;
    }
    match s.marks {
        Marks::Bare => way_by(s.kind),
        Marks::Bits | Marks::Keys => None,
    }
}

#[tactic(auto, unfolding(crate::specs::Walking::way_by))]
fn way_by(kind: Kind) -> Option<Primitive>
    ensures { result ≡ way_by kind }
{
    match kind {
        Kind::Fixed(p) => Some(p),
        Kind::Char(_) | Kind::Blob(_) => None,
    }
}

// No rows of a run, before the first.
fn none_yet() -> ShownRun
    ensures { result ≡ record { slot = 0; rows = 0; next = spot 0 0 0 } }
{
    ShownRun {
        slot: 0,
        rows: 0,
        next: Spot {
            run: 0,
            at: 0,
            taken: 0,
        },
    }
}

// This loop goes on by the runs of both columns, which are of varying length.
fn walk_runs(
    a: Source,
    counts: &[u8],
    marks: &[u8],
    items: &[u8],
    b: Source,
    counts2: &[u8],
    marks2: &[u8],
    items2: &[u8],
    n: usize,
    firsts: &mut [usize],
    lasts: &mut [usize],
) -> Mark
    requires { Walks a counts.now marks.now items.now n × Walks b counts2.now marks2.now items2.now n × (a.kind ≡ b.kind) }
    ensures { Recorded
        (differences (rows_walked a counts.now marks.now items.now n) (rows_walked b counts2.now marks2.now items2.now n))
        result firsts.old lasts.old firsts.new lasts.new }
{
    let mut mark = ranges::start();
    let mut left = n;
    let mut x = none_yet();
    let mut y = none_yet();
    let kind = a.kind;
    while 0 < left {
        if x.rows == 0 {
            let at = x.next;
            x = source::shown_run(a, counts, marks, items, at, left);
        } else if y.rows == 0 {
            let at = y.next;
            y = source::shown_run(b, counts2, marks2, items2, at, left);
        } else {
            let m = area::least(x.rows, y.rows);
            let same = matching::same_slot(kind, a.items, items, x.slot, b.items, items2, y.slot);
            mark = mark.add(!same, m, firsts, lasts);
            x.rows -= m;
            y.rows -= m;
            left -= m;
        }
    }
    mark
}
