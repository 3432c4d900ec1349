// Run-length blocks: the head, the walk over the counts, and steps from run to run.
#![tactic(auto)]

ghost use Rattle.std.specs.Prelude.{◌≡◌, ◌+◌, ◌≤◌, ◌<◌, length};
ghost use Rattle.limits.specs.Limits.{MOST_BYTES, MOST_ITEMS};
ghost use Rattle.limits.specs.Refusals.{by_number};
ghost use Rattle.rle.specs.RunLength.{walked};
ghost use Rattle.rle.specs.Stepping.{spot, here, steps_from};
ghost use Rattle.rle.specs.Pieces.{head_found, gone, rest_of, piece_in, reached, Walks, Goes};

use limits::refusal::Refusal;
use limits::{MOST_ITEMS, MOST_ROWS};

// What the first counts of a walk come to: the rows and the bytes of all of them.
#[derive(Clone, Copy)]
struct First {
    rows: u64,
    len: usize,
}

// What opening finds at the head of a block: the numbers of runs and of bytes of the counts.
#[derive(Clone, Copy)]
pub struct RunHead {
    pub runs: usize,
    pub counts: usize,
}

// A place in the runs: the run, the byte at which its count begins, and the rows already taken of it.
#[repr(C)]
#[derive(Clone, Copy)]
pub struct Spot {
    pub run: usize,
    pub at: usize,
    pub taken: usize,
}

// The rows still in a run and the bytes of its count.
#[derive(Clone, Copy)]
pub struct Rest {
    pub free: usize,
    pub len: usize,
}

// Rows of one run and the place after them. A run that was used up gives none, and the place is the next run's.
#[derive(Clone, Copy)]
pub struct Piece {
    pub rows: usize,
    pub next: Spot,
}

// Where rows that are passed over run by run lead: a place, and the rows that are left to pass from there.
#[derive(Clone, Copy)]
struct Gone {
    spot: Spot,
    left: usize,
}

// How many counts are taken one by one before groups are looked at again, at first and at most.
const FEW: usize = 16;

const MANY: usize = 128;

// That number after a look: twice as many where it was in vain, so that blocks of longer counts don't pay for looks.
fn next_few(few: usize, passed: usize) -> usize
    requires { 0 < few }
    ensures { 0 < result }
{
    if 0 < passed {
        return FEW;
    }
    if few < MANY {
        return 2 * few;
    }
    few
}

// Walks the first `n` counts of `s`, one by one: none is 0.
fn walk_few(s: &[u8], n: usize) -> Result<First, Refusal>
    requires { length s.now ≤ MOST_BYTES }
    ensures { Walks s.now n (by_number result) }
{
    let mut at: usize = 0;
    let mut total: u64 = 0;
    for _i in 0..n {
        if s.len() <= at {
            return Err(Refusal::Counts);
        }
        let Some(count) = varint::decode_u32(s, at) else {
            return Err(Refusal::Varint);
        };
        if count.value == 0 {
            return Err(Refusal::Counts);
        }
        total += u64::from(count.value);
        at += count.len;
    }
    Ok(First {
        rows: total,
        len: at,
    })
}

// Walks the counts of `runs` runs: none is 0, and they fill `s`. Gives their sum. Counts of a byte each go in groups; where a group has a
// longer one, some go one by one.
pub fn walk(s: &[u8], runs: usize) -> Result<u64, Refusal>
    requires { length s.now ≤ MOST_BYTES }
    ensures { by_number result ≡ walked runs s.now }
{
    let mut at: usize = 0;
    let mut total: u64 = 0;
    let mut left = runs;
    let mut most = FEW;
    while 0 < left {
        let short = shorts::pass(s, at, left, MOST_ROWS);
        at += short.runs;
        total += short.rows as u64;
        left -= short.runs;
        most = next_few(most, short.runs);
        let few = left.min(most);
        let first = walk_few(&s[at..], few)?;
        total += first.rows;
        at += first.len;
        left -= few;
    }
    if at < s.len() {
        return Err(Refusal::Counts);
    }
    Ok(total)
}

// Tests all that comes before the inner block. Zero rows have no block at all.
pub fn find_head(rows: u64, s: &[u8]) -> Result<Option<RunHead>, Refusal>
    requires { length s.now ≤ MOST_BYTES }
    ensures { by_number result ≡ head_found rows s.now }
{
    let n = s.len();
    if n == 0 {
        if rows == 0 {
            return Ok(None);
        }
        return Err(Refusal::Sum);
    }
    if n < 8 {
        return Err(Refusal::Cut);
    }
    let runs = plain::u32_at(s, 0);
    if MOST_ITEMS < runs {
        return Err(Refusal::Limit);
    }
    if runs == 0 {
        return Err(Refusal::Counts);
    }
    let counts = plain::u32_at(s, 4);
    let end = 8 + counts;
    if n < end {
        return Err(Refusal::Cut);
    }
    let total = walk(&s[8..end], runs)?;
    if total == rows {
        Ok(Some(RunHead { runs, counts }))
    } else {
        Err(Refusal::Sum)
    }
}

// Looks at the count of the run at a place: none where it is missing or wrong.
pub fn rest_of(counts: &[u8], runs: usize, s: Spot) -> Option<Rest>
    ensures { result ≡ rest_of (here runs counts.now s) s.taken }
{
    if runs <= s.run {
        return None;
    }
    let count = varint::decode_u32(counts, s.at)?;
    let rows = count.value as usize;
    if rows == 0 {
        return None;
    }
    if rows < s.taken {
        return None;
    }
    Some(Rest {
        free: rows - s.taken,
        len: count.len,
    })
}

// Up to `left` rows of the run at a place. Where rows are not coded by runs, each is a run of its own.
pub fn take_piece(coded: bool, counts: &[u8], runs: usize, s: Spot, left: usize) -> Option<Piece>
    requires { s.run ≤ MOST_ITEMS }
    ensures { result ≡ piece_in coded runs counts.now s left }
{
    if !coded {
        return Some(Piece {
            rows: 1,
            next: Spot {
                run: s.run + 1,
                ..s
            },
        });
    }
    let rest = rest_of(counts, runs, s)?;
    if left < rest.free {
        return Some(Piece {
            rows: left,
            next: Spot {
                taken: s.taken + left,
                ..s
            },
        });
    }
    Some(Piece {
        rows: rest.free,
        next: Spot {
            run: s.run + 1,
            at: s.at + rest.len,
            taken: 0,
        },
    })
}

// A place, and rows that are left to pass from there.
fn gone_to(run: usize, at: usize, taken: usize, left: usize) -> Gone
    ensures { result ≡ gone (spot run at taken) left }
{
    Gone {
        spot: Spot { run, at, taken },
        left,
    }
}

// Passes over `n` rows from the start of a run on, run by run, of at most `most` runs. The runs are counted down, which keeps the machine code
// from adding up the run and its place as a pair, at twice the cost. None where a count is missing or wrong.
fn pass_runs(counts: &[u8], most: usize, first: usize, from: usize, n: usize) -> Option<Gone>
    requires { first + most ≤ MOST_ITEMS }
    ensures { Goes counts.now (first + most) (spot first from 0) n result }
{
    let stop = first + most;
    let mut few = most;
    let mut at = from;
    let mut left = n;
    while 0 < left {
        if few == 0 {
            return Some(gone_to(stop, at, 0, left));
        }
        let count = varint::decode_u32(counts, at)?;
        let rows = count.value as usize;
        if rows == 0 {
            return None;
        }
        if left < rows {
            return Some(gone_to(stop - few, at, left, 0));
        }
        left -= rows;
        few -= 1;
        at += count.len;
    }
    Some(gone_to(stop - few, at, 0, 0))
}

// Passes over `n` rows from the start of a run on: runs whose counts are a byte each in groups, then some one by one, and so on.
fn pass_on(counts: &[u8], runs: usize, first: usize, from: usize, n: usize) -> Option<Spot>
    requires { runs ≤ MOST_ITEMS }
    ensures { result ≡ reached (steps_from runs counts.now n (spot first from 0)) }
{
    let mut run = first;
    let mut at = from;
    let mut left = n;
    let mut most = FEW;
    while 0 < left {
        if runs <= run {
            return None;
        }
        let short = shorts::pass(counts, at, runs - run, left);
        run += short.runs;
        at += short.runs;
        left -= short.rows;
        most = next_few(most, short.runs);
        let few = most.min(runs - run);
        let gone = pass_runs(counts, few, run, at, left)?;
        if gone.left == 0 {
            return Some(gone.spot);
        }
        run = gone.spot.run;
        at = gone.spot.at;
        left = gone.left;
    }
    Some(Spot { run, at, taken: 0 })
}

// Passes over `n` rows: those of a run that is begun, and then the others. None where a count on the way is missing or wrong.
pub fn advance(counts: &[u8], runs: usize, from: Spot, n: usize) -> Option<Spot>
    requires { runs ≤ MOST_ITEMS }
    ensures { result ≡ reached (steps_from runs counts.now n from) }
{
    if n == 0 {
        return Some(from);
    }
    if from.taken == 0 {
        return pass_on(counts, runs, from.run, from.at, n);
    }
    let rest = rest_of(counts, runs, from)?;
    if n < rest.free {
        return Some(Spot {
            taken: from.taken + n,
            ..from
        });
    }
    pass_on(
        counts,
        runs,
        from.run + 1,
        from.at + rest.len,
        n - rest.free,
    )
}
