// The counted numbers with all n rows counted in, or that they pass a limit.
ghost use Rattle.std.specs.Prelude.{◌≡◌, true, false, cond, not, ◌&&◌, ◌-◌, ◌*◌, ◌≤◌, ◌<◌, ltb};
ghost use Rattle.limits.specs.Limits.{MOST_BYTES, MOST_COUNT};
ghost use Rattle.needs.specs.Needs.{coded, keyed, past_limits, record_wrong};
ghost use Rattle.step.specs.Counting.{grown, answered};
ghost use Rattle.copies.specs.Copies.{stores_again};
ghost use Rattle.copies.specs.Stretch.{grown_times, limited};

use crate::counting::{begun, counted_in, joined, joins_again};
use encode::Kind;
use format::Encoding;
use limits::refusal::Refusal;
use needs::Counted;

// ---- rows: as many items more

fn rows_counted(
    given: Counted,
    first: Counted,
    kind: Kind,
    e: Encoding,
    len: usize,
    more: usize,
) -> Result<Counted, Refusal>
    requires { (coded e ≡ false) × (past_limits kind e first ≡ false) × (len ≤ MOST_BYTES) }
    ensures { answered given result ≡ limited kind e given (grown_times e 0 len more first) }
{
    if limits::MOST_ITEMS - first.rows < more {
        return Err(Refusal::Limit);
    }
    let bytes = more * len;
    if limits::MOST_BYTES < bytes {
        return Err(Refusal::Limit);
    }
    let all = Counted {
        rows: first.rows + more,
        runs: first.runs,
        entries: first.entries,
        bytes: first.bytes + bytes,
        last: first.last,
        null: first.null,
        counts: first.counts,
    };
    if needs::is_past(all, kind, e) {
        return Err(Refusal::Limit);
    }
    Ok(all)
}

// ---- runs: stretch by stretch

// So many of the rows that are left as one step counts in, and the numbers with them.
#[derive(Clone, Copy)]
struct Stretch {
    rows: usize,
    counted: Counted,
}

// Those that join the last run, or one that begins the next.
fn next_stretch(
    c: Counted,
    kind: Kind,
    e: Encoding,
    present: bool,
    len: usize,
    left: usize,
) -> Stretch
    requires { (coded e ≡ true) × (past_limits kind e c ≡ false) × (0 < c.runs) × (stores_again e c ≡ true → len ≤ MOST_BYTES) × (0 < left) }
    ensures { (0 < result.rows) × (result.rows ≤ left) × (result.counted ≡ grown_times e (cond present 1 0) len result.rows c) × (0 < result.counted.runs)
        × (result.counted.bytes ≤ 2 * MOST_BYTES) × (result.counted.counts ≤ 2 * MOST_BYTES) }
{
    if joins_again(c, e) {
        let rows = area::least(left, limits::MOST_COUNT - c.last);
        return Stretch {
            rows,
            counted: joined(c, present, rows),
        };
    }
    Stretch {
        rows: 1,
        counted: begun(c, e, present, len),
    }
}

// Whether the next row's item would be stored again, and is longer than any block.
fn too_long_again(c: Counted, e: Encoding, len: usize) -> bool
    ensures { result ≡ (stores_again e c && ltb MOST_BYTES len) }
{
    if needs::is_keyed(e) {
        return false;
    }
    step::too_long(!joins_again(c, e), len)
}

fn runs_counted(
    given: Counted,
    first: Counted,
    kind: Kind,
    e: Encoding,
    present: bool,
    len: usize,
    more: usize,
) -> Result<Counted, Refusal>
    requires { (coded e ≡ true) × (past_limits kind e first ≡ false) × (0 < first.runs) }
    ensures { answered given result ≡ limited kind e given (grown_times e (cond present 1 0) len more first) }
{
    let mut now = first;
    let mut left = more;
    // No `for` is plainer: a step takes as many of the rows that are left as join.
    while 0 < left {
        if too_long_again(now, e, len) {
            return Err(Refusal::Limit);
        }
        let next = next_stretch(now, kind, e, present, len, left);
        if needs::is_past(next.counted, kind, e) {
            return Err(Refusal::Limit);
        }
        now = next.counted;
        left -= next.rows;
    }
    Ok(now)
}

// ---- all n rows: the first as an append finds it, the others behind it

pub fn all_counted(
    c: Counted,
    kind: Kind,
    e: Encoding,
    present: bool,
    len: usize,
    stored: bool,
    joins: bool,
    n: usize,
) -> Result<Counted, Refusal>
    requires { (record_wrong kind e c ≡ false) × (0 < n) × (joins ≡ true → (0 < c.runs) × (c.last < MOST_COUNT)) × (keyed e ≡ false → stored ≡ not joins)
        × (coded e ≡ false → (stored ≡ true) × (joins ≡ false)) }
    ensures { answered c result ≡ limited kind e c (grown_times e (cond present 1 0) len (n - 1) (grown e c (cond present 1 0) len stored joins)) }
{
    if step::too_long(stored, len) {
        return Err(Refusal::Limit);
    }
    let first = counted_in(c, e, present, len, stored, joins);
    if needs::is_past(first, kind, e) {
        return Err(Refusal::Limit);
    }
    if needs::is_coded(e) {
        return runs_counted(c, first, kind, e, present, len, n - 1);
    }
    rows_counted(c, first, kind, e, len, n - 1)
}
