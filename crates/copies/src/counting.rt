// The counted numbers with equal rows behind a row: one, or as many as join its run.
ghost use Rattle.std.specs.Prelude.{◌≡◌, true, false, cond, ◌+◌, ◌≤◌, ◌<◌};
ghost use Rattle.limits.specs.Limits.{MOST_ROWS, MOST_BYTES, MOST_COUNT};
ghost use Rattle.needs.specs.Needs.{coded, keyed, counts_past};
ghost use Rattle.step.specs.Counting.{grown};
ghost use Rattle.copies.specs.Copies.{joins_again};
ghost use Rattle.copies.specs.Stretch.{grown_again, joined as joined_by};

use format::Encoding;
use needs::Counted;

// Whether an equal row behind the last one joins its run.
pub fn joins_again(c: Counted, e: Encoding) -> bool
    ensures { result ≡ joins_again e c }
{
    if needs::is_coded(e) {
        return step::run_open(c);
    }
    false
}

// With `t` rows more in the last run.
pub fn joined(c: Counted, present: bool, t: usize) -> Counted
    requires { (c.last + t ≤ MOST_COUNT) × (c.rows ≤ MOST_ROWS) × (c.counts ≤ MOST_BYTES) }
    ensures { result ≡ joined_by c (cond present 1 0) t }
{
    let grows = varint::size((c.last + t) as u32) - varint::size(c.last as u32);
    Counted {
        rows: c.rows + t,
        runs: c.runs,
        entries: c.entries,
        bytes: c.bytes,
        last: c.last + t,
        null: step::next_null(present),
        counts: c.counts + grows,
    }
}

// With a row that has an item of `len` bytes: whether that is stored, and whether the row joins the last run.
pub fn counted_in(
    c: Counted,
    e: Encoding,
    present: bool,
    len: usize,
    stored: bool,
    joins: bool,
) -> Counted
    requires { (counts_past e c ≡ false) × (c.bytes ≤ MOST_BYTES) × (coded e ≡ true → c.counts ≤ MOST_BYTES)
        × (stored ≡ true → len ≤ MOST_BYTES) × (joins ≡ true → c.last < MOST_COUNT) × (coded e ≡ false → (stored ≡ true) × (joins ≡ false)) }
    ensures { result ≡ grown e c (cond present 1 0) len stored joins }
{
    match e {
        Encoding::Plain | Encoding::Nullable => step::grown_row(c, len),
        Encoding::RunLength | Encoding::RunLengthNullable => {
            step::grown_run(c, c.entries, present, len, stored, joins)
        }
        Encoding::Dictionary => step::grown_run(
            c,
            step::next_entries(c, stored),
            present,
            len,
            stored,
            joins,
        ),
    }
}

// With one equal row more that doesn't join: its item is stored again, but for an entry.
pub fn begun(c: Counted, e: Encoding, present: bool, len: usize) -> Counted
    requires { (joins_again e c ≡ false) × (counts_past e c ≡ false) × (c.bytes ≤ MOST_BYTES) × (coded e ≡ true → c.counts ≤ MOST_BYTES)
        × (keyed e ≡ false → len ≤ MOST_BYTES) }
    ensures { result ≡ grown_again e (cond present 1 0) len c }
{
    counted_in(c, e, present, len, !needs::is_keyed(e), false)
}
