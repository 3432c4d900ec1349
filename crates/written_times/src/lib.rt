// One row written n times, of which it is known that they are within the limits and have room.
#![tactic(auto)]

ghost use Rattle.std.specs.Prelude.{◌≡◌, cond, ◌+◌, ◌-◌, ◌≤◌, ◌<◌, length, set};
ghost use Rattle.limits.specs.Limits.{MOST_ROWS, MOST_BYTES, MOST_COUNT};
ghost use Rattle.plain.specs.Rows.{row_of};
ghost use Rattle.plain.specs.Plain.{item_of};
ghost use Rattle.append.specs.Appending.{lent, room_of, laid};
ghost use Rattle.copies.specs.Copies.{stage, times_more, times};
ghost use Rattle.copies.specs.Stretch.{joined};
ghost use Rattle.written_times.specs.Writing.{HoldsRow, HoldsMore, HoldsAll};

use encode::Kind;
use format::Encoding;
use needs::Counted;

// So many rows more in the last run: its count is written once for all of them.
fn join_rows(c: Counted, counts: &mut [u32], present: bool, rows: usize) -> Counted
    requires { (0 < c.runs) × (c.runs ≤ length counts.old) × (c.last + rows ≤ MOST_COUNT) × (c.rows ≤ MOST_ROWS) × (c.counts ≤ MOST_BYTES) }
    ensures value { result ≡ joined c (cond present 1 0) rows }
    ensures counts_after { counts.new ≡ set counts.old (c.runs - 1) (c.last + rows) }
{
    counts[c.runs - 1] = (c.last + rows) as u32;
    copies::joined(c, present, rows)
}

// One row: its item if that is stored, and its run.
fn write_row(
    c: Counted,
    kind: Kind,
    e: Encoding,
    items: &mut [u8],
    ends: &mut [u32],
    flags: &mut [u8],
    counts: &mut [u32],
    keys: &mut [i32],
    lens: &mut [u8],
    present: bool,
    value: i64,
    item: &[u8],
    stored: bool,
    joins: bool,
    key: i32,
    len: usize,
)
    requires { HoldsRow kind e (row_of kind present value item.now) stored joins c (room_of (lent items.old ends.old flags.old counts.old keys.old lens.old))
        × (len ≡ length (item_of kind (row_of kind present value item.now))) }
    ensures { lent items.new ends.new flags.new counts.new keys.new lens.new
        ≡ laid kind e c (row_of kind present value item.now) stored joins key
        (lent items.old ends.old flags.old counts.old keys.old lens.old) }
{
    append::write_stored(
        kind,
        needs::is_flagged(e),
        needs::stored(c, e),
        c.bytes,
        stored,
        len,
        present,
        value,
        item,
        items,
        ends,
        flags,
        lens,
    );
    if needs::is_coded(e) {
        slots::write_run(needs::is_keyed(e), c.runs, c.last, joins, key, counts, keys);
    }
}

// So many of the rows that are left as one step writes, and the numbers with them.
#[derive(Clone, Copy)]
struct Part {
    rows: usize,
    counted: Counted,
}

// Those that join the last run, or one that doesn't.
fn write_part(
    c: Counted,
    kind: Kind,
    e: Encoding,
    items: &mut [u8],
    ends: &mut [u32],
    flags: &mut [u8],
    counts: &mut [u32],
    keys: &mut [i32],
    lens: &mut [u8],
    present: bool,
    value: i64,
    item: &[u8],
    key: i32,
    len: usize,
    left: usize,
) -> Part
    requires { HoldsMore kind e (row_of kind present value item.now) left c (room_of (lent items.old ends.old flags.old counts.old keys.old lens.old))
        × (len ≡ length (item_of kind (row_of kind present value item.now))) × (0 < left) }
    ensures rows_nonzero { (0 < result.rows) × (result.rows ≤ left) }
    ensures lens_after { stage result.counted (lent items.new ends.new flags.new counts.new keys.new lens.new)
        ≡ times_more kind e (row_of kind present value item.now) key result.rows
        (stage c (lent items.old ends.old flags.old counts.old keys.old lens.old)) }
{
    if copies::joins_again(c, e) {
        let rows = area::least(left, limits::MOST_COUNT - c.last);
        return Part {
            rows,
            counted: join_rows(c, counts, present, rows),
        };
    }
    write_row(
        c,
        kind,
        e,
        items,
        ends,
        flags,
        counts,
        keys,
        lens,
        present,
        value,
        item,
        !needs::is_keyed(e),
        false,
        key,
        len,
    );
    Part {
        rows: 1,
        counted: copies::begun(c, e, present, len),
    }
}

// So many of them, behind the last row.
fn write_more(
    c: Counted,
    kind: Kind,
    e: Encoding,
    items: &mut [u8],
    ends: &mut [u32],
    flags: &mut [u8],
    counts: &mut [u32],
    keys: &mut [i32],
    lens: &mut [u8],
    present: bool,
    value: i64,
    item: &[u8],
    key: i32,
    len: usize,
    more: usize,
) -> Counted
    requires { HoldsMore kind e (row_of kind present value item.now) more c (room_of (lent items.old ends.old flags.old counts.old keys.old lens.old))
        × (len ≡ length (item_of kind (row_of kind present value item.now))) }
    ensures { stage result (lent items.new ends.new flags.new counts.new keys.new lens.new)
        ≡ times_more kind e (row_of kind present value item.now) key more
        (stage c (lent items.old ends.old flags.old counts.old keys.old lens.old)) }
{
    let mut now = c;
    let mut left = more;
    // No `for` is plainer: a step takes as many of the rows that are left as join.
    while 0 < left {
        let part = write_part(
            now, kind, e, items, ends, flags, counts, keys, lens, present, value, item, key, len,
            left,
        );
        now = part.counted;
        left -= part.rows;
    }
    now
}

// All n of them: the first as it was found, the others behind it, with its key.
pub fn write_all(
    c: Counted,
    kind: Kind,
    e: Encoding,
    items: &mut [u8],
    ends: &mut [u32],
    flags: &mut [u8],
    counts: &mut [u32],
    keys: &mut [i32],
    lens: &mut [u8],
    present: bool,
    value: i64,
    item: &[u8],
    stored: bool,
    joins: bool,
    key: i32,
    len: usize,
    n: usize,
) -> Counted
    requires { HoldsAll kind e (row_of kind present value item.now) stored joins n c (room_of (lent items.old ends.old flags.old counts.old keys.old lens.old))
        × (len ≡ length (item_of kind (row_of kind present value item.now))) }
    ensures { stage result (lent items.new ends.new flags.new counts.new keys.new lens.new)
        ≡ times kind e (row_of kind present value item.now) stored joins key n
        (stage c (lent items.old ends.old flags.old counts.old keys.old lens.old)) }
{
    write_row(
        c, kind, e, items, ends, flags, counts, keys, lens, present, value, item, stored, joins,
        key, len,
    );
    let first = copies::counted_in(c, e, present, len, stored, joins);
    write_more(
        first,
        kind,
        e,
        items,
        ends,
        flags,
        counts,
        keys,
        lens,
        present,
        value,
        item,
        key,
        len,
        n - 1,
    )
}
