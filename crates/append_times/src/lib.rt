// A row that is found, appended n times, over what is counted and the six lent areas: all n rows or none.
#![tactic(auto)]

ghost use Rattle.std.specs.Prelude.{◌≡◌, true, false, cond, not, ◌-◌, ◌<◌, length};
ghost use Rattle.limits.specs.Limits.{MOST_COUNT};
ghost use Rattle.plain.specs.Rows.{row_of};
ghost use Rattle.plain.specs.Plain.{item_of};
ghost use Rattle.needs.specs.Needs.{coded, keyed, record_wrong};
ghost use Rattle.step.specs.Counting.{answered, grown, counted_by};
ghost use Rattle.append.specs.Appending.{lent, added_to};
ghost use Rattle.append.specs.Asking.{Found};
ghost use Rattle.copies.specs.Copies.{added_times};
ghost use Rattle.copies.specs.Stretch.{grown_times};

use encode::Kind;
use format::Encoding;
use limits::refusal::Refusal;
use needs::{Counted, Room};

// The numbers with all n rows counted in, or that they pass a limit or have no room.
fn all_taken(
    c: Counted,
    kind: Kind,
    e: Encoding,
    room: Room,
    present: bool,
    len: usize,
    stored: bool,
    joins: bool,
    n: usize,
) -> Result<Counted, Refusal>
    requires { (record_wrong kind e c ≡ false) × (0 < n) × (joins ≡ true → (0 < c.runs) × (c.last < MOST_COUNT)) × (keyed e ≡ false → stored ≡ not joins)
        × (coded e ≡ false → (stored ≡ true) × (joins ≡ false)) }
    ensures { answered c result ≡ counted_by kind e c room (grown_times e (cond present 1 0) len (n - 1) (grown e c (cond present 1 0) len stored joins)) }
{
    let all = copies::all_counted(c, kind, e, present, len, stored, joins, n)?;
    if needs::is_short(all, kind, e, room) {
        return Err(Refusal::Room);
    }
    Ok(all)
}

// Nothing is written before it is found that all n rows are taken.
pub fn several(
    c: Counted,
    kind: Kind,
    e: Encoding,
    items: &mut [u8],
    ends: &mut [u32],
    flags: &mut [u8],
    counts: &mut [u32],
    keys: &mut [i32],
    lens: &mut [u8],
    present: bool,
    value: i64,
    item: &[u8],
    stored: bool,
    joins: bool,
    key: i32,
    len: usize,
    n: usize,
) -> Result<Counted, Refusal>
    requires { Found kind e c (lent items.old ends.old flags.old counts.old keys.old lens.old) (row_of kind present value item.now) stored joins key
        × (len ≡ length (item_of kind (row_of kind present value item.now))) }
    ensures { added_to (answered c result) (lent items.new ends.new flags.new counts.new keys.new lens.new)
        ≡ added_times kind e c (lent items.old ends.old flags.old counts.old keys.old lens.old)
        n (row_of kind present value item.now) }
{
    if n == 0 {
        return Ok(c);
    }
    let room = Room {
        items: items.len(),
        ends: ends.len(),
        flags: flags.len(),
        counts: counts.len(),
        keys: keys.len(),
        lens: lens.len(),
    };
    all_taken(c, kind, e, room, present, len, stored, joins, n)?;
    Ok(written_times::write_all(
        c, kind, e, items, ends, flags, counts, keys, lens, present, value, item, stored, joins,
        key, len, n,
    ))
}
