// An append to runs, over what is counted and the six lent areas, in the parts that `append_items` has for rows.
#![tactic(auto)]

ghost use Rattle.std.specs.Prelude.{◌≡◌, not, pos, length};
ghost use Rattle.plain.specs.Rows.{row_of};
ghost use Rattle.plain.specs.Plain.{item_of};
ghost use Rattle.needs.specs.Tests.{runs_by};
ghost use Rattle.step.specs.Counting.{answered};
ghost use Rattle.append.specs.Appending.{lent, added_to, added};
ghost use Rattle.append.specs.Asking.{Found};
ghost use Rattle.copies.specs.Copies.{added_times};

use encode::Kind;
use format::Encoding;
use limits::refusal::Refusal;
use needs::{Counted, Room};

fn runs_by(nullable: bool) -> Encoding
    ensures { result ≡ runs_by nullable }
{
    if nullable {
        return Encoding::RunLengthNullable;
    }
    Encoding::RunLength
}

// A row that is found: counted in and written.
fn one_run(
    c: Counted,
    kind: Kind,
    nullable: bool,
    items: &mut [u8],
    ends: &mut [u32],
    flags: &mut [u8],
    counts: &mut [u32],
    keys: &mut [i32],
    lens: &mut [u8],
    present: bool,
    value: i64,
    item: &[u8],
    joins: bool,
    len: usize,
) -> Result<Counted, Refusal>
    requires { Found kind (runs_by nullable) c (lent items.old ends.old flags.old counts.old keys.old lens.old) (row_of kind present value item.now) (not joins) joins (pos 0)
        × (len ≡ length (item_of kind (row_of kind present value item.now))) }
    ensures { added_to (answered c result) (lent items.new ends.new flags.new counts.new keys.new lens.new)
        ≡ added kind (runs_by nullable) c (lent items.old ends.old flags.old counts.old keys.old lens.old)
        (row_of kind present value item.now) }
{
    let room = Room {
        items: items.len(),
        ends: ends.len(),
        flags: flags.len(),
        counts: counts.len(),
        keys: keys.len(),
        lens: lens.len(),
    };
    let next = step::run_counted(c, kind, nullable, room, present, len, !joins, joins)?;
    append::write_stored(
        kind, nullable, c.runs, c.bytes, !joins, len, present, value, item, items, ends, flags,
        lens,
    );
    slots::write_run(false, c.runs, c.last, joins, 0, counts, keys);
    Ok(next)
}

// The same n times; more or less than one go together.
fn run_found(
    c: Counted,
    kind: Kind,
    nullable: bool,
    items: &mut [u8],
    ends: &mut [u32],
    flags: &mut [u8],
    counts: &mut [u32],
    keys: &mut [i32],
    lens: &mut [u8],
    present: bool,
    value: i64,
    item: &[u8],
    joins: bool,
    len: usize,
    n: usize,
) -> Result<Counted, Refusal>
    requires { Found kind (runs_by nullable) c (lent items.old ends.old flags.old counts.old keys.old lens.old) (row_of kind present value item.now) (not joins) joins (pos 0)
        × (len ≡ length (item_of kind (row_of kind present value item.now))) }
    ensures { added_to (answered c result) (lent items.new ends.new flags.new counts.new keys.new lens.new)
        ≡ added_times kind (runs_by nullable) c (lent items.old ends.old flags.old counts.old keys.old lens.old)
        n (row_of kind present value item.now) }
{
    if n != 1 {
        let counted = c;
        let of = kind;
        let text = item;
        return append_times::several(
            counted,
            of,
            runs_by(nullable),
            items,
            ends,
            flags,
            counts,
            keys,
            lens,
            present,
            value,
            text,
            !joins,
            joins,
            0,
            len,
            n,
        );
    }
    one_run(
        c, kind, nullable, items, ends, flags, counts, keys, lens, present, value, item, joins, len,
    )
}

// To runs: the row is held to the last one.
pub fn to_runs(
    c: Counted,
    kind: Kind,
    nullable: bool,
    items: &mut [u8],
    ends: &mut [u32],
    flags: &mut [u8],
    counts: &mut [u32],
    keys: &mut [i32],
    lens: &mut [u8],
    present: bool,
    value: i64,
    item: &[u8],
    n: usize,
) -> Result<Counted, Refusal>
    ensures { added_to (answered c result) (lent items.new ends.new flags.new counts.new keys.new lens.new)
        ≡ added_times kind (runs_by nullable) c (lent items.old ends.old flags.old counts.old keys.old lens.old)
        n (row_of kind present value item.now) }
{
    let room = Room {
        items: items.len(),
        ends: ends.len(),
        flags: flags.len(),
        counts: counts.len(),
        keys: keys.len(),
        lens: lens.len(),
    };
    if needs::runs_disagree(c, kind, nullable, room) {
        return Err(Refusal::Disagree);
    }
    let Some(found) = step::run_step(c, kind, items, ends, lens, present, value, item) else {
        return Err(Refusal::Disagree);
    };
    if !slots::row_fits(kind, present, value, item) {
        return Err(Refusal::Item);
    }
    let len = slots::item_len(kind, present, value, item);
    run_found(
        c,
        kind,
        nullable,
        items,
        ends,
        flags,
        counts,
        keys,
        lens,
        present,
        value,
        item,
        found.joins,
        len,
        n,
    )
}
