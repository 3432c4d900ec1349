// An append to keys, over what is counted and the six lent areas, in the parts that `append_items` has for rows.
#![tactic(auto)]

ghost use Rattle.std.specs.Prelude.{◌≡◌, length};
ghost use Rattle.plain.specs.Rows.{row_of};
ghost use Rattle.plain.specs.Plain.{item_of};
ghost use Rattle.format.specs.declared.Encoding.TheVariants.{Dictionary};
ghost use Rattle.step.specs.Counting.{answered};
ghost use Rattle.append.specs.Appending.{lent, added_to, added};
ghost use Rattle.append.specs.Asking.{Found};
ghost use Rattle.copies.specs.Copies.{added_times};

use encode::Kind;
use format::Encoding;
use limits::refusal::Refusal;
use needs::{Counted, Room};

// A row that is found: counted in and written.
fn one_key(
    c: Counted,
    kind: Kind,
    items: &mut [u8],
    ends: &mut [u32],
    flags: &mut [u8],
    counts: &mut [u32],
    keys: &mut [i32],
    lens: &mut [u8],
    present: bool,
    value: i64,
    item: &[u8],
    stored: bool,
    joins: bool,
    key: i32,
    len: usize,
) -> Result<Counted, Refusal>
    requires { Found kind Dictionary c (lent items.old ends.old flags.old counts.old keys.old lens.old) (row_of kind present value item.now) stored joins key
        × (len ≡ length (item_of kind (row_of kind present value item.now))) }
    ensures { added_to (answered c result) (lent items.new ends.new flags.new counts.new keys.new lens.new)
        ≡ added kind Dictionary c (lent items.old ends.old flags.old counts.old keys.old lens.old)
        (row_of kind present value item.now) }
{
    let room = Room {
        items: items.len(),
        ends: ends.len(),
        flags: flags.len(),
        counts: counts.len(),
        keys: keys.len(),
        lens: lens.len(),
    };
    let next = step::key_counted(c, kind, room, present, len, stored, joins)?;
    append::write_stored(
        kind, false, c.entries, c.bytes, stored, len, present, value, item, items, ends, flags,
        lens,
    );
    slots::write_run(true, c.runs, c.last, joins, key, counts, keys);
    Ok(next)
}

// The same n times; more or less than one go together.
fn key_found(
    c: Counted,
    kind: Kind,
    items: &mut [u8],
    ends: &mut [u32],
    flags: &mut [u8],
    counts: &mut [u32],
    keys: &mut [i32],
    lens: &mut [u8],
    present: bool,
    value: i64,
    item: &[u8],
    stored: bool,
    joins: bool,
    key: i32,
    len: usize,
    n: usize,
) -> Result<Counted, Refusal>
    requires { Found kind Dictionary c (lent items.old ends.old flags.old counts.old keys.old lens.old) (row_of kind present value item.now) stored joins key
        × (len ≡ length (item_of kind (row_of kind present value item.now))) }
    ensures { added_to (answered c result) (lent items.new ends.new flags.new counts.new keys.new lens.new)
        ≡ added_times kind Dictionary c (lent items.old ends.old flags.old counts.old keys.old lens.old)
        n (row_of kind present value item.now) }
{
    if n != 1 {
        let counted = c;
        let text = item;
        return append_times::several(
            counted,
            kind,
            Encoding::Dictionary,
            items,
            ends,
            flags,
            counts,
            keys,
            lens,
            present,
            value,
            text,
            stored,
            joins,
            key,
            len,
            n,
        );
    }
    one_key(
        c, kind, items, ends, flags, counts, keys, lens, present, value, item, stored, joins, key,
        len,
    )
}

// To keys: the row is looked up among the entries.
pub fn to_keys(
    c: Counted,
    kind: Kind,
    items: &mut [u8],
    ends: &mut [u32],
    flags: &mut [u8],
    counts: &mut [u32],
    keys: &mut [i32],
    lens: &mut [u8],
    present: bool,
    value: i64,
    item: &[u8],
    n: usize,
) -> Result<Counted, Refusal>
    ensures { added_to (answered c result) (lent items.new ends.new flags.new counts.new keys.new lens.new)
        ≡ added_times kind Dictionary c (lent items.old ends.old flags.old counts.old keys.old lens.old)
        n (row_of kind present value item.now) }
{
    let room = Room {
        items: items.len(),
        ends: ends.len(),
        flags: flags.len(),
        counts: counts.len(),
        keys: keys.len(),
        lens: lens.len(),
    };
    if needs::keys_disagree(c, kind, room) {
        return Err(Refusal::Disagree);
    }
    let Some(found) = step::key_step(c, kind, items, ends, lens, keys, present, value, item) else {
        return Err(Refusal::Disagree);
    };
    if !slots::row_fits(kind, present, value, item) {
        return Err(Refusal::Item);
    }
    let len = slots::item_len(kind, present, value, item);
    key_found(
        c,
        kind,
        items,
        ends,
        flags,
        counts,
        keys,
        lens,
        present,
        value,
        item,
        found.stored,
        found.joins,
        found.key,
        len,
        n,
    )
}
