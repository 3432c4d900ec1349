// An append to rows, of which each is a stored item, over what is counted and the six lent areas; it asks for no encoding and tests the few numbers
// that it has. A single row has a way of its own, as most rows come one by one. The other way is told of copies: what a function is lent
// lies in memory, and the single row's numbers would lie there too.
#![tactic(auto)]

ghost use Rattle.std.specs.Prelude.{◌≡◌, true, false, pos, length};
ghost use Rattle.plain.specs.Rows.{row_of};
ghost use Rattle.plain.specs.Plain.{item_of};
ghost use Rattle.needs.specs.Tests.{rows_by};
ghost use Rattle.step.specs.Counting.{answered};
ghost use Rattle.append.specs.Appending.{lent, added_to, added};
ghost use Rattle.append.specs.Asking.{Found};
ghost use Rattle.copies.specs.Copies.{added_times};

use encode::Kind;
use format::Encoding;
use limits::refusal::Refusal;
use needs::{Counted, Room};

fn rows_by(nullable: bool) -> Encoding
    ensures { result ≡ rows_by nullable }
{
    if nullable {
        return Encoding::Nullable;
    }
    Encoding::Plain
}

// A row that is found: counted in and written.
fn one_row(
    c: Counted,
    kind: Kind,
    nullable: bool,
    items: &mut [u8],
    ends: &mut [u32],
    flags: &mut [u8],
    counts: &[u32],
    keys: &[i32],
    lens: &mut [u8],
    present: bool,
    value: i64,
    item: &[u8],
    len: usize,
) -> Result<Counted, Refusal>
    requires { Found kind (rows_by nullable) c (lent items.old ends.old flags.old counts.now keys.now lens.old) (row_of kind present value item.now) true false (pos 0)
        × (len ≡ length (item_of kind (row_of kind present value item.now))) }
    ensures { added_to (answered c result) (lent items.new ends.new flags.new counts.now keys.now lens.new)
        ≡ added kind (rows_by nullable) c (lent items.old ends.old flags.old counts.now keys.now lens.old)
        (row_of kind present value item.now) }
{
    let room = Room {
        items: items.len(),
        ends: ends.len(),
        flags: flags.len(),
        counts: counts.len(),
        keys: keys.len(),
        lens: lens.len(),
    };
    let next = step::row_counted(c, kind, nullable, room, len)?;
    slots::write_item(
        kind,
        nullable,
        c.rows,
        c.bytes,
        c.bytes + len,
        present,
        value,
        item,
        items,
        ends,
        flags,
        lens,
    );
    Ok(next)
}

// The same n times; more or less than one go together.
fn row_found(
    c: Counted,
    kind: Kind,
    nullable: bool,
    items: &mut [u8],
    ends: &mut [u32],
    flags: &mut [u8],
    counts: &mut [u32],
    keys: &mut [i32],
    lens: &mut [u8],
    present: bool,
    value: i64,
    item: &[u8],
    len: usize,
    n: usize,
) -> Result<Counted, Refusal>
    requires { Found kind (rows_by nullable) c (lent items.old ends.old flags.old counts.old keys.old lens.old) (row_of kind present value item.now) true false (pos 0)
        × (len ≡ length (item_of kind (row_of kind present value item.now))) }
    ensures { added_to (answered c result) (lent items.new ends.new flags.new counts.new keys.new lens.new)
        ≡ added_times kind (rows_by nullable) c (lent items.old ends.old flags.old counts.old keys.old lens.old)
        n (row_of kind present value item.now) }
{
    if n != 1 {
        let counted = c;
        let of = kind;
        let text = item;
        return append_times::several(
            counted,
            of,
            rows_by(nullable),
            items,
            ends,
            flags,
            counts,
            keys,
            lens,
            present,
            value,
            text,
            true,
            false,
            0,
            len,
            n,
        );
    }
    one_row(
        c, kind, nullable, items, ends, flags, counts, keys, lens, present, value, item, len,
    )
}

// To rows: each is stored.
pub fn to_rows(
    c: Counted,
    kind: Kind,
    nullable: bool,
    items: &mut [u8],
    ends: &mut [u32],
    flags: &mut [u8],
    counts: &mut [u32],
    keys: &mut [i32],
    lens: &mut [u8],
    present: bool,
    value: i64,
    item: &[u8],
    n: usize,
) -> Result<Counted, Refusal>
    ensures { added_to (answered c result) (lent items.new ends.new flags.new counts.new keys.new lens.new)
        ≡ added_times kind (rows_by nullable) c (lent items.old ends.old flags.old counts.old keys.old lens.old)
        n (row_of kind present value item.now) }
{
    let room = Room {
        items: items.len(),
        ends: ends.len(),
        flags: flags.len(),
        counts: counts.len(),
        keys: keys.len(),
        lens: lens.len(),
    };
    if needs::rows_disagree(c, kind, nullable, room) {
        return Err(Refusal::Disagree);
    }
    if !slots::row_fits(kind, present, value, item) {
        return Err(Refusal::Item);
    }
    let len = slots::item_len(kind, present, value, item);
    row_found(
        c, kind, nullable, items, ends, flags, counts, keys, lens, present, value, item, len, n,
    )
}
