// What an append answers and writes, over what is counted and the six lent areas.
#![tactic(auto)]

ghost use Rattle.std.specs.Prelude.{◌≡◌, true, cond, ◌&&◌, ◌+◌, length};
ghost use Rattle.area.specs.Area.{over};
ghost use Rattle.plain.specs.Rows.{row_of, bytes_in};
ghost use Rattle.plain.specs.Plain.{item_of};
ghost use Rattle.nullable.specs.Nullable.{presence};
ghost use Rattle.slots.specs.Slots.{ends_with, lens_with, flags_with};
ghost use Rattle.append.specs.Asking.{Stores};

use encode::Kind;

// The slots of a row that is stored, which are there: item `i` at `at`.
pub fn write_stored(
    kind: Kind,
    nullable: bool,
    i: usize,
    at: usize,
    stored: bool,
    len: usize,
    present: bool,
    value: i64,
    item: &[u8],
    items: &mut [u8],
    ends: &mut [u32],
    flags: &mut [u8],
    lens: &mut [u8],
)
    requires { stored ≡ true → Stores kind nullable i at (row_of kind present value item.now) len items.old ends.old flags.old lens.old }
    ensures after { items.new ≡ cond stored (over items.old at (item_of kind (row_of kind present value item.now))) items.old }
    ensures ends_after { ends.new
        ≡ cond stored (ends_with kind i (at + length (item_of kind (row_of kind present value item.now))) ends.old) ends.old }
    ensures flags_after { flags.new
        ≡ cond (stored && nullable) (flags_with i (presence (row_of kind present value item.now)) flags.old) flags.old }
    ensures lens_after { lens.new
        ≡ cond stored (lens_with kind i (length (bytes_in (row_of kind present value item.now))) lens.old) lens.old }
{
    if !stored {
        return;
    }
    slots::write_item(
        kind,
        nullable,
        i,
        at,
        at + len,
        present,
        value,
        item,
        items,
        ends,
        flags,
        lens,
    );
}
