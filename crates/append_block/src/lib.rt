// One row appended n times to a block of any encoding, over what is counted and the six lent areas: the encoding is asked for once.
#![tactic(auto)]

ghost use Rattle.std.specs.Prelude.{◌≡◌};
ghost use Rattle.plain.specs.Rows.{row_of};
ghost use Rattle.step.specs.Counting.{answered};
ghost use Rattle.append.specs.Appending.{lent, added_to};
ghost use Rattle.copies.specs.Copies.{added_times};

use encode::Kind;
use format::Encoding;
use limits::refusal::Refusal;
use needs::Counted;

// Appends one row n times to a block of an encoding: whether it is present, its integer for a fixed kind, its bytes for char, blob and string.
pub fn to_block(
    c: Counted,
    kind: Kind,
    encoding: Encoding,
    items: &mut [u8],
    ends: &mut [u32],
    flags: &mut [u8],
    counts: &mut [u32],
    keys: &mut [i32],
    lens: &mut [u8],
    present: bool,
    value: i64,
    item: &[u8],
    n: usize,
) -> Result<Counted, Refusal>
    ensures { added_to (answered c result) (lent items.new ends.new flags.new counts.new keys.new lens.new)
        ≡ added_times kind encoding c (lent items.old ends.old flags.old counts.old keys.old lens.old)
        n (row_of kind present value item.now) }
{
    match encoding {
        Encoding::Plain | Encoding::Nullable => append_items::to_rows(
            c,
            kind,
            needs::is_flagged(encoding),
            items,
            ends,
            flags,
            counts,
            keys,
            lens,
            present,
            value,
            item,
            n,
        ),
        Encoding::RunLength | Encoding::RunLengthNullable => append_runs::to_runs(
            c,
            kind,
            needs::is_flagged(encoding),
            items,
            ends,
            flags,
            counts,
            keys,
            lens,
            present,
            value,
            item,
            n,
        ),
        Encoding::Dictionary => append_keys::to_keys(
            c, kind, items, ends, flags, counts, keys, lens, present, value, item, n,
        ),
    }
}
