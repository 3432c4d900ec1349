// A dictionary block that meets all rules but 15, taken apart.
#![tactic(auto)]

ghost use Rattle.std.specs.Prelude.{◌≡◌};
ghost use Rattle.limits.specs.Refusals.{by_number};
ghost use Rattle.damaged.specs.Taken.{taken_of};

use anatomy::Parts;
use descriptor::Descriptor;
use format::Encoding;
use limits::refusal::Refusal;

// The parts of such a block, or the refusal.
pub fn take_damaged(d: Descriptor, block: &[u8]) -> Result<Parts, Refusal>
    ensures { by_number result ≡ taken_of d block.now }
{
    if d.zero != 0 {
        return Err(Refusal::Column);
    }
    let Some(column) = format::column_of(d.kind, d.encoding, d.width) else {
        return Err(Refusal::Column);
    };
    let Encoding::Dictionary = column.encoding else {
        return Err(Refusal::Column);
    };
    if limits::MOST_BYTES < block.len() {
        return Err(Refusal::Limit);
    }
    if limits::MOST_ROWS < d.rows {
        return Err(Refusal::Limit);
    }
    let head = format::check_but_keys(column.kind, d.rows, block)?;
    Ok(anatomy::take_apart(column.kind, Encoding::Dictionary, d.rows, block.len(), head))
}
