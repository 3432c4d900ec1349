// A block opened and taken apart.
ghost use Rattle.std.specs.Prelude.{◌≡◌};
ghost use Rattle.limits.specs.Refusals.{by_number};
ghost use Rattle.comparing.specs.Taken.{side_of};

use anatomy::Parts;
use descriptor::Descriptor;
use limits::refusal::Refusal;

// The parts of a sound block, or its refusal.
pub fn take_side(d: Descriptor, block: &[u8]) -> Result<Parts, Refusal>
    ensures { by_number result ≡ side_of d block.now }
{
    let reader = descriptor::open_by(d, block)?;
    let Some(column) = format::column_of(d.kind, d.encoding, d.width) else {
        return Err(Refusal::Column);
    };
    Ok(anatomy::take_apart(
        column.kind,
        column.encoding,
        reader.rows,
        reader.len,
        reader.head,
    ))
}
