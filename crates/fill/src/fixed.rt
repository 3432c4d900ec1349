// Rows of a fixed kind: their values and flags.
ghost use Rattle.std.specs.Prelude.{◌≡◌, true, false};
ghost use Rattle.encode.specs.declared.Kind.TheVariants.{Fixed};
ghost use Rattle.limits.specs.Refusals.{by_number};
ghost use Rattle.part_rows.specs.PartRows.{Serves};
ghost use Rattle.fill.specs.Filling.{fixed_filling};

use crate::Filled;
use anatomy::Parts;
use encode::Primitive;
use limits::refusal::Refusal;
use rle::Spot;

// Rows of a fixed kind that are not coded by runs: there is nothing to look at, and no loop asks for the kind.
pub fn give_items(
    p: Primitive,
    parts: Parts,
    from: Spot,
    block: &[u8],
    n: usize,
    values: &mut [i64],
    flags: &mut [u8],
) -> Result<Filled, Refusal>
    requires { Serves parts from block.now n × (parts.source.kind ≡ Fixed p) × (parts.source.coded ≡ false) }
    ensures value { by_number result ≡ (fixed_filling parts from block.now n values.old flags.old).answer }
    ensures values_after { values.new ≡ (fixed_filling parts from block.now n values.old flags.old).areas.values }
    ensures flags_after { flags.new ≡ (fixed_filling parts from block.now n values.old flags.old).areas.flags }
{
    if values.len() < n {
        return Err(Refusal::Room);
    }
    if flags.len() < n {
        return Err(Refusal::Room);
    }
    item_rows::write_items(p, parts, from, block, n, values, flags);
    Ok(Filled {
        bytes: 0,
        next: from,
    })
}

// Rows of a fixed kind that are coded by runs.
pub fn give_values(
    p: Primitive,
    parts: Parts,
    from: Spot,
    block: &[u8],
    n: usize,
    values: &mut [i64],
    flags: &mut [u8],
) -> Result<Filled, Refusal>
    requires { Serves parts from block.now n × (parts.source.kind ≡ Fixed p) × (parts.source.coded ≡ true) }
    ensures value { by_number result ≡ (fixed_filling parts from block.now n values.old flags.old).answer }
    ensures values_after { values.new ≡ (fixed_filling parts from block.now n values.old flags.old).areas.values }
    ensures flags_after { flags.new ≡ (fixed_filling parts from block.now n values.old flags.old).areas.flags }
{
    let looked = part_rows::weigh_rows(parts, from, block, n);
    let Some(weighed) = looked else {
        return Err(Refusal::Disagree);
    };
    if values.len() < n {
        return Err(Refusal::Room);
    }
    if flags.len() < n {
        return Err(Refusal::Room);
    }
    part_rows::write_values(p, parts, from, block, n, values);
    part_rows::write_flags(parts, from, block, n, flags);
    Ok(Filled {
        bytes: 0,
        next: weighed.next,
    })
}
