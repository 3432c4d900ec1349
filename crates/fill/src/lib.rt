// Rows written into lent areas from the parts of a block, by any kind and encoding: nothing is written unless all of it is.
#![tactic(auto)]

mod fixed;
mod texts;

ghost use Rattle.std.specs.Prelude.{◌≡◌};
ghost use Rattle.limits.specs.Refusals.{by_number};
ghost use Rattle.part_rows.specs.PartRows.{Serves};
ghost use Rattle.fill.specs.Areas.{areas};
ghost use Rattle.fill.specs.Filling.{filling};

use anatomy::Parts;
use encode::Kind;
use limits::refusal::Refusal;
use rle::Spot;

// What writing some rows answers: the bytes written of char, blob and string, and the place after the rows.
#[derive(Clone, Copy)]
pub struct Filled {
    pub bytes: usize,
    pub next: Spot,
}

// Writes the next `n` rows into the areas of their kind.
pub fn write_rows(
    parts: Parts,
    from: Spot,
    block: &[u8],
    n: usize,
    values: &mut [i64],
    flags: &mut [u8],
    ends: &mut [u32],
    bytes: &mut [u8],
) -> Result<Filled, Refusal>
    requires { Serves parts from block.now n }
    ensures value { by_number result ≡ (filling parts from block.now n (areas values.old flags.old ends.old bytes.old)).answer }
    ensures values_after { values.new ≡ (filling parts from block.now n (areas values.old flags.old ends.old bytes.old)).areas.values }
    ensures flags_after { flags.new ≡ (filling parts from block.now n (areas values.old flags.old ends.old bytes.old)).areas.flags }
    ensures ends_after { ends.new ≡ (filling parts from block.now n (areas values.old flags.old ends.old bytes.old)).areas.ends }
    ensures bytes_after { bytes.new ≡ (filling parts from block.now n (areas values.old flags.old ends.old bytes.old)).areas.bytes }
{
    let source = parts.source;
    let kind = source.kind;
    match kind {
        Kind::Fixed(p) => {
            if source.coded {
                return fixed::give_values(p, parts, from, block, n, values, flags);
            }
            fixed::give_items(p, parts, from, block, n, values, flags)
        }
        Kind::Char(_) | Kind::Blob(_) => texts::give_texts(
            parts, from, block, n, flags, ends, bytes,
        ),
    }
}
