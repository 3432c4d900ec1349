// The call on a damaged block.
ghost use Rattle.capi.specs.Promises.{Salvages};

use descriptor::Descriptor;
use salvaging::Salvaged;

// A dictionary block of which some keys name no entry: the block of its rows with those of such keys as nulls, and the ranges of these rows.
#[unsafe(no_mangle)]
pub extern "C" fn idz_salvage(
    d: Descriptor,
    block: &[u8],
    firsts: &mut [usize],
    lasts: &mut [usize],
    out: &mut [u8],
) -> Salvaged
    ensures { Salvages d block.now firsts.old lasts.old out.old
        result firsts.new lasts.new out.new }
{
    salvaging::salvage(d, block, firsts, lasts, out)
}
