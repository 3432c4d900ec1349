// The call on two blocks.
ghost use Rattle.capi.specs.Promises.{Compares};

use comparing::Compared;
use descriptor::Descriptor;

// The ranges of rows in which two blocks differ: their first rows and their last.
#[unsafe(no_mangle)]
pub extern "C" fn idz_compare(
    a: Descriptor,
    first: &[u8],
    b: Descriptor,
    second: &[u8],
    firsts: &mut [usize],
    lasts: &mut [usize],
) -> Compared
    ensures { Compares a first.now b second.now firsts.old lasts.old result firsts.new lasts.new }
{
    comparing::compare(a, first, b, second, firsts, lasts)
}
