// Plain columns of a fixed kind walked in step, item by item: each row is one, and none is null.
ghost use Rattle.std.specs.Prelude.{◌≡◌, true, ◌*◌, ◌≤◌, length};
ghost use Rattle.limits.specs.Limits.{MOST_ITEMS, is_width};
ghost use Rattle.encode.specs.declared.Kind.TheVariants.{Fixed};
ghost use Rattle.encode.specs.declared.Primitive.TheVariants.{Bool as Boolean};
ghost use Rattle.plain.specs.Plain.{least_bytes};
ghost use Rattle.matching.specs.Matching.{equal_at, word_at};
ghost use Rattle.in_step.specs.Differences.{differences};
ghost use Rattle.in_step.specs.Walking.{items_walked, Tested};
ghost use Rattle.ranges.specs.Recording.{Recorded};

use encode::{Primitive, Shape};
use ranges::Mark;

pub fn walk_items(
    p: Primitive,
    a: &[u8],
    b: &[u8],
    n: usize,
    firsts: &mut [usize],
    lasts: &mut [usize],
) -> Mark
    requires { (n ≤ MOST_ITEMS) × (least_bytes (Fixed p) n ≤ length a.now) × (least_bytes (Fixed p) n ≤ length b.now) }
    ensures { Recorded (differences (items_walked p a.now n) (items_walked p b.now n))
        result firsts.old lasts.old firsts.new lasts.new }
{
    let shape = p.shape();
    match shape {
        Shape::Bool => walk_bools(a, b, n, firsts, lasts),
        Shape::Low2 => walk_words::<2>(a, b, n, firsts, lasts),
        Shape::Low4 | Shape::High4 => walk_words::<4>(a, b, n, firsts, lasts),
        Shape::Low8 | Shape::High8 => walk_words::<8>(a, b, n, firsts, lasts),
    }
}

// The walk of bytes, and that of items of `W` bytes. A loop for each width asks for no kind.
fn walk_bools(a: &[u8], b: &[u8], n: usize, firsts: &mut [usize], lasts: &mut [usize]) -> Mark
    requires { (n ≤ length a.now) × (n ≤ length b.now) }
    ensures { Tested (λ i same. same ≡ equal_at Boolean a.now b.now i) firsts.old lasts.old firsts.new lasts.new result n }
{
    let mut mark = ranges::start();
    for i in 0..n {
        let same = matching::same_bool(a, b, i);
        mark = mark.add_one(!same, firsts, lasts);
    }
    mark
}

fn walk_words<const W: usize>(
    a: &[u8],
    b: &[u8],
    n: usize,
    firsts: &mut [usize],
    lasts: &mut [usize],
) -> Mark
    requires { (is_width W ≡ true) × (n ≤ MOST_ITEMS) × (n * W ≤ length a.now) × (n * W ≤ length b.now) }
    ensures { Tested (λ i same. same ≡ word_at W a.now b.now i) firsts.old lasts.old firsts.new lasts.new result n }
{
    let mut mark = ranges::start();
    for i in 0..n {
        let same = matching::same_word::<W>(a, b, i);
        mark = mark.add_one(!same, firsts, lasts);
    }
    mark
}
