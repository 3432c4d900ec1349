// The ranges of rows in which two sound blocks differ: how many there are, and as many of them written as the lists have slots for.
ghost use Rattle.std.specs.Prelude.{◌≡◌, map, length};
ghost use Rattle.anatomy.specs.Parts.{part_in, marks_in, items_in, AllWithin};
ghost use Rattle.ranges.specs.Recording.{put_down, Recorded};
ghost use Rattle.in_step.specs.Differences.{differences};
ghost use Rattle.in_step.specs.Walking.{rows_walked, Walks};
ghost use Rattle.comparing.specs.Comparing.{ranges_between};
ghost use Rattle.comparing.specs.Taken.{Opens};

use anatomy::Parts;
use descriptor::Descriptor;
use ranges::Mark;

// Rows that both have are compared; those behind them, which one has alone, differ.
pub fn mark_ranges(
    a: Descriptor,
    p: Parts,
    first: &[u8],
    b: Descriptor,
    q: Parts,
    second: &[u8],
    firsts: &mut [usize],
    lasts: &mut [usize],
) -> usize
    requires { Opens a first.now p × Opens b second.now q × (a.kind ≡ b.kind) × (a.width ≡ b.width) }
    ensures value { result ≡ length (ranges_between a first.now b second.now) }
    ensures firsts_after { firsts.new ≡ put_down firsts.old (map (λ r. r.first) (ranges_between a first.now b second.now)) }
    ensures lasts_after { lasts.new ≡ put_down lasts.old (map (λ r. r.last) (ranges_between a first.now b second.now)) }
{
    let n = area::least(a.rows, b.rows);
    let mark = walk_blocks(p, first, q, second, n, firsts, lasts);
    let alone = (a.rows - n) + (b.rows - n);
    let marked = mark.add(true, alone, firsts, lasts);
    let ended = marked.end(firsts, lasts);
    ended.count
}

// The first `n` rows of both, from their parts.
fn walk_blocks(
    p: Parts,
    first: &[u8],
    q: Parts,
    second: &[u8],
    n: usize,
    firsts: &mut [usize],
    lasts: &mut [usize],
) -> Mark
    requires { AllWithin p (length first.now) × AllWithin q (length second.now)
        × Walks p.source (part_in p.counts first.now) (marks_in p first.now) (items_in p first.now) n
        × Walks q.source (part_in q.counts second.now) (marks_in q second.now) (items_in q second.now) n
        × (p.source.kind ≡ q.source.kind) }
    ensures { Recorded
        (differences
        (rows_walked p.source (part_in p.counts first.now) (marks_in p first.now) (items_in p first.now) n)
        (rows_walked q.source (part_in q.counts second.now) (marks_in q second.now) (items_in q second.now) n))
        result firsts.old lasts.old firsts.new lasts.new }
{
    let s = p.source;
    let counts = p.counts;
    let marks = p.marks;
    let items = p.items;
    let c = counts.from;
    let d = counts.to;
    let m = marks.from;
    let k = marks.to;
    let i = items.from;
    let j = items.to;
    let t = q.source;
    let counts2 = q.counts;
    let marks2 = q.marks;
    let items2 = q.items;
    let c2 = counts2.from;
    let d2 = counts2.to;
    let m2 = marks2.from;
    let k2 = marks2.to;
    let i2 = items2.from;
    let j2 = items2.to;
    in_step::walk(
        s,
        &first[c..d],
        &first[m..k],
        &first[i..j],
        t,
        &second[c2..d2],
        &second[m2..k2],
        &second[i2..j2],
        n,
        firsts,
        lasts,
    )
}
