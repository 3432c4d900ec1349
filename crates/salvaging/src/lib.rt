// A dictionary block of which some keys name no entry, given back: its rows with those of such keys as nulls, in the block that our builder
// gives for them, and the ranges of the rows that changed.
#![tactic(auto)]

ghost use Rattle.std.specs.Prelude.{◌≡◌};
ghost use Rattle.salvaging.specs.Salvaging.{salvage as salvage_of, salvaged};
ghost use Rattle.damaged.specs.Taken.{Takes};
ghost use Rattle.salvaging.specs.Mending.{Mendable, mended};

use anatomy::Parts;
use descriptor::Descriptor;
use encode::Kind;
use limits::refusal;

// What salvaging answers: the bytes of the block that was written and how many ranges were, or a refusal.
#[repr(C)]
#[derive(Clone, Copy)]
pub struct Salvaged {
    pub number: u8,
    pub len: usize,
    pub ranges: usize,
}

fn refused(number: u8) -> Salvaged
    ensures { result ≡ salvaged number 0 0 }
{
    Salvaged {
        number,
        len: 0,
        ranges: 0,
    }
}

// Writes the block from the start of `out` on. A range's first row and its last stand at the same place of the two lists.
pub fn salvage(
    d: Descriptor,
    block: &[u8],
    firsts: &mut [usize],
    lasts: &mut [usize],
    out: &mut [u8],
) -> Salvaged
    ensures value { result ≡ (salvage_of d block.now firsts.old lasts.old out.old).answer }
    ensures firsts_after { firsts.new ≡ (salvage_of d block.now firsts.old lasts.old out.old).firsts }
    ensures lasts_after { lasts.new ≡ (salvage_of d block.now firsts.old lasts.old out.old).lasts }
    ensures out_after { out.new ≡ (salvage_of d block.now firsts.old lasts.old out.old).out }
{
    match damaged::take_damaged(d, block) {
        Ok(p) => salvage_whole(d, p, block, firsts, lasts, out),
        Err(refusal) => refused(u8::from(refusal)),
    }
}

// A block taken apart.
fn salvage_whole(
    d: Descriptor,
    p: Parts,
    block: &[u8],
    firsts: &mut [usize],
    lasts: &mut [usize],
    out: &mut [u8],
) -> Salvaged
    requires { Takes d block.now p }
    ensures value { result ≡ (salvage_of d block.now firsts.old lasts.old out.old).answer }
    ensures firsts_after { firsts.new ≡ (salvage_of d block.now firsts.old lasts.old out.old).firsts }
    ensures lasts_after { lasts.new ≡ (salvage_of d block.now firsts.old lasts.old out.old).lasts }
    ensures out_after { out.new ≡ (salvage_of d block.now firsts.old lasts.old out.old).out }
{
    let source = p.source;
    let kind = source.kind;
    let counts = p.counts;
    let keys = p.marks;
    let items = p.items;
    let c = counts.from;
    let e = counts.to;
    let k = keys.from;
    let l = keys.to;
    let i = items.from;
    let j = items.to;
    salvage_parts(
        kind,
        source.items,
        source.runs,
        &block[c..e],
        &block[k..l],
        &block[i..j],
        d.rows,
        firsts,
        lasts,
        out,
    )
}

// The parts: everything is counted before anything is written.
fn salvage_parts(
    kind: Kind,
    entries: usize,
    runs: usize,
    counts: &[u8],
    keys: &[u8],
    items: &[u8],
    n: usize,
    firsts: &mut [usize],
    lasts: &mut [usize],
    out: &mut [u8],
) -> Salvaged
    requires { Mendable kind entries runs counts.now keys.now items.now n }
    ensures value { result ≡ (mended kind entries runs counts.now keys.now items.now n firsts.old lasts.old out.old).answer }
    ensures firsts_after { firsts.new ≡ (mended kind entries runs counts.now keys.now items.now n firsts.old lasts.old out.old).firsts }
    ensures lasts_after { lasts.new ≡ (mended kind entries runs counts.now keys.now items.now n firsts.old lasts.old out.old).lasts }
    ensures out_after { out.new ≡ (mended kind entries runs counts.now keys.now items.now n firsts.old lasts.old out.old).out }
{
    let mut used = [0u8; 8192];
    let sizes = repaired_sizes::sizes_of(kind, entries, runs, counts, keys, items, n, &mut used);
    let len = sizes.block_len(kind);
    if out.len() < len {
        return refused(refusal::ROOM);
    }
    let mut none = [0usize; 0];
    let mut nowhere = [0usize; 0];
    let ranges = repaired::mark_lost(entries, runs, counts, keys, n, &mut none, &mut nowhere);
    if firsts.len() < ranges {
        return refused(refusal::ROOM);
    }
    if lasts.len() < ranges {
        return refused(refusal::ROOM);
    }
    repaired_block::write_block(
        kind, entries, runs, counts, keys, items, n, &used, sizes, out,
    );
    repaired::mark_lost(entries, runs, counts, keys, n, firsts, lasts);
    Salvaged {
        number: 0,
        len,
        ranges,
    }
}
