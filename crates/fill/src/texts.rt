// Rows of char, blob and string: their flags, ends and bytes.
ghost use Rattle.std.specs.Prelude.{◌≡◌, true, ◌<◌, length};
ghost use Rattle.limits.specs.Refusals.{by_number};
ghost use Rattle.part_rows.specs.PartRows.{Serves};
ghost use Rattle.fill.specs.Areas.{is_bytes};
ghost use Rattle.fill.specs.Filling.{Roomy, next_by, text_filling};

use crate::Filled;
use anatomy::Parts;
use limits::refusal::Refusal;
use rle::Spot;

// The width of char items that are a row each, with no marks, if the room holds what the next `n` rows take at most; or 0.
fn roomy_width(
    parts: Parts,
    from: Spot,
    block: &[u8],
    n: usize,
    flags: usize,
    ends: usize,
    bytes: usize,
) -> u8
    requires { Serves parts from block.now n }
    ensures { 0 < result → Roomy parts from block.now n result flags ends bytes }
{
    let w = item_rows::alone_width(parts.source);
    if w == 0 {
        return 0;
    }
    if flags < n {
        return 0;
    }
    if ends < n {
        return 0;
    }
    if bytes < item_rows::most_bytes(w, parts, from, block, n) {
        return 0;
    }
    w
}

// Rows of char that are an item each, with no marks: no field of theirs can be wrong, and where there is room they are not
// weighed.
fn give_chars(
    w: u8,
    parts: Parts,
    from: Spot,
    block: &[u8],
    n: usize,
    flags: &mut [u8],
    ends: &mut [u32],
    bytes: &mut [u8],
) -> Result<Filled, Refusal>
    requires { Serves parts from block.now n × Roomy parts from block.now n w (length flags.old) (length ends.old) (length bytes.old) }
    ensures value { by_number result ≡ (text_filling parts from block.now n flags.old ends.old bytes.old).answer }
    ensures flags_after { flags.new ≡ (text_filling parts from block.now n flags.old ends.old bytes.old).areas.flags }
    ensures ends_after { ends.new ≡ (text_filling parts from block.now n flags.old ends.old bytes.old).areas.ends }
    ensures bytes_after { bytes.new ≡ (text_filling parts from block.now n flags.old ends.old bytes.old).areas.bytes }
{
    let total = item_rows::write_chars(w, parts, from, block, n, ends, bytes);
    area::fill(flags, 0, n, 1);
    Ok(Filled {
        bytes: total,
        next: from,
    })
}

// Rows of char, blob and string, weighed before they are written.
fn give_weighed(
    parts: Parts,
    from: Spot,
    block: &[u8],
    n: usize,
    flags: &mut [u8],
    ends: &mut [u32],
    bytes: &mut [u8],
) -> Result<Filled, Refusal>
    requires { Serves parts from block.now n × (is_bytes parts.source.kind ≡ true) }
    ensures value { by_number result ≡ (text_filling parts from block.now n flags.old ends.old bytes.old).answer }
    ensures flags_after { flags.new ≡ (text_filling parts from block.now n flags.old ends.old bytes.old).areas.flags }
    ensures ends_after { ends.new ≡ (text_filling parts from block.now n flags.old ends.old bytes.old).areas.ends }
    ensures bytes_after { bytes.new ≡ (text_filling parts from block.now n flags.old ends.old bytes.old).areas.bytes }
{
    let looked = part_rows::weigh_rows(parts, from, block, n);
    let Some(weighed) = looked else {
        return Err(Refusal::Disagree);
    };
    let total = weighed.bytes;
    if flags.len() < n {
        return Err(Refusal::Room);
    }
    if ends.len() < n {
        return Err(Refusal::Room);
    }
    if bytes.len() < total {
        return Err(Refusal::Room);
    }
    if limits::MOST_GIVEN < total {
        return Err(Refusal::Room);
    }
    part_rows::write_texts(parts, from, block, n, flags, ends, bytes);
    let source = parts.source;
    Ok(Filled {
        bytes: total,
        next: next_by(source.coded, from, weighed.next),
    })
}

// Rows that are not coded by runs leave the place in the runs alone.
fn next_by(coded: bool, from: Spot, next: Spot) -> Spot
    ensures { result ≡ next_by coded from next }
{
    if coded {
        return next;
    }
    from
}

// Rows of char, blob and string.
pub fn give_texts(
    parts: Parts,
    from: Spot,
    block: &[u8],
    n: usize,
    flags: &mut [u8],
    ends: &mut [u32],
    bytes: &mut [u8],
) -> Result<Filled, Refusal>
    requires { Serves parts from block.now n × (is_bytes parts.source.kind ≡ true) }
    ensures value { by_number result ≡ (text_filling parts from block.now n flags.old ends.old bytes.old).answer }
    ensures flags_after { flags.new ≡ (text_filling parts from block.now n flags.old ends.old bytes.old).areas.flags }
    ensures ends_after { ends.new ≡ (text_filling parts from block.now n flags.old ends.old bytes.old).areas.ends }
    ensures bytes_after { bytes.new ≡ (text_filling parts from block.now n flags.old ends.old bytes.old).areas.bytes }
{
    let w = roomy_width(parts, from, block, n, flags.len(), ends.len(), bytes.len());
    if w == 0 {
        return give_weighed(parts, from, block, n, flags, ends, bytes);
    }
    give_chars(w, parts, from, block, n, flags, ends, bytes)
}
