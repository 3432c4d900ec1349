// Rows that are an item each, not coded by runs: nothing of a fixed kind or of char can be wrong there, so they are written with no look.
#![tactic(auto)]

ghost use Rattle.std.specs.Prelude.{◌≡◌, false, ◌≤◌, ◌<◌, ◌^◌, length};
ghost use Rattle.std.proofs.lemmas.List.Edits.{sets};
ghost use Rattle.encode.specs.declared.Kind.TheVariants.{Fixed};
ghost use Rattle.part_rows.specs.PartRows.{Serves, values_given, flags_given, ends_given, bytes_given, weight_given};
ghost use Rattle.item_rows.specs.Alone.{Alone};

use anatomy::Parts;
use encode::{Kind, Primitive};
use rle::Spot;
use source::{Marks, Source};

// Writes the values and the flags of the next `n` rows of a fixed kind that are not coded by runs: all items, and then 0 over
// those that are null.
pub fn write_items(
    p: Primitive,
    parts: Parts,
    from: Spot,
    block: &[u8],
    n: usize,
    values: &mut [i64],
    flags: &mut [u8],
)
    requires { Serves parts from block.now n × (parts.source.kind ≡ Fixed p) × (parts.source.coded ≡ false) × (n ≤ length values.old) × (n ≤ length flags.old) }
    ensures values_after { values.new ≡ sets values.old 0 (values_given parts from block.now n) }
    ensures flags_after { flags.new ≡ sets flags.old 0 (flags_given parts from block.now n) }
{
    let items = parts.items;
    let i = items.from;
    let j = items.to;
    plain::values(p, &block[i..j], from.run, n, values);
    part_rows::write_flags(parts, from, block, n, flags);
    let source = parts.source;
    let by = source.marks;
    if let Marks::Bare = by {
        return;
    }
    nullable::blank(flags, n, values);
}

// The width of char items that are a row each, with no marks; or 0.
pub fn alone_width(source: Source) -> u8
    ensures { 0 < result → Alone source result }
{
    if source.coded {
        return 0;
    }
    let by = source.marks;
    let Marks::Bare = by else {
        return 0;
    };
    let kind = source.kind;
    let Kind::Char(w) = kind else {
        return 0;
    };
    w
}

// The bytes that the next `n` rows of char take at most.
pub fn most_bytes(w: u8, parts: Parts, from: Spot, block: &[u8], n: usize) -> usize
    requires { Serves parts from block.now n × Alone parts.source w }
    ensures { weight_given parts from block.now n ≤ result }
{
    let items = parts.items;
    let i = items.from;
    let j = items.to;
    char_rows::most(w, &block[i..j], from.run, n)
}

// Writes the bytes and the ends of the next `n` rows of char.
pub fn write_chars(
    w: u8,
    parts: Parts,
    from: Spot,
    block: &[u8],
    n: usize,
    ends: &mut [u32],
    bytes: &mut [u8],
) -> usize
    requires { Serves parts from block.now n × Alone parts.source w × (n ≤ length ends.old) × (weight_given parts from block.now n ≤ length bytes.old) }
    ensures value { (result ≡ weight_given parts from block.now n) × (result < 2 ^ 32) }
    ensures ends_after { ends.new ≡ sets ends.old 0 (ends_given parts from block.now n) }
    ensures bytes_after { bytes.new ≡ sets bytes.old 0 (bytes_given parts from block.now n) }
{
    let items = parts.items;
    let i = items.from;
    let j = items.to;
    char_rows::put(w, &block[i..j], from.run, n, ends, bytes)
}
