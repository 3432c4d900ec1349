// The next rows, looked at and written area by area from the parts of a block.
#![tactic(auto)]

ghost use Rattle.std.specs.Prelude.{◌≡◌, ◌≤◌, ◌<◌, ◌^◌, length};
ghost use Rattle.std.proofs.lemmas.List.Edits.{sets};
ghost use Rattle.encode.specs.declared.Kind.TheVariants.{Fixed};
ghost use Rattle.source.specs.declared.Marks.TheVariants.{Bits};
ghost use Rattle.source.specs.Rows.{Texts, weighed_by};
ghost use Rattle.part_rows.specs.PartRows.{Serves, MayWrite, steps_by, good_in, size_in, values_given, flags_given, ends_given, bytes_given, weight_given};

use anatomy::Parts;
use encode::Primitive;
use rle::Spot;
use source::{Marks, Weighed};

// Looks at the next `n` rows, by their counts, ends and keys.
pub fn weigh_rows(parts: Parts, from: Spot, block: &[u8], n: usize) -> Option<Weighed>
    requires { Serves parts from block.now n }
    ensures { result ≡ weighed_by (good_in parts block.now) (size_in parts block.now) (steps_by parts from block.now n) }
{
    let source = parts.source;
    let counts = parts.counts;
    let marks = parts.marks;
    let items = parts.items;
    let c = counts.from;
    let d = counts.to;
    let m = marks.from;
    let o = marks.to;
    let i = items.from;
    let j = items.to;
    weigh::weigh(source, &block[c..d], &block[m..o], &block[i..j], from, n)
}

// Writes the values of the next `n` rows of a fixed kind.
pub fn write_values(
    p: Primitive,
    parts: Parts,
    from: Spot,
    block: &[u8],
    n: usize,
    values: &mut [i64],
)
    requires { Serves parts from block.now n × (parts.source.kind ≡ Fixed p) × MayWrite parts from block.now n (length values.old) }
    ensures { values.new ≡ sets values.old 0 (values_given parts from block.now n) }
{
    let source = parts.source;
    let counts = parts.counts;
    let marks = parts.marks;
    let items = parts.items;
    let c = counts.from;
    let d = counts.to;
    let m = marks.from;
    let o = marks.to;
    let i = items.from;
    let j = items.to;
    fixed_rows::put_values(
        p,
        source,
        &block[c..d],
        &block[m..o],
        &block[i..j],
        from,
        n,
        values,
    );
}

// Writes the flags of the next `n` rows: 1 where there are no marks.
pub fn write_flags(parts: Parts, from: Spot, block: &[u8], n: usize, flags: &mut [u8])
    requires { Serves parts from block.now n × MayWrite parts from block.now n (length flags.old) }
    ensures { flags.new ≡ sets flags.old 0 (flags_given parts from block.now n) }
{
    let source = parts.source;
    let by = source.marks;
    match by {
        Marks::Bare => area::fill(flags, 0, n, 1),
        Marks::Bits => write_bits(parts, from, block, n, flags),
        Marks::Keys => write_marks(parts, from, block, n, flags),
    }
}

// The same from a bitmap. Rows that are not coded by runs are a bit each.
fn write_bits(parts: Parts, from: Spot, block: &[u8], n: usize, flags: &mut [u8])
    requires { Serves parts from block.now n × MayWrite parts from block.now n (length flags.old) × (parts.source.marks ≡ Bits) }
    ensures { flags.new ≡ sets flags.old 0 (flags_given parts from block.now n) }
{
    let source = parts.source;
    if source.coded {
        write_marks(parts, from, block, n, flags);
        return;
    }
    let marks = parts.marks;
    let m = marks.from;
    let o = marks.to;
    nullable::flags(&block[m..o], from.run, n, flags);
}

// The same run by run.
fn write_marks(parts: Parts, from: Spot, block: &[u8], n: usize, flags: &mut [u8])
    requires { Serves parts from block.now n × MayWrite parts from block.now n (length flags.old) }
    ensures { flags.new ≡ sets flags.old 0 (flags_given parts from block.now n) }
{
    let source = parts.source;
    let counts = parts.counts;
    let marks = parts.marks;
    let items = parts.items;
    let c = counts.from;
    let d = counts.to;
    let m = marks.from;
    let o = marks.to;
    let i = items.from;
    let j = items.to;
    fixed_rows::put_flags(
        source,
        &block[c..d],
        &block[m..o],
        &block[i..j],
        from,
        n,
        flags,
    );
}

// Writes the flags, the ends and the bytes of the next `n` rows of char, blob or string.
pub fn write_texts(
    parts: Parts,
    from: Spot,
    block: &[u8],
    n: usize,
    flags: &mut [u8],
    ends: &mut [u32],
    bytes: &mut [u8],
)
    requires serves { Serves parts from block.now n × Texts parts.source.kind }
    requires may_write { MayWrite parts from block.now n (length ends.old) × (n ≤ length flags.old) }
    requires n_in_bounds { (weight_given parts from block.now n ≤ length bytes.old) × (weight_given parts from block.now n < 2 ^ 32) }
    ensures flags_after { flags.new ≡ sets flags.old 0 (flags_given parts from block.now n) }
    ensures ends_after { ends.new ≡ sets ends.old 0 (ends_given parts from block.now n) }
    ensures bytes_after { bytes.new ≡ sets bytes.old 0 (bytes_given parts from block.now n) }
{
    let source = parts.source;
    let counts = parts.counts;
    let marks = parts.marks;
    let items = parts.items;
    let c = counts.from;
    let d = counts.to;
    let m = marks.from;
    let o = marks.to;
    let i = items.from;
    let j = items.to;
    byte_rows::put_texts(
        source,
        &block[c..d],
        &block[m..o],
        &block[i..j],
        from,
        n,
        flags,
        ends,
        bytes,
    );
}
