// The parts of the block that lent areas hold, each written into lent room at a place.
#![tactic(auto)]

ghost use Rattle.std.specs.Prelude.{◌≡◌, Bool, true, ◌++◌, ◌+◌, ◌*◌, ◌%◌, ◌<◌, ◌≤◌, ◌^◌, ℤ, length, take};
ghost use Rattle.std.proofs.lemmas.List.Edits.{sets};
ghost use Rattle.std.specs.Int.{w32};
ghost use Rattle.std.proofs.Common.{of_z};
ghost use Rattle.encode.specs.Bytes.{little};
ghost use Rattle.encode.specs.declared.Kind.TheVariants.{Blob};
ghost use Rattle.limits.specs.Limits.{MOST_ENTRIES, MOST_ITEMS};
ghost use Rattle.varint.specs.Varint.{spelling};
ghost use Rattle.plain.specs.Plain.{joined};
ghost use Rattle.nullable.specs.Nullable.{bitmap_length};
ghost use Rattle.emit.specs.Parts.{held_plain, held_bitmap, held_inner, held_counts, held_runs, held_keys, held_dictionary};

use encode::Kind;

// ---- the parts of a block, each written at a place; the place behind it is the answer

// A number's four bytes, lowest first.
pub fn put_low4(n: usize, out: &mut [u8], at: usize) -> usize
    requires { at + 4 ≤ length out.old }
    ensures value { result ≡ at + 4 }
    ensures out_after { out.new ≡ sets out.old at (little 4 n) }
{
    area::put(encode::low_first::<4>(n as u64), 4, out, at);
    at + 4
}

// The first `n` ends.
fn write_ends(n: usize, ends: &[u32], out: &mut [u8], at: usize) -> usize
    requires { (n ≤ length ends.now) × (at + length (joined (little 4) (take n ends.now)) ≤ length out.old) }
    ensures value { result ≡ at + length (joined (little 4) (take n ends.now)) }
    ensures out_after { out.new ≡ sets out.old at (joined (little 4) (take n ends.now)) }
{
    let mut to = at;
    for i in 0..n {
        to = put_low4(ends[i] as usize, out, to);
    }
    to
}

// A plain block of `n` items of `len` bytes in all.
fn write_plain(
    kind: Kind,
    n: usize,
    len: usize,
    items: &[u8],
    ends: &[u32],
    out: &mut [u8],
    at: usize,
) -> usize
    requires { (len ≤ length items.now) × ((text : Bool) → kind ≡ Blob text → n ≤ length ends.now) × (at + length (held_plain kind n len items.now ends.now) ≤ length out.old) }
    ensures value { result ≡ at + length (held_plain kind n len items.now ends.now) }
    ensures out_after { out.new ≡ sets out.old at (held_plain kind n len items.now ends.now) }
{
    match kind {
        Kind::Fixed(_) | Kind::Char(_) => {
            area::copy(items, 0, len, out, at);
            at + len
        }
        Kind::Blob(_) => {
            let to = write_ends(n, ends, out, at);
            area::copy(items, 0, len, out, to);
            to + len
        }
    }
}

// The lowest `n` bits of a byte, fewer than eight.
fn low_bits(x: u8, n: usize) -> u8
    requires { n < 8 }
    ensures { result ≡ x % 2 ^ n }
{
    x % (1u8 << n)
}

// A bitmap of `n` bits, the unused ones 0.
fn write_bits(n: usize, flags: &[u8], out: &mut [u8], at: usize)
    requires { (bitmap_length n ≤ length flags.now) × (at + bitmap_length n ≤ length out.old) }
    ensures { out.new ≡ sets out.old at (held_bitmap n flags.now) }
{
    let whole = n / 8;
    let rest = n % 8;
    area::copy(flags, 0, whole, out, at);
    if rest != 0 {
        out[at + whole] = low_bits(flags[whole], rest);
    }
}

// A bitmap of `n` bits and its trailer.
fn write_bitmap(n: usize, flags: &[u8], out: &mut [u8], at: usize) -> usize
    requires { (n ≤ MOST_ITEMS) × (bitmap_length n ≤ length flags.now) × (at + length (held_bitmap n flags.now ++ little 4 (bitmap_length n)) ≤ length out.old) }
    ensures value { result ≡ at + length (held_bitmap n flags.now ++ little 4 (bitmap_length n)) }
    ensures out_after { out.new ≡ sets out.old at (held_bitmap n flags.now ++ little 4 (bitmap_length n)) }
{
    let len = nullable::bitmap_len(n);
    write_bits(n, flags, out, at);
    put_low4(len, out, at + len)
}

// A plain block, or a nullable one; the place behind it.
pub fn write_inner(
    flagged: bool,
    kind: Kind,
    n: usize,
    len: usize,
    items: &[u8],
    ends: &[u32],
    flags: &[u8],
    out: &mut [u8],
    at: usize,
) -> usize
    requires { (n ≤ MOST_ITEMS)
        × (len ≤ length items.now)
        × ((text : Bool) → kind ≡ Blob text → n ≤ length ends.now)
        × (flagged ≡ true → bitmap_length n ≤ length flags.now)
        × (at + length (held_inner flagged kind n len items.now ends.now flags.now) ≤ length out.old) }
    ensures value { result ≡ at + length (held_inner flagged kind n len items.now ends.now flags.now) }
    ensures out_after { out.new ≡ sets out.old at (held_inner flagged kind n len items.now ends.now flags.now) }
{
    let end = write_plain(kind, n, len, items, ends, out, at);
    if flagged {
        return write_bitmap(n, flags, out, end);
    }
    end
}

// The byte length of the first `n` counts.
pub fn counts_len(n: usize, counts: &[u32]) -> usize
    requires { (n ≤ MOST_ITEMS) × (n ≤ length counts.now) }
    ensures { (result ≡ length (held_counts n counts.now)) × (result ≤ 5 * MOST_ITEMS) }
{
    let mut len = 0;
    for i in 0..n {
        len += varint::size(counts[i]);
    }
    len
}

// One count; the place behind it. There is room for it, so the answer that there is none never comes.
pub fn write_count(value: u32, out: &mut [u8], at: usize) -> usize
    requires { at + length (spelling value) ≤ length out.old }
    ensures value { result ≡ at + length (spelling value) }
    ensures out_after { out.new ≡ sets out.old at (spelling value) }
{
    let Some(len) = varint::encode_u32(value, out, at) else {
        return at;
    };
    at + len
}

// The first `n` counts.
fn write_counts(n: usize, counts: &[u32], out: &mut [u8], at: usize) -> usize
    requires { (n ≤ length counts.now) × (at + length (held_counts n counts.now) ≤ length out.old) }
    ensures value { result ≡ at + length (held_counts n counts.now) }
    ensures out_after { out.new ≡ sets out.old at (held_counts n counts.now) }
{
    let mut to = at;
    for i in 0..n {
        to = write_count(counts[i], out, to);
    }
    to
}

// What stands before the inner block of `n` runs, whose counts have `len` bytes.
fn write_runs(n: usize, len: usize, counts: &[u32], out: &mut [u8], at: usize) -> usize
    requires { (n ≤ length counts.now) × (at + length (little 4 n ++ little 4 len ++ held_counts n counts.now) ≤ length out.old) }
    ensures value { result ≡ at + length (little 4 n ++ little 4 len ++ held_counts n counts.now) }
    ensures out_after { out.new ≡ sets out.old at (little 4 n ++ little 4 len ++ held_counts n counts.now) }
{
    let a = put_low4(n, out, at);
    let b = put_low4(len, out, a);
    write_counts(n, counts, out, b)
}

// The bits of a key, of which there are 32.
fn key_bits(key: i32) -> usize
    ensures { result ≡ of_z w32 key }
{
    ((key as i64).cast_unsigned() % 0x1_0000_0000) as usize
}

// The first `n` keys.
fn write_keys(n: usize, keys: &[i32], out: &mut [u8], at: usize) -> usize
    requires { (n ≤ length keys.now) × (at + length (joined (λ (key : ℤ). little 4 (of_z w32 key)) (take n keys.now)) ≤ length out.old) }
    ensures value { result ≡ at + length (joined (λ (key : ℤ). little 4 (of_z w32 key)) (take n keys.now)) }
    ensures out_after { out.new ≡ sets out.old at (joined (λ (key : ℤ). little 4 (of_z w32 key)) (take n keys.now)) }
{
    let mut to = at;
    for i in 0..n {
        to = put_low4(key_bits(keys[i]), out, to);
    }
    to
}

// ---- whole blocks, from the room's start

// A block coded by runs over a plain or a nullable one, where the counts have `size` bytes; no runs, no bytes.
pub fn write_coded(
    flagged: bool,
    kind: Kind,
    n: usize,
    len: usize,
    size: usize,
    items: &[u8],
    ends: &[u32],
    flags: &[u8],
    counts: &[u32],
    out: &mut [u8],
)
    requires { (n ≤ MOST_ITEMS)
        × (len ≤ length items.now)
        × ((text : Bool) → kind ≡ Blob text → n ≤ length ends.now)
        × (flagged ≡ true → bitmap_length n ≤ length flags.now)
        × (n ≤ length counts.now)
        × (size ≡ length (held_counts n counts.now))
        × (length (held_runs n counts.now (held_inner flagged kind n len items.now ends.now flags.now)) ≤ length out.old) }
    ensures { out.new
        ≡ sets out.old 0 (held_runs n counts.now (held_inner flagged kind n len items.now ends.now flags.now)) }
{
    if n == 0 {
        return;
    }
    let at = write_runs(n, size, counts, out, 0);
    write_inner(flagged, kind, n, len, items, ends, flags, out, at);
}

// A dictionary's key block at `at`; the place behind it.
fn write_key_block(
    n: usize,
    size: usize,
    counts: &[u32],
    keys: &[i32],
    out: &mut [u8],
    at: usize,
) -> usize
    requires { (n ≤ length counts.now)
        × (n ≤ length keys.now)
        × (size ≡ length (held_counts n counts.now))
        × (at + length (held_keys n counts.now keys.now) ≤ length out.old) }
    ensures value { result ≡ at + length (held_keys n counts.now keys.now) }
    ensures out_after { out.new ≡ sets out.old at (held_keys n counts.now keys.now) }
{
    if n == 0 {
        return at;
    }
    let behind = write_runs(n, size, counts, out, at);
    write_keys(n, keys, out, behind)
}

// A dictionary of `entries` entries of `len` bytes in all, and of `n` key runs. The keys are written first: the head before them says how long they are.
pub fn write_dictionary(
    kind: Kind,
    entries: usize,
    len: usize,
    n: usize,
    size: usize,
    items: &[u8],
    ends: &[u32],
    counts: &[u32],
    keys: &[i32],
    out: &mut [u8],
)
    requires { (entries ≤ MOST_ENTRIES)
        × (len ≤ length items.now)
        × ((text : Bool) → kind ≡ Blob text → entries ≤ length ends.now)
        × (n ≤ MOST_ITEMS)
        × (n ≤ length counts.now)
        × (n ≤ length keys.now)
        × (size ≡ length (held_counts n counts.now))
        × (length (held_dictionary kind entries len n items.now ends.now counts.now keys.now) ≤ length out.old) }
    ensures { out.new
        ≡ sets out.old 0 (held_dictionary kind entries len n items.now ends.now counts.now keys.now) }
{
    let behind = write_key_block(n, size, counts, keys, out, 12);
    area::put(encode::high_first::<8>((behind - 12) as u64), 8, out, 0);
    area::put(encode::high_first::<4>(entries as u64), 4, out, 8);
    write_plain(kind, entries, len, items, ends, out, behind);
}
