// One row written in the form of a read of one row: the second engine's own way, which shares no function with the first.
#![tactic(auto)]

ghost use Rattle.std.specs.Prelude.{◌≡◌, ◌+◌, ◌≤◌, length, take, drop};
ghost use Rattle.limits.specs.Limits.{MOST_ITEMS, MOST_BYTES};
ghost use Rattle.plain.specs.Rows.{null};
ghost use Rattle.plain.specs.Plain.{plain_number};
ghost use Rattle.dict.specs.Dictionary.{entry_row};
ghost use Rattle.fill.specs.Areas.{areas};
ghost use Rattle.slow_plain.specs.Items.{slot_of};
ghost use Rattle.slow_answer.specs.Slow.{answer_of, shown_in};
ghost use Rattle.slow_giving.specs.Giving.{Gives, GivesInt, GivesBytes};

use encode::Kind;
use limits::refusal::Refusal;

// Each answers how many bytes of char, blob or string it wrote.

// An integer and its flag.
fn give_value(value: i64, flag: u8, values: &mut [i64], flags: &mut [u8]) -> Result<usize, Refusal>
    ensures { GivesInt value flag values.old flags.old result values.new flags.new }
{
    if flags.len() == 0 {
        return Err(Refusal::Room);
    }
    if values.len() == 0 {
        return Err(Refusal::Room);
    }
    values[0] = value;
    flags[0] = flag;
    Ok(0)
}

// Bytes, their end and their flag.
fn give_bytes(
    s: &[u8],
    from: usize,
    len: usize,
    flag: u8,
    flags: &mut [u8],
    ends: &mut [u32],
    bytes: &mut [u8],
) -> Result<usize, Refusal>
    requires { (from + len ≤ length s.now) × (len ≤ MOST_BYTES) }
    ensures { GivesBytes (take len (drop from s.now)) flag flags.old ends.old bytes.old result
        flags.new ends.new bytes.new }
{
    if flags.len() == 0 {
        return Err(Refusal::Room);
    }
    if ends.len() == 0 {
        return Err(Refusal::Room);
    }
    if bytes.len() < len {
        return Err(Refusal::Room);
    }
    // a loop: `copy_from_slice` would have the archive call `memmove`, and of the C library it calls `memset` alone
    for i in 0..len {
        bytes[i] = s[from + i];
    }
    ends[0] = len as u32;
    flags[0] = flag;
    Ok(len)
}

// What item `item` of a plain block of `n` shows; null is none of them.
pub fn give(
    kind: Kind,
    s: &[u8],
    n: usize,
    item: Option<usize>,
    values: &mut [i64],
    flags: &mut [u8],
    ends: &mut [u32],
    bytes: &mut [u8],
) -> Result<usize, Refusal>
    requires { (n ≤ MOST_ITEMS) × (length s.now ≤ MOST_BYTES) × (plain_number kind n s.now ≡ 0) × (slot_of item ≤ n) }
    ensures value { answer_of result ≡ (shown_in kind (entry_row kind n s.now (slot_of item)) (areas values.old flags.old ends.old bytes.old)).answer }
    ensures bytes_after { areas values.new flags.new ends.new bytes.new
        ≡ (shown_in kind (entry_row kind n s.now (slot_of item)) (areas values.old flags.old ends.old bytes.old)).areas }
{
    let Some(i) = item else {
        return give_null(kind, s, values, flags, ends, bytes);
    };
    match kind {
        Kind::Fixed(p) => give_value(slow_plain::value_at(p, s, i), 1, values, flags),
        Kind::Char(w) => {
            let piece = slow_plain::char_at(w as usize, n, s, i);
            give_bytes(s, piece.from, piece.len, 1, flags, ends, bytes)
        }
        Kind::Blob(_) => {
            let piece = slow_plain::blob_at(n, s, i);
            give_bytes(s, piece.from, piece.len, 1, flags, ends, bytes)
        }
    }
}

fn give_null(
    kind: Kind,
    s: &[u8],
    values: &mut [i64],
    flags: &mut [u8],
    ends: &mut [u32],
    bytes: &mut [u8],
) -> Result<usize, Refusal>
    ensures { Gives result (areas values.new flags.new ends.new bytes.new)
        (shown_in kind null (areas values.old flags.old ends.old bytes.old)) }
{
    match kind {
        Kind::Fixed(_) => give_value(0, 0, values, flags),
        Kind::Char(_) | Kind::Blob(_) => give_bytes(s, 0, 0, 0, flags, ends, bytes),
    }
}
