// Run counts as varints: LEB128 of a u32, as encode_32 and decode_u32_slice of the original.
#![tactic(auto)]

ghost use Rattle.std.specs.Prelude.{◌≡◌, ◌+◌, ◌*◌, ◌<◌, ◌≤◌, length, get_or};
ghost use Rattle.varint.specs.Varint.{count_at};
ghost use Rattle.varint.specs.Promises.{Decodes, Encodes, Sizes};

// A run count, taken apart into its number and its length in bytes.
#[derive(Clone, Copy, Debug, PartialEq, Eq)]
pub struct Count {
    pub value: u32,
    pub len: usize,
}

// The count at a place: at most five bytes, the fifth at most 0x0F, and no last byte of 0 behind another, which would be one more than
// needed. The bytes are looked at one after another with no loop: most counts have one or two.
pub fn decode_u32(s: &[u8], at: usize) -> Option<Count>
    ensures { Decodes s.now at result }
{
    let b0 = u32::from(*s.get(at)?);
    if b0 < 128 {
        return Some(Count { value: b0, len: 1 });
    }
    let b1 = u32::from(*s.get(at + 1)?);
    let v1 = (b0 - 128) + b1 * 128;
    if b1 < 1 {
        return None;
    }
    if b1 < 128 {
        return Some(Count { value: v1, len: 2 });
    }
    longer(s, at, v1 - 16384)
}

// The same where the first two bytes are passed, each of which says that the number goes on. Without their top bits they are
// worth `low`.
fn longer(s: &[u8], at: usize, low: u32) -> Option<Count>
    requires { (at + 1 < length s.now)
        × (128 ≤ get_or s.now at 0)
        × (128 ≤ get_or s.now (at + 1) 0)
        × (low + 16512 ≡ get_or s.now at 0 + 128 * get_or s.now (at + 1) 0)
        × (low < 16384) }
    ensures { result ≡ count_at s.now at }
{
    let b2 = u32::from(*s.get(at + 2)?);
    let v2 = low + b2 * 16384;
    if b2 < 1 {
        return None;
    }
    if b2 < 128 {
        return Some(Count { value: v2, len: 3 });
    }
    let b3 = u32::from(*s.get(at + 3)?);
    let v3 = (v2 - 2097152) + b3 * 2097152;
    if b3 < 1 {
        return None;
    }
    if b3 < 128 {
        return Some(Count { value: v3, len: 4 });
    }
    let b4 = u32::from(*s.get(at + 4)?);
    if b4 < 1 {
        return None;
    }
    if b4 <= 15 {
        let v4 = (v3 - 268435456) + b4 * 268435456;
        return Some(Count { value: v4, len: 5 });
    }
    None
}

// The bytes of a number's shortest spelling.
pub fn size(value: u32) -> usize
    ensures { Sizes value result }
{
    if value < 128 {
        return 1;
    }
    if value < 16384 {
        return 2;
    }
    if value < 2097152 {
        return 3;
    }
    if value < 268435456 {
        return 4;
    }
    5
}

// Writes the shortest spelling of `value` at `at`, and gives its length; or writes nothing where it doesn't fit.
pub fn encode_u32(value: u32, dst: &mut [u8], at: usize) -> Option<usize>
    ensures { Encodes value dst.old at result dst.new }
{
    let n = size(value);
    let room = dst.len().checked_sub(at)?;
    if room < n {
        return None;
    }
    let mut v = value;
    let mut i = at;
    while 128 <= v {
        dst[i] = 128 + (v % 128) as u8;
        v /= 128;
        i += 1;
    }
    dst[i] = v as u8;
    Some(n)
}
