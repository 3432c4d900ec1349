// The fields of a stored item: where a blob item starts and ends, and whether a field is wrong.
ghost use Rattle.std.specs.Prelude.{◌≡◌, [], ◌≤◌, ◌<◌, ◌^◌, length};
ghost use Rattle.encode.specs.Kinds.{blob};
ghost use Rattle.lookup.specs.Held.{held, item_end, item_start, field_wrong};
ghost use Rattle.lookup.specs.Asking.{FieldsThere};

use encode::Kind;

// A slot as a size. Its bound comes with it, so that no caller proves the cast again.
fn wide(x: u32) -> usize
    ensures { (result ≡ x) × (result < 2 ^ 32) }
{
    x as usize
}

// Where blob item `i` ends in the items, and where it starts.
pub fn end_in(ends: &[u32], i: usize) -> usize
    requires { i < length ends.now }
    ensures { (result ≡ item_end ends.now i) × (result < 2 ^ 32) }
{
    wide(ends[i])
}

pub fn start_in(ends: &[u32], i: usize) -> usize
    requires { i ≤ length ends.now }
    ensures { (result ≡ item_start ends.now i) × (result < 2 ^ 32) }
{
    if i == 0 {
        return 0;
    }
    end_in(ends, i - 1)
}

// Whether the end of blob item `i` of `n`, which starts at `from`, is wrong, where the items have `len` bytes.
pub fn blob_wrong(n: usize, len: usize, ends: &[u32], i: usize, from: usize) -> bool
    requires { (i < n) × (n ≤ length ends.now) × (from ≡ item_start ends.now i) }
    ensures { result ≡ field_wrong blob n len (held [] ends.now []) i }
{
    let end = end_in(ends, i);
    if end < from {
        return true;
    }
    if len < end {
        return true;
    }
    if i + 1 == n {
        return end != len;
    }
    false
}

// Whether a field of item `i` of `n` is wrong, where the items have `len` bytes.
pub fn field_wrong(kind: Kind, n: usize, len: usize, ends: &[u32], lens: &[u8], i: usize) -> bool
    requires { (i < n) × FieldsThere kind n (held [] ends.now lens.now) }
    ensures { result ≡ field_wrong kind n len (held [] ends.now lens.now) i }
{
    match kind {
        Kind::Fixed(_) => false,
        Kind::Char(w) => w < lens[i],
        Kind::Blob(_) => blob_wrong(n, len, ends, i, start_in(ends, i)),
    }
}
