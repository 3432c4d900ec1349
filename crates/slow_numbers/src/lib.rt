// Numbers and run counts read byte by byte: the second engine's own way, which shares no function with the first.
#![tactic(auto)]

ghost use Rattle.std.specs.Prelude.{◌≡◌, ◌+◌, ◌≤◌, ◌<◌, ◌^◌, length, take, drop};
ghost use Rattle.encode.specs.Bytes.{number_of};
ghost use Rattle.varint.specs.Varint.{count_at, counted, in_32_bits};
ghost use Rattle.slow_numbers.specs.Numbers.{order_by, place_by, idle_after, ahead};

use varint::Count;

fn wide(x: u8) -> u64
    ensures { (result ≡ x) × (result < 256) }
{
    x as u64
}

// The number of `w` bytes from `at` on, the highest first or the lowest.
pub fn number_at(s: &[u8], at: usize, w: usize, high: bool) -> u64
    requires { (w ≤ 8) × (at + w ≤ length s.now) }
    ensures { (result ≡ number_of (order_by high) (take w (drop at s.now))) × (result < 256 ^ w) }
{
    let mut n: u64 = 0;
    for i in 0..w {
        let from = place(at, w, high, i);
        n = n * 256 + wide(s[from]);
    }
    n
}

// Where the byte stands that is taken after `i` others: the highest of those that are left comes next.
fn place(at: usize, w: usize, high: bool, i: usize) -> usize
    requires { (i < w) × (at + w < 2 ^ 64) }
    ensures { result ≡ place_by high at w i }
{
    if high {
        return at + i;
    }
    at + (w - 1 - i)
}

// The count at a place: seven bits a byte, the lowest first, and in all but the last byte the top bit set; at most five bytes, no byte too
// many, below 2^32.
pub fn count_at(s: &[u8], at: usize) -> Option<Count>
    requires { at ≤ length s.now }
    ensures { result ≡ count_at s.now at }
{
    let mut value: u64 = 0;
    let mut worth: u64 = 1;
    for i in 0..5 {
        if s.len() - at <= i {
            return None;
        }
        let b = wide(s[at + i]);
        if b < 128 {
            return last_byte(value, worth, i, b);
        }
        value += (b - 128) * worth;
        worth *= 128;
    }
    None
}

// Whether a last byte is one too many: it is worth nothing, and others stand before it.
fn idle(i: usize, b: u64) -> bool
    ensures { result ≡ idle_after i b }
{
    if i == 0 {
        return false;
    }
    b == 0
}

// A count whose last byte comes after `i` others, which are worth `value` together.
fn last_byte(value: u64, worth: u64, i: usize, b: u64) -> Option<Count>
    requires { (value < worth) × (worth ≤ 2 ^ 28) × (i < 5) × (b < 128) }
    ensures { result ≡ in_32_bits (ahead value worth i (counted b 1)) }
{
    if idle(i, b) {
        return None;
    }
    let whole = value + b * worth;
    if 0xffff_ffff < whole {
        return None;
    }
    Some(Count {
        value: whole as u32,
        len: i + 1,
    })
}
