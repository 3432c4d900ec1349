// Zero bytes counted: the flags of rows that are null.
#![tactic(auto)]

ghost use Rattle.std.specs.Prelude.{◌≡◌, ◌+◌, ◌≤◌, ◌<◌, length, take, drop};
ghost use Rattle.zeros.specs.Zeros.{zero_in, zeros_in};

// The bytes that are counted in a byte before it is added up: a count of them fits, and they are whole groups of what the machine
// compares at once.
const FEW: usize = 192;

// 1 for a zero byte, else 0.
fn one_if_zero(x: u8) -> u8
    ensures { (result ≡ zero_in x) × (result ≤ 1) }
{
    if x == 0 { 1 } else { 0 }
}

// The zeros among `n` bytes from `from` on, which are few enough to be counted in a byte.
fn few_zeros(s: &[u8], from: usize, n: usize) -> u8
    requires { (from + n ≤ length s.now) × (n ≤ 192) }
    ensures { result ≡ zeros_in (take n (drop from s.now)) }
{
    let mut count = 0;
    for i in 0..n {
        count += one_if_zero(s[from + i]);
    }
    count
}

// The zeros among the first `n` bytes, a few at a time: the loop strides by as many as a byte counts.
pub fn zeros(s: &[u8], n: usize) -> usize
    requires { n ≤ length s.now }
    ensures { (result ≡ zeros_in (take n s.now)) × (result ≤ n) }
{
    let mut total = 0;
    let mut at = 0;
    while at < n {
        let some = FEW.min(n - at);
        total += usize::from(few_zeros(s, at, some));
        at += some;
    }
    total
}
