// Text looked at byte by byte, by the table of the Unicode Standard: the second engine's own way, which shares no function with the first.
#![tactic(auto)]

ghost use Rattle.std.specs.Prelude.{◌≡◌, ◌+◌, ◌≤◌, length, take, drop, Some};
ghost use Rattle.utf8.specs.Utf8.{forms, start_in, next as next_due, is_text};
ghost use Rattle.slow_text.specs.Due.{due_by, due_of, IsFew};

// What is due behind the bytes so far: so many bytes, of which the next lies between two numbers and the others are any that go on a
// sequence. No `Due` stands for what nothing can mend.
#[derive(Clone, Copy)]
struct Due {
    left: u8,
    low: u8,
    high: u8,
}

fn asks(left: u8, low: u8, high: u8) -> Option<Due>
    requires { left ≤ 3 }
    ensures { (due_of result ≡ due_by left low high) × IsFew result }
{
    Some(Due { left, low, high })
}

// A sequence begins with a byte: the table's rows, one after another.
fn begun(b: u8) -> Option<Due>
    ensures { (due_of result ≡ start_in forms b) × IsFew result }
{
    if b <= 0x7f {
        return asks(0, 0, 0);
    }
    if b < 0xc2 {
        return None;
    }
    if b <= 0xdf {
        return asks(1, 0x80, 0xbf);
    }
    if b == 0xe0 {
        return asks(2, 0xa0, 0xbf);
    }
    if b <= 0xec {
        return asks(2, 0x80, 0xbf);
    }
    if b == 0xed {
        return asks(2, 0x80, 0x9f);
    }
    if b <= 0xef {
        return asks(2, 0x80, 0xbf);
    }
    if b == 0xf0 {
        return asks(3, 0x90, 0xbf);
    }
    if b <= 0xf3 {
        return asks(3, 0x80, 0xbf);
    }
    if b == 0xf4 {
        return asks(3, 0x80, 0x8f);
    }
    None
}

// One byte more.
fn next(d: Due, b: u8) -> Option<Due>
    requires { d.left ≤ 3 }
    ensures { (due_of result ≡ next_due (due_of (Some d)) b) × IsFew result }
{
    if d.left == 0 {
        return begun(b);
    }
    if b < d.low {
        return None;
    }
    if d.high < b {
        return None;
    }
    asks(d.left - 1, 0x80, 0xbf)
}

// Whether the `n` bytes from `from` on are text.
pub fn is_text(s: &[u8], from: usize, n: usize) -> bool
    requires { from + n ≤ length s.now }
    ensures { result ≡ is_text (take n (drop from s.now)) }
{
    let mut d = Due {
        left: 0,
        low: 0,
        high: 0,
    };
    for i in 0..n {
        let Some(e) = next(d, s[from + i]) else {
            return false;
        };
        d = e;
    }
    d.left == 0
}
