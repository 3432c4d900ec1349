// What the programs share that run the commands of standard input: taking the input apart, and writing numbers. Nothing is asked of the
// input: where it has no byte, 0 is taken.
#![tactic(auto)]

ghost use Rattle.std.specs.Prelude.{◌≡◌, ◌+◌, ◌%◌, ◌^◌, take, drop, nat_le, length, slice_index};
ghost use Rattle.std.specs.Int.{w32, w64, cast_unsigned};
ghost use Rattle.encode.specs.Bytes.{low_first, number_of};
ghost use Rattle.script.specs.Script.{byte_after, eight_after, taken_at};

// A number of the input, and the place after it.
#[derive(Clone, Copy)]
pub struct Taken {
    pub value: usize,
    pub next: usize,
}

// ---- the input

// The place n further on. It wraps.
pub fn past(at: usize, n: usize) -> usize
    ensures { result ≡ (at + n) % 2 ^ 64 }
{
    at.wrapping_add(n)
}

// The byte at a place; 0 where there is none.
pub fn byte(s: &[u8], at: usize) -> u8
    ensures { result ≡ slice_index s.now at }
{
    if s.len() <= at {
        return 0;
    }
    s[at]
}

// The byte n places after a place.
#[tactic(auto, unfolding(crate::specs::Script::byte_after))]
fn byte_after(s: &[u8], at: usize, n: usize) -> u8
    ensures { result ≡ byte_after s.now at n }
{
    byte(s, past(at, n))
}

// The number of the eight bytes after a place, lowest first.
#[tactic(auto, unfolding(crate::specs::Script::eight_after, crate::specs::Script::byte_after))]
fn eight_after(s: &[u8], at: usize) -> u64
    ensures { result ≡ number_of low_first (eight_after s.now at) }
{
    encode::low::<8>([
        byte_after(s, at, 1),
        byte_after(s, at, 2),
        byte_after(s, at, 3),
        byte_after(s, at, 4),
        byte_after(s, at, 5),
        byte_after(s, at, 6),
        byte_after(s, at, 7),
        byte_after(s, at, 8),
    ])
}

// A number below 255 is one byte; any other is the byte 255 and eight bytes, lowest first.
#[tactic(auto, unfolding(crate::specs::Script::taken_at))]
pub fn number(s: &[u8], at: usize) -> Taken
    ensures { result ≡ taken_at s.now at }
{
    let first = byte(s, at);
    if first < 255 {
        return Taken {
            value: first as usize,
            next: past(at, 1),
        };
    }
    Taken {
        value: eight_after(s, at) as usize,
        next: past(at, 9),
    }
}

// The first n of a slice, or all if there are fewer.
pub fn first<T>(s: &[T], n: usize) -> &[T]
    ensures { result.now ≡ take n s.now }
{
    if s.len() <= n {
        return s;
    }
    &s[..n]
}

// The bytes from a place on; from the end on none.
pub fn rest(s: &[u8], at: usize) -> &[u8]
    ensures { result.now ≡ drop at s.now }
{
    if s.len() < at {
        return &s[0..0];
    }
    &s[at..]
}

// ---- the input as it is taken apart, from its first byte on

// All of it, and the place where it goes on.
#[derive(Clone, Copy)]
pub struct Input<'a> {
    pub bytes: &'a [u8],
    pub at: usize,
}

impl<'a> Input<'a> {
    pub fn new(bytes: &'a [u8]) -> Input<'a>
        ensures bytes { result.bytes.now ≡ bytes.now }
        ensures at { result.at ≡ 0 }
    {
        Input { bytes, at: 0 }
    }

    // Whether nothing is left of it.
    pub fn is_done(&self) -> bool
        ensures { result ≡ nat_le (length self.now.bytes.now) self.now.at }
    {
        self.bytes.len() <= self.at
    }

    pub fn byte(&mut self) -> u8
        ensures value { result ≡ slice_index self.old.bytes.now self.old.at }
        ensures at { self.new.at ≡ (self.old.at + 1) % 2 ^ 64 }
        ensures bytes { self.new.bytes.now ≡ self.old.bytes.now }
    {
        let b = byte(self.bytes, self.at);
        self.at = past(self.at, 1);
        b
    }

    pub fn number(&mut self) -> usize
        ensures value { result ≡ (taken_at self.old.bytes.now self.old.at).value }
        ensures at { self.new.at ≡ (taken_at self.old.bytes.now self.old.at).next }
        ensures bytes { self.new.bytes.now ≡ self.old.bytes.now }
    {
        let taken = number(self.bytes, self.at);
        self.at = taken.next;
        taken.value
    }

    // The next n bytes, fewer at its end.
    pub fn part(&mut self, n: usize) -> &'a [u8]
        ensures value { result.now ≡ take n (drop self.old.at self.old.bytes.now) }
        ensures at { self.new.at ≡ (self.old.at + n) % 2 ^ 64 }
        ensures bytes { self.new.bytes.now ≡ self.old.bytes.now }
    {
        let part = first(rest(self.bytes, self.at), n);
        self.at = past(self.at, n);
        part
    }
}

// ---- writing

pub fn say(text: &[u8]) {
    io::write_all(1, text);
}

// A number as it is shown: a signed one by its two's complement.
pub trait Shown: Copy {
    fn bits(self) -> u64;
}

impl Shown for u8 {
    fn bits(self) -> u64
        ensures { result ≡ self }
    {
        u64::from(self)
    }
}

impl Shown for bool {
    fn bits(self) -> u64 {
        u64::from(self)
    }
}

impl Shown for u32 {
    fn bits(self) -> u64
        ensures { result ≡ self }
    {
        u64::from(self)
    }
}

impl Shown for u64 {
    fn bits(self) -> u64
        ensures { result ≡ self }
    {
        self
    }
}

impl Shown for usize {
    fn bits(self) -> u64
        ensures { result ≡ self }
    {
        self as u64
    }
}

impl Shown for i32 {
    fn bits(self) -> u64
        ensures { result ≡ cast_unsigned w32 self }
    {
        u64::from(self.cast_unsigned())
    }
}

impl Shown for i64 {
    fn bits(self) -> u64
        ensures { result ≡ cast_unsigned w64 self }
    {
        self.cast_unsigned()
    }
}

// A number in hex, behind a space.
pub fn show<T: Shown>(n: T) {
    say(b" ");
    io::print_hex(1, n.bits(), 1);
}

// A byte as a number.
pub fn show_byte(n: u8) {
    show(n);
}

// Numbers, one after another.
pub fn show_each<T: Shown>(s: &[T]) {
    for n in s {
        show(*n);
    }
}

// Their sum, and the sum of such sums from the first up to each, which tells their places too. Both wrap.
pub fn show_sums<T: Shown>(s: &[T]) {
    let mut sum: u64 = 0;
    let mut sums: u64 = 0;
    for n in s {
        sum = sum.wrapping_add(n.bits());
        sums = sums.wrapping_add(sum);
    }
    show(sum);
    show(sums);
}

// Bytes in hex, by two digits each.
pub fn show_bytes(s: &[u8]) {
    for b in s {
        io::print_hex(1, u64::from(*b), 2);
    }
}

// A refusal's number. Of what is done, nothing.
pub fn refused(number: u8) {
    if number != 0 {
        say(b" refused");
        show(number);
    }
}
