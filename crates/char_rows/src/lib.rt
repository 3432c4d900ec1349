// Char items one after another, with no runs and no marks: their texts and ends, without a branch that hangs on where a text
// ends, since a processor can't foresee that.
#![tactic(auto)]

ghost use Rattle.std.specs.Prelude.{◌≡◌, map, ◌+◌, ◌*◌, ◌<◌, ◌≤◌, length, take, drop};
ghost use Rattle.std.proofs.lemmas.List.Edits.{sets};
ghost use Rattle.limits.specs.Limits.{MOST_ITEMS, MOST_WIDTH};
ghost use Rattle.plain.specs.Plain.{places, joined, ends_from, char_at};
ghost use Rattle.char_rows.specs.Chars.{letters};

// ---- room

// One for a byte that is no NUL.
fn letter(byte: u8) -> u8
    ensures { (byte ≡ 0 → result ≡ 0) × (0 < byte → result ≡ 1) }
{
    if byte == 0 { 0 } else { 1 }
}

// How many of the `n` bytes from `at` on are no NULs. So few are counted in a byte, which lets the machine code count sixteen at
// a time.
fn count(s: &[u8], at: usize, n: usize) -> u8
    requires { (n < 256) × (at + n ≤ length s.now) }
    ensures { (result ≡ letters (take n (drop at s.now))) × (result ≤ n) }
{
    let mut found: u8 = 0;
    let mut i = 0;
    while i < n {
        found += letter(s[at + i]);
        i += 1;
    }
    found
}

// The bytes that the texts of the `n` items from `from` on take at most: each byte that is no NUL. In blocks whose items end in
// NULs only, it is what they take.
pub fn most(w: u8, s: &[u8], from: usize, n: usize) -> usize
    requires { (from + n ≤ MOST_ITEMS) × (from * w + n * w ≤ length s.now) }
    ensures { length (joined (char_at w s.now) (places n from)) ≤ result }
{
    let mut at = from * (w as usize);
    let mut left = n * (w as usize);
    let mut found: usize = 0;
    while 240 <= left {
        found += count(s, at, 240) as usize;
        at += 240;
        left -= 240;
    }
    found + (count(s, at, left) as usize)
}

// ---- ends

// Where a NUL is found: at `k` if the byte is one, and otherwise at the end.
fn nul_at(byte: u8, k: u8, end: u8) -> u8
    ensures { (byte ≡ 0 → result ≡ k) × (0 < byte → result ≡ end) }
{
    if byte == 0 { k } else { end }
}

// The lower of two numbers.
fn lower(a: u8, b: u8) -> u8
    ensures { (a < b → result ≡ a) × (b ≤ a → result ≡ b) }
{
    if a < b { a } else { b }
}

// The length of item `i`, cut at its first NUL. Every byte is looked at, which lets the machine code take several at a time.
fn short_len(s: &[u8], i: usize, w: u8) -> u8
    requires { i * w + w ≤ length s.now }
    ensures { (result ≡ length (char_at w s.now i)) × (result ≤ w) }
{
    let at = i * (w as usize);
    let mut len = w;
    let mut k: u8 = 0;
    while k < w {
        len = lower(nul_at(s[at + (k as usize)], k, w), len);
        k += 1;
    }
    len
}

// The same of an item of any width, by groups of bytes, of which none is looked at behind the one with the NUL.
fn text_len(s: &[u8], i: usize, w: u8) -> u8
    requires { i * w + w ≤ length s.now }
    ensures { (result ≡ length (char_at w s.now i)) × (result ≤ w) }
{
    let at = i * (w as usize);
    let mut n: u8 = 0;
    while 64 <= w - n {
        let from = at + (n as usize);
        let to = from + 64;
        let len = short_len(&s[from..to], 0, 64);
        if len < 64 {
            return n + len;
        }
        n += 64;
    }
    let from = at + (n as usize);
    let to = at + (w as usize);
    n + short_len(&s[from..to], 0, w - n)
}

// Writes the ends of the `n` items from `from` on. What comes back is how many bytes their texts have.
fn put_ends(w: u8, s: &[u8], from: usize, n: usize, ends: &mut [u32]) -> usize
    requires { (from + n ≤ MOST_ITEMS) × (from * w + n * w ≤ length s.now) × (n ≤ length ends.old) }
    ensures value { (result ≡ length (joined (char_at w s.now) (places n from))) × (result ≤ MOST_WIDTH * n) }
    ensures ends_after { ends.new ≡ sets ends.old 0 (ends_from 0 (map (char_at w s.now) (places n from))) }
{
    let mut total: usize = 0;
    let mut i = 0;
    while i < n {
        total += text_len(s, from + i, w) as usize;
        ends[i] = total as u32;
        i += 1;
    }
    total
}

// ---- texts

// The `n` bytes of `src` from `from` on, at `at`, eight at a time.
fn copy_by_eight(src: &[u8], from: usize, n: usize, dst: &mut [u8], at: usize)
    requires { (from + n ≤ length src.now) × (at + n ≤ length dst.old) }
    ensures { dst.new ≡ sets dst.old at (take n (drop from src.now)) }
{
    let mut i = 0;
    while 8 <= n - i {
        area::put(plain::item(src, from + i, 8), 8, dst, at + i);
        i += 8;
    }
    area::copy(src, from + i, n - i, dst, at + i);
}

// How many bytes of an item are copied: all of them, where later texts come to lie over those past its own text.
fn span(at: usize, end: usize, w: usize, total: usize) -> usize
    requires { (at ≤ end) × (end ≤ at + w) × (end ≤ total) }
    ensures { (end ≤ at + result) × (result ≤ w) × (at + result ≤ total) }
{
    if w <= total - at { w } else { end - at }
}

// Writes the texts of the `n` items from `from` on, whose ends are there.
fn put_bytes(w: u8, s: &[u8], from: usize, n: usize, ends: &[u32], total: usize, bytes: &mut [u8])
    requires { (from + n ≤ MOST_ITEMS) × (from * w + n * w ≤ length s.now)
        × (take n ends.now ≡ ends_from 0 (map (char_at w s.now) (places n from))) × (n ≤ length ends.now)
        × (total ≡ length (joined (char_at w s.now) (places n from))) × (total ≤ length bytes.old) }
    ensures { bytes.new ≡ sets bytes.old 0 (joined (char_at w s.now) (places n from)) }
{
    let mut at: usize = 0;
    let mut i = 0;
    while i < n {
        let end = ends[i] as usize;
        let copied = span(at, end, w as usize, total);
        copy_by_eight(s, (from + i) * (w as usize), copied, bytes, at);
        at = end;
        i += 1;
    }
}

// Writes the texts and the ends of the `n` items from `from` on. What comes back is how many bytes they have.
pub fn put(w: u8, s: &[u8], from: usize, n: usize, ends: &mut [u32], bytes: &mut [u8]) -> usize
    requires { (from + n ≤ MOST_ITEMS) × (from * w + n * w ≤ length s.now) × (n ≤ length ends.old) × (length (joined (char_at w s.now) (places n from)) ≤ length bytes.old) }
    ensures value { (result ≡ length (joined (char_at w s.now) (places n from))) × (result ≤ MOST_WIDTH * n) }
    ensures ends_after { ends.new ≡ sets ends.old 0 (ends_from 0 (map (char_at w s.now) (places n from))) }
    ensures bytes_after { bytes.new ≡ sets bytes.old 0 (joined (char_at w s.now) (places n from)) }
{
    let total = put_ends(w, s, from, n, ends);
    put_bytes(w, s, from, n, ends, total, bytes);
    total
}
