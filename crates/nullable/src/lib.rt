// Nullable blocks: the bitmap, its flags, the rules.
#![tactic(auto)]

ghost use Rattle.std.specs.Prelude.{◌≡◌, map, ◌+◌, ◌-◌, ◌*◌, ◌/◌, ◌<◌, ◌≤◌, ◌^◌, pos, length};
ghost use Rattle.std.proofs.lemmas.List.Edits.{sets};
ghost use Rattle.limits.specs.Limits.{MOST_ITEMS};
ghost use Rattle.limits.specs.Refusals.{number_in};
ghost use Rattle.plain.specs.Plain.{places};
ghost use Rattle.nullable.specs.Nullable.{bitmap_length, bit_at, nullable_number};
ghost use Rattle.nullable.specs.Blanks.{bit_in, blank_at};

use encode::Kind;
use limits::refusal::Refusal;

// The bytes of a bitmap of `n` bits.
pub fn bitmap_len(n: usize) -> usize
    requires { n ≤ MOST_ITEMS }
    ensures { (result ≡ bitmap_length n) × (result ≤ MOST_ITEMS / 8) × (n ≤ 8 * result) }
{
    (n + 7) / 8
}

// Bit `i`: 1 means present.
pub fn bit_at(bitmap: &[u8], i: usize) -> u8
    requires { i < 8 * length bitmap.now }
    ensures { (result ≡ bit_at bitmap.now i) × (result < 2) }
{
    let k = i / 8;
    let shift = i % 8;
    (bitmap[k] >> shift) % 2
}

// The eight flags of a byte of the bitmap, stored from `at` on. The stores stand one by one, with no loop, for speed.
fn put_eight(byte: u8, at: usize, out: &mut [u8])
    requires { at + 8 ≤ length out.old }
    ensures { out.new ≡ sets out.old at (map (bit_in byte) (places 8 0)) }
{
    out[at] = byte % 2;
    out[at + 1] = (byte >> 1) % 2;
    out[at + 2] = (byte >> 2) % 2;
    out[at + 3] = (byte >> 3) % 2;
    out[at + 4] = (byte >> 4) % 2;
    out[at + 5] = (byte >> 5) % 2;
    out[at + 6] = (byte >> 6) % 2;
    out[at + 7] = (byte >> 7) % 2;
}

// The flags of some rows from `row` on, of which `left` are wanted, stored from `at` on: of eight rows where a byte of the bitmap begins
// with them, and else of one. What comes back is how many these are.
fn put_some(bitmap: &[u8], row: usize, left: usize, at: usize, out: &mut [u8]) -> usize
    requires { (0 < left) × (row + left ≤ 8 * length bitmap.now) × (at + left ≤ length out.old) }
    ensures result_nonzero { (0 < result) × (result ≤ left) }
    ensures out_after { out.new ≡ sets out.old at (map (bit_at bitmap.now) (places result row)) }
{
    if row % 8 != 0 {
        out[at] = bit_at(bitmap, row);
        return 1;
    }
    if left < 8 {
        out[at] = bit_at(bitmap, row);
        return 1;
    }
    let k = row / 8;
    put_eight(bitmap[k], at, out);
    8
}

// The flags of the `n` rows from `from` on.
pub fn flags(bitmap: &[u8], from: usize, n: usize, out: &mut [u8])
    requires { (from + n ≤ MOST_ITEMS) × (from + n ≤ 8 * length bitmap.now) × (n ≤ length out.old) }
    ensures { out.new ≡ sets out.old 0 (map (bit_at bitmap.now) (places n from)) }
{
    // the steps are of one row or of eight
    let mut i = 0;
    while i < n {
        i += put_some(bitmap, from + i, n - i, i, out);
    }
}

// A value beside its flag: 0 for a null.
fn shown(flag: u8, value: i64) -> i64
    ensures { (flag ≡ 0 → result ≡ pos 0) × (0 < flag → result ≡ value) }
{
    if flag == 0 {
        return 0;
    }
    value
}

// A null's value is 0, whatever the block holds under it. Every value is stored anew, so that no branch hangs on a flag: where nulls come
// as they please, a branch on them can't be foretold.
pub fn blank(flags: &[u8], n: usize, values: &mut [i64])
    requires { (n ≤ length flags.now) × (n ≤ length values.old) }
    ensures { values.new ≡ sets values.old 0 (map (blank_at flags.now values.old) (places n 0)) }
{
    for i in 0..n {
        values[i] = shown(flags[i], values[i]);
    }
}

// What the nullable rules say of `n` rows.
pub fn check(kind: Kind, n: usize, s: &[u8]) -> Result<(), Refusal>
    requires { n ≤ MOST_ITEMS }
    ensures { number_in result ≡ nullable_number kind n s.now }
{
    let len = s.len();
    if len < 4 {
        return Err(Refusal::Cut);
    }
    let bitmap = bitmap_len(n);
    if plain::u32_at(s, len - 4) != bitmap {
        return Err(Refusal::Length);
    }
    if len < bitmap + 4 {
        return Err(Refusal::Cut);
    }
    let end = len - (bitmap + 4);
    plain::check(kind, n, &s[..end])
}
