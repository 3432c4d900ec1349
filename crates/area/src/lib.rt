// Small steps on bytes and lent areas that every crate above uses, each with a contract of its own.
#![tactic(auto)]

ghost use Rattle.std.specs.Prelude.{◌≡◌, true, ◌+◌, ◌*◌, ◌<◌, ◌≤◌, ◌^◌, min, length, take, drop, replicate};
ghost use Rattle.std.proofs.lemmas.List.Edits.{sets};
ghost use Rattle.limits.specs.Limits.{is_width};
ghost use Rattle.area.specs.Area.{repeats, climbs};

// A byte as a wider number. Its bound comes with it, so that no caller proves the cast again.
pub fn wide(x: u8) -> u32
    ensures { (result ≡ x) × (result < 256) }
{
    u32::from(x)
}

// The smaller of two numbers.
pub fn least(a: usize, b: usize) -> usize
    ensures { result ≡ min a b }
{
    a.min(b)
}

// `x` at `n` places from `at` on. A loop, since the library's `fill` asks for a clone that cannot fail, which `Copy` alone doesn't promise here.
pub fn fill<T: Copy>(dst: &mut [T], at: usize, n: usize, x: T)
    requires { at + n ≤ length dst.old }
    ensures { dst.new ≡ sets dst.old at (replicate n x) }
{
    for i in at..at + n {
        dst[i] = x;
    }
}

// The `n` bytes of `src` from `from` on, at `at`. A loop: `copy_from_slice` would have the archive call the C library's
// `memmove`, and of that library it calls `memset` alone.
pub fn copy(src: &[u8], from: usize, n: usize, dst: &mut [u8], at: usize)
    requires { (from + n ≤ length src.now) × (at + n ≤ length dst.old) }
    ensures { dst.new ≡ sets dst.old at (take n (drop from src.now)) }
{
    for i in 0..n {
        dst[at + i] = src[from + i];
    }
}

// The same, `times` times one after the other.
pub fn copies(src: &[u8], from: usize, n: usize, dst: &mut [u8], at: usize, times: usize)
    requires { (from + n ≤ length src.now) × (at + times * n ≤ length dst.old) }
    ensures { dst.new ≡ sets dst.old at (repeats times (take n (drop from src.now))) }
{
    let mut to = at;
    for _i in 0..times {
        copy(src, from, n, dst, to);
        to += n;
    }
}

// Ends that climb by `step` from `start` on.
pub fn climb(dst: &mut [u32], at: usize, n: usize, start: u32, step: u32)
    requires { (at + n ≤ length dst.old) × (start + n * step < 2 ^ 32) }
    ensures { dst.new ≡ sets dst.old at (climbs n start step) }
{
    let mut end = start;
    for i in at..at + n {
        end += step;
        dst[i] = end;
    }
}

// The first `N` bytes of an item, at `at`: one store. `copy_from_slice` compares the two places before it.
fn put_first<const N: usize>(item: [u8; 8], dst: &mut [u8], at: usize)
    requires { (at + N ≤ length dst.old) × (N ≤ 8) }
    ensures { dst.new ≡ sets dst.old at (take N item) }
{
    for i in 0..N {
        dst[at + i] = item[i];
    }
}

// An encoded item at `at`, passed whole beside its width: as many of its eight bytes as it has. Each width is a constant of its own, so that
// the bytes are written at once.
pub fn put(item: [u8; 8], width: usize, dst: &mut [u8], at: usize)
    requires { (is_width width ≡ true) × (at + width ≤ length dst.old) }
    ensures { dst.new ≡ sets dst.old at (take width item) }
{
    match width {
        8 => put_first::<8>(item, dst, at),
        4 => put_first::<4>(item, dst, at),
        2 => put_first::<2>(item, dst, at),
        _ => put_first::<1>(item, dst, at),
    }
}
