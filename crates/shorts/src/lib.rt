// Run counts that are a byte each, looked at and added up sixteen at a time. There is no early exit from a group, which lets the machine
// code take all of it at once.
#![tactic(auto)]

ghost use Rattle.std.specs.Prelude.{IfSome, ◌≡◌, ◌+◌, ◌<◌, ◌≤◌, length, take, drop};
ghost use Rattle.shorts.specs.Shorts.{shortness, as_is, sum_by, Group, Passes};

// Some counts of a byte each, and the rows of their runs.
#[derive(Clone, Copy)]
pub struct Passed {
    pub runs: usize,
    pub rows: usize,
}

// One for a byte that is a count by itself, and none for any other.
fn one_if_short(byte: u8) -> u8
    ensures { (result ≡ shortness byte) × (result ≤ 1) }
{
    if byte == 0 {
        return 0;
    }
    if byte < 128 { 1 } else { 0 }
}

// How many of the sixteen bytes from `at` on are counts by themselves.
fn count_short(s: &[u8], at: usize) -> u8
    requires { at + 16 ≤ length s.now }
    ensures { result ≡ sum_by shortness (take 16 (drop at s.now)) }
{
    let mut found: u8 = 0;
    for i in 0..16 {
        found += one_if_short(s[at + i]);
    }
    found
}

// The sum of the sixteen bytes from `at` on.
fn add_up(s: &[u8], at: usize) -> u32
    requires { at + 16 ≤ length s.now }
    ensures { result ≡ sum_by as_is (take 16 (drop at s.now)) }
{
    let mut sum: u32 = 0;
    for i in 0..16 {
        sum += u32::from(s[at + i]);
    }
    sum
}

// The rows of the sixteen runs whose counts begin at `at`, if there are so many, each count is a byte, and the rows are at most `rows`.
#[inline(always)]
fn group(s: &[u8], at: usize, runs: usize, rows: usize) -> Option<usize>
    ensures { IfSome result (Group s.now at runs rows) }
{
    if runs < 16 {
        return None;
    }
    if s.len() < 16 {
        return None;
    }
    if s.len() - 16 < at {
        return None;
    }
    if count_short(s, at) != 16 {
        return None;
    }
    let sum = add_up(s, at) as usize;
    if rows < sum {
        return None;
    }
    Some(sum)
}

// Passes over groups of such counts from `from` on, as long as a group more is within `runs` and `rows`. The next group is looked for at the
// end of a step, which lets the machine code add up its bytes at once; with the look in the loop's test it adds them one by one.
pub fn pass(s: &[u8], from: usize, runs: usize, rows: usize) -> Passed
    ensures { Passes s.now from runs rows result }
{
    let mut passed: usize = 0;
    let mut sum: usize = 0;
    let mut next = group(s, from, runs, rows);
    while let Some(more) = next {
        passed += 16;
        sum += more;
        next = group(s, from + passed, runs - passed, rows - sum);
    }
    Passed {
        runs: passed,
        rows: sum,
    }
}
