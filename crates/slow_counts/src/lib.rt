// The counts of runs, one after the other from the first: the second engine's own way, which shares no function with the first.
#![tactic(auto)]

ghost use Rattle.std.specs.Prelude.{◌≡◌, ◌≤◌, ◌<◌, length, get_or};
ghost use Rattle.limits.specs.Limits.{MOST_ITEMS, MOST_BYTES};
ghost use Rattle.limits.specs.Refusals.{number_in};
ghost use Rattle.rle.specs.RunLength.{walked, walk_number, run_numbers};
ghost use Rattle.slow_counts.specs.Within.{Within};

use limits::refusal::Refusal;

// The counts of `runs` runs, which have to be all of the bytes and come to `rows` rows.
pub fn counts_number(rows: usize, runs: usize, counts: &[u8]) -> Result<(), Refusal>
    requires { (runs ≤ MOST_ITEMS) × (length counts.now ≤ MOST_BYTES) }
    ensures { number_in result ≡ walk_number rows (walked runs counts.now) }
{
    let mut sum = 0;
    let mut at = 0;
    for i in 0..runs {
        if counts.len() <= at {
            return Err(Refusal::Counts);
        }
        let Some(count) = slow_numbers::count_at(counts, at) else {
            return Err(Refusal::Varint);
        };
        if count.value == 0 {
            return Err(Refusal::Counts);
        }
        sum += count.value as usize;
        at += count.len;
    }
    if at < counts.len() {
        return Err(Refusal::Counts);
    }
    if sum != rows {
        return Err(Refusal::Sum);
    }
    Ok(())
}

// The run that a row lies in: counts are taken off until one is above what is left.
pub fn run_of(counts: &[u8], runs: usize, row: usize) -> usize
    requires { (runs ≤ MOST_ITEMS) × (length counts.now ≤ MOST_BYTES) × Within runs counts.now row }
    ensures { (result ≡ get_or (run_numbers runs 0 counts.now) row 0) × (result < runs) }
{
    let mut left = row;
    let mut at = 0;
    for run in 0..runs {
        let Some(count) = slow_numbers::count_at(counts, at) else {
            return run;
        };
        if left < count.value as usize {
            return run;
        }
        left -= count.value as usize;
        at += count.len;
    }
    runs
}
