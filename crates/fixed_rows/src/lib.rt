// The second pass over the rows of a fixed kind: their values, and their flags, run by run. The first pass has found them there and good.
#![tactic(auto)]

ghost use Rattle.std.specs.Prelude.{◌≡◌, map, ◌≤◌, length};
ghost use Rattle.std.proofs.lemmas.List.Edits.{sets};
ghost use Rattle.limits.specs.Limits.{MOST_ITEMS};
ghost use Rattle.encode.specs.declared.Kind.TheVariants.{Fixed};
ghost use Rattle.plain.specs.Plain.{least_bytes};
ghost use Rattle.rle.specs.Pieces.{step_runs};
ghost use Rattle.source.specs.Rows.{int_of, int_by, flag_by, good_by, Ready, Starts, steps_of, Writes};

use encode::Primitive;
use rle::Spot;
use source::Source;

// The value of an item, counted from 1 on: 0 of a null.
fn value_of(p: Primitive, n: usize, items: &[u8], slot: usize) -> i64
    requires { (slot ≤ n) × (n ≤ MOST_ITEMS) × (least_bytes (Fixed p) n ≤ length items.now) }
    ensures { result ≡ int_of (Fixed p) n items.now slot }
{
    if slot == 0 {
        return 0;
    }
    plain::value_at(p, items, slot - 1)
}

// Writes the values of the next `n` rows of a fixed kind, run by run: its item's shape is asked for, and the item decoded, once
// a run.
pub fn put_values(
    p: Primitive,
    s: Source,
    counts: &[u8],
    marks: &[u8],
    items: &[u8],
    from: Spot,
    n: usize,
    values: &mut [i64],
)
    requires { Ready s marks.now items.now × Starts s from n × (s.kind ≡ Fixed p) × Writes (good_by s marks.now items.now) (steps_of s counts.now n from) n (length values.old) }
    ensures { values.new ≡ sets values.old 0 (map (int_by s marks.now items.now) (step_runs (steps_of s counts.now n from))) }
{
    let mut at = from;
    let mut left = n;
    let mut to: usize = 0;
    while 0 < left {
        let run = source::shown_run(s, counts, marks, items, at, left);
        let rows = run.rows;
        let next = run.next;
        let value = value_of(p, s.items, items, run.slot);
        area::fill(values, to, rows, value);
        to += rows;
        left -= rows;
        at = next;
    }
}

// Writes the flags of the next `n` rows, run by run.
pub fn put_flags(
    s: Source,
    counts: &[u8],
    marks: &[u8],
    items: &[u8],
    from: Spot,
    n: usize,
    flags: &mut [u8],
)
    requires { Ready s marks.now items.now × Starts s from n × Writes (good_by s marks.now items.now) (steps_of s counts.now n from) n (length flags.old) }
    ensures { flags.new ≡ sets flags.old 0 (map (flag_by s marks.now items.now) (step_runs (steps_of s counts.now n from))) }
{
    let mut at = from;
    let mut left = n;
    let mut to: usize = 0;
    while 0 < left {
        let run = source::shown_run(s, counts, marks, items, at, left);
        let rows = run.rows;
        let next = run.next;
        source::fill_flags(flags, to, rows, source::flag_of(run.slot));
        to += rows;
        left -= rows;
        at = next;
    }
}
