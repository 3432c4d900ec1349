// The runs of a repaired column's block: their counts, and their keys, looked up among the entries that stand behind them already.
#![tactic(auto)]

ghost use Rattle.std.specs.Prelude.{◌≡◌, ◌+◌, ◌-◌, ◌*◌, ◌≤◌, length, take, drop};
ghost use Rattle.std.proofs.lemmas.List.Edits.{sets};
ghost use Rattle.rle.specs.RunLength.{runs_of, counts_of};
ghost use Rattle.dict.specs.Dictionary.{entries_of, entry_row};
ghost use Rattle.repaired.specs.Repaired.{rows_repaired, none_yet, Keyed, Entered, Ahead};
ghost use Rattle.used.specs.Used.{plain_rows};
ghost use Rattle.repaired_keys.specs.Keys.{Apart, key_slot, key_bytes};

use encode::Kind;

// Their counts.
pub fn write_counts(
    kind: Kind,
    entries: usize,
    runs: usize,
    counts: &[u8],
    keys: &[u8],
    items: &[u8],
    n: usize,
    out: &mut [u8],
    at: usize,
)
    requires { Keyed runs keys.now × Entered kind entries items.now × Ahead runs counts.now none_yet n
        × (at + length (counts_of (runs_of (rows_repaired kind entries runs counts.now keys.now items.now n))) ≤ length out.old) }
    ensures { out.new
        ≡ sets out.old at (counts_of (runs_of (rows_repaired kind entries runs counts.now keys.now items.now n))) }
{
    let mut to = at;
    let mut left = n;
    let mut x = repaired::none_yet();
    while 0 < left {
        let next = repaired::next_run(kind, entries, runs, counts, keys, items, x, left);
        to = emit::write_count(next.rows as u32, out, to);
        x = next.rest;
        left -= next.rows;
    }
}

// What a run's key counts from null's: 0 for null, else the place of its entry, from 1 on, among the `kept` ones, which are a plain block.
fn key_slot(
    kind: Kind,
    entries: usize,
    items: &[u8],
    slot: usize,
    kept: usize,
    written: &[u8],
) -> usize
    requires { Entered kind entries items.now × (slot ≤ entries) × Entered kind kept written.now }
    ensures { (result ≡ key_slot (plain_rows kind kept written.now) (entry_row kind entries items.now slot)) × (result ≤ kept + 1) }
{
    if slot == 0 {
        return 0;
    }
    used::first_like(kind, kept, written, entries, items, slot) + 1
}

// The same where entries are written in order of first use: the one behind the `next` that were met before is looked at first.
fn key_after(
    kind: Kind,
    entries: usize,
    items: &[u8],
    slot: usize,
    kept: usize,
    written: &[u8],
    next: usize,
) -> usize
    requires { Entered kind entries items.now × (slot ≤ entries) × Entered kind kept written.now × Apart (plain_rows kind kept written.now) }
    ensures { (result ≡ key_slot (plain_rows kind kept written.now) (entry_row kind entries items.now slot)) × (result ≤ kept + 1) }
{
    if 0 < slot {
        if next < kept {
            if matching::same_slot(kind, entries, items, slot, kept, written, next + 1) {
                return next + 1;
            }
        }
    }
    key_slot(kind, entries, items, slot, kept, written)
}

// Their keys. The `kept` entries stand from `from` to `end` already; the first `met` of them are those that the keys so far name.
pub fn write_keys(
    kind: Kind,
    entries: usize,
    runs: usize,
    counts: &[u8],
    keys: &[u8],
    items: &[u8],
    n: usize,
    kept: usize,
    out: &mut [u8],
    at: usize,
    from: usize,
    end: usize,
)
    requires { Keyed runs keys.now × Entered kind entries items.now × Ahead runs counts.now none_yet n
        × (from ≤ end) × (end ≤ length out.old) × Entered kind kept (take (end - from) (drop from out.old))
        × (plain_rows kind kept (take (end - from) (drop from out.old)) ≡ entries_of (rows_repaired kind entries runs counts.now keys.now items.now n))
        × (at + 4 * length (runs_of (rows_repaired kind entries runs counts.now keys.now items.now n)) ≤ from) }
    ensures { out.new
        ≡ sets out.old at (key_bytes (rows_repaired kind entries runs counts.now keys.now items.now n)) }
{
    let mut to = at;
    let mut left = n;
    let mut x = repaired::none_yet();
    let mut met = 0;
    while 0 < left {
        let next = repaired::next_run(kind, entries, runs, counts, keys, items, x, left);
        let key = key_after(kind, entries, items, next.slot, kept, &out[from..end], met);
        if met < key {
            met = key;
        }
        to = emit::put_low4(0x8000_0000 + key, out, to);
        x = next.rest;
        left -= next.rows;
    }
}
