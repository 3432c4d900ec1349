// The entries of a repaired column's block, in order of first use: those that its runs show, one of each that read the same.
#![tactic(auto)]

ghost use Rattle.std.specs.Prelude.{◌≡◌, map, ◌+◌, ◌*◌, ◌≤◌, length};
ghost use Rattle.std.proofs.lemmas.List.Edits.{sets};
ghost use Rattle.limits.specs.Limits.{MOST_BYTES};
ghost use Rattle.encode.specs.Bytes.{little};
ghost use Rattle.plain.specs.Plain.{joined, item_of, ends_from, plain_of};
ghost use Rattle.dict.specs.Dictionary.{entries_of};
ghost use Rattle.repaired.specs.Repaired.{rows_repaired, none_yet, Keyed, Entered, Ahead};
ghost use Rattle.used.specs.Used.{Firsts};

use encode::Kind;

// Their items.
fn write_items(
    kind: Kind,
    entries: usize,
    runs: usize,
    counts: &[u8],
    keys: &[u8],
    items: &[u8],
    n: usize,
    firsts: &[u8],
    out: &mut [u8],
    at: usize,
)
    requires { Keyed runs keys.now × Entered kind entries items.now × Ahead runs counts.now none_yet n × Firsts kind entries items.now firsts.now
        × (at + length (joined (item_of kind) (entries_of (rows_repaired kind entries runs counts.now keys.now items.now n))) ≤ length out.old) }
    ensures { out.new
        ≡ sets out.old at (joined (item_of kind) (entries_of (rows_repaired kind entries runs counts.now keys.now items.now n))) }
{
    let mut bits = [0u8; 8192];
    let mut met = [0u8; 8192];
    let mut to = at;
    let mut left = n;
    let mut x = repaired::none_yet();
    while 0 < left {
        let next = repaired::next_run(kind, entries, runs, counts, keys, items, x, left);
        if 0 < next.slot {
            if used::meet_known(kind, entries, items, firsts, &mut bits, &mut met, next.slot) {
                to = entry_items::put_item(kind, entries, items, next.slot, out, to);
            }
        }
        x = next.rest;
        left -= next.rows;
    }
}

// Their ends, counted from the start of the items.
fn write_ends(
    kind: Kind,
    entries: usize,
    runs: usize,
    counts: &[u8],
    keys: &[u8],
    items: &[u8],
    n: usize,
    firsts: &[u8],
    out: &mut [u8],
    at: usize,
)
    requires { Keyed runs keys.now × Entered kind entries items.now × Ahead runs counts.now none_yet n × Firsts kind entries items.now firsts.now × (length items.now ≤ MOST_BYTES)
        × (length (joined (item_of kind) (entries_of (rows_repaired kind entries runs counts.now keys.now items.now n))) ≤ MOST_BYTES)
        × (at + 4 * length (entries_of (rows_repaired kind entries runs counts.now keys.now items.now n)) ≤ length out.old) }
    ensures { out.new
        ≡ sets out.old at (joined (little 4) (ends_from 0 (map (item_of kind) (entries_of (rows_repaired kind entries runs counts.now keys.now items.now n))))) }
{
    let mut bits = [0u8; 8192];
    let mut met = [0u8; 8192];
    let mut to = at;
    let mut end = 0;
    let mut left = n;
    let mut x = repaired::none_yet();
    while 0 < left {
        let next = repaired::next_run(kind, entries, runs, counts, keys, items, x, left);
        if 0 < next.slot {
            if used::meet_known(kind, entries, items, firsts, &mut bits, &mut met, next.slot) {
                end += entry_items::item_len(kind, entries, items, next.slot);
                to = emit::put_low4(end, out, to);
            }
        }
        x = next.rest;
        left -= next.rows;
    }
}

// The entries as a plain block.
pub fn write_entries(
    kind: Kind,
    entries: usize,
    runs: usize,
    counts: &[u8],
    keys: &[u8],
    items: &[u8],
    n: usize,
    firsts: &[u8],
    kept: usize,
    out: &mut [u8],
    at: usize,
)
    requires { Keyed runs keys.now × Entered kind entries items.now × Ahead runs counts.now none_yet n × Firsts kind entries items.now firsts.now × (length items.now ≤ MOST_BYTES)
        × (kept ≡ length (entries_of (rows_repaired kind entries runs counts.now keys.now items.now n)))
        × (length (joined (item_of kind) (entries_of (rows_repaired kind entries runs counts.now keys.now items.now n))) ≤ MOST_BYTES)
        × (at + length (plain_of kind (entries_of (rows_repaired kind entries runs counts.now keys.now items.now n))) ≤ length out.old) }
    ensures { out.new
        ≡ sets out.old at (plain_of kind (entries_of (rows_repaired kind entries runs counts.now keys.now items.now n))) }
{
    match kind {
        Kind::Fixed(_) | Kind::Char(_) => write_items(
            kind, entries, runs, counts, keys, items, n, firsts, out, at,
        ),
        Kind::Blob(_) => {
            write_ends(kind, entries, runs, counts, keys, items, n, firsts, out, at);
            write_items(
                kind,
                entries,
                runs,
                counts,
                keys,
                items,
                n,
                firsts,
                out,
                at + 4 * kept,
            );
        }
    }
}
