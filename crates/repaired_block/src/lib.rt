// The block of a repaired column, written part by part: first the entries, among which the keys are then looked up.
#![tactic(auto)]

ghost use Rattle.std.specs.Prelude.{◌≡◌, ◌+◌, ◌-◌, ◌≤◌, length, take, drop};
ghost use Rattle.std.proofs.lemmas.List.Edits.{sets};
ghost use Rattle.limits.specs.Limits.{MOST_BYTES};
ghost use Rattle.plain.specs.Plain.{plain_of};
ghost use Rattle.dict.specs.Dictionary.{entries_of, key_block_of, dictionary_of};
ghost use Rattle.repaired.specs.Repaired.{rows_repaired, none_yet, Keyed, Entered, Ahead};
ghost use Rattle.used.specs.Used.{plain_rows, Firsts};
ghost use Rattle.repaired_sizes.specs.Sizes.{sizes_of, keys_long};

use encode::Kind;
use repaired_sizes::Sizes;

// The key block, of which there is none without runs. The entries stand from `from` to `end` already.
fn write_key_block(
    kind: Kind,
    entries: usize,
    runs: usize,
    counts: &[u8],
    keys: &[u8],
    items: &[u8],
    n: usize,
    sizes: Sizes,
    out: &mut [u8],
    from: usize,
    end: usize,
)
    requires { Keyed runs keys.now × Entered kind entries items.now × Ahead runs counts.now none_yet n
        × (sizes ≡ sizes_of kind (rows_repaired kind entries runs counts.now keys.now items.now n))
        × (from ≡ 12 + keys_long sizes) × (from ≤ end) × (end ≤ length out.old)
        × Entered kind sizes.entries (take (end - from) (drop from out.old))
        × (plain_rows kind sizes.entries (take (end - from) (drop from out.old)) ≡ entries_of (rows_repaired kind entries runs counts.now keys.now items.now n)) }
    ensures { out.new
        ≡ sets out.old 12 (key_block_of (rows_repaired kind entries runs counts.now keys.now items.now n)) }
{
    if sizes.runs == 0 {
        return;
    }
    emit::put_low4(sizes.runs, out, 12);
    emit::put_low4(sizes.counts, out, 16);
    repaired_keys::write_counts(kind, entries, runs, counts, keys, items, n, out, 20);
    repaired_keys::write_keys(
        kind,
        entries,
        runs,
        counts,
        keys,
        items,
        n,
        sizes.entries,
        out,
        20 + sizes.counts,
        from,
        end,
    );
}

pub fn write_block(
    kind: Kind,
    entries: usize,
    runs: usize,
    counts: &[u8],
    keys: &[u8],
    items: &[u8],
    n: usize,
    firsts: &[u8],
    sizes: Sizes,
    out: &mut [u8],
)
    requires { Keyed runs keys.now × Entered kind entries items.now × Ahead runs counts.now none_yet n × Firsts kind entries items.now firsts.now × (length items.now ≤ MOST_BYTES)
        × (sizes ≡ sizes_of kind (rows_repaired kind entries runs counts.now keys.now items.now n))
        × Entered kind sizes.entries (plain_of kind (entries_of (rows_repaired kind entries runs counts.now keys.now items.now n)))
        × (plain_rows kind sizes.entries (plain_of kind (entries_of (rows_repaired kind entries runs counts.now keys.now items.now n)))
        ≡ entries_of (rows_repaired kind entries runs counts.now keys.now items.now n))
        × (length (dictionary_of kind (rows_repaired kind entries runs counts.now keys.now items.now n)) ≤ MOST_BYTES)
        × (length (dictionary_of kind (rows_repaired kind entries runs counts.now keys.now items.now n)) ≤ length out.old) }
    ensures { out.new
        ≡ sets out.old 0 (dictionary_of kind (rows_repaired kind entries runs counts.now keys.now items.now n)) }
{
    let keys_len = sizes.keys_len();
    let from = 12 + keys_len;
    let end = from + sizes.entries_len(kind);
    area::put(encode::high_first::<8>(keys_len as u64), 8, out, 0);
    area::put(encode::high_first::<4>(sizes.entries as u64), 4, out, 8);
    repaired_entries::write_entries(
        kind,
        entries,
        runs,
        counts,
        keys,
        items,
        n,
        firsts,
        sizes.entries,
        out,
        from,
    );
    write_key_block(
        kind, entries, runs, counts, keys, items, n, sizes, out, from, end,
    );
}
