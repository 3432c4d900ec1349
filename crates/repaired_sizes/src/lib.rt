// The sizes of the block of a repaired column, found run by run before anything is written.
#![tactic(auto)]

ghost use Rattle.std.specs.Prelude.{◌≡◌, [], ◌+◌, ◌*◌, ◌≤◌, ◌<◌, length};
ghost use Rattle.limits.specs.Limits.{MOST_BYTES, MOST_COUNT};
ghost use Rattle.varint.specs.Varint.{spelling};
ghost use Rattle.dict.specs.Dictionary.{entries_of, dictionary_of};
ghost use Rattle.repaired.specs.Repaired.{rows_repaired, none_yet, Keyed, Entered, Ahead};
ghost use Rattle.used.specs.Used.{Used};
ghost use Rattle.repaired_sizes.specs.Sizes.{sizes as sizes_by, sizes_of, keys_long, entries_long, block_long};

use encode::Kind;

// How many runs and the bytes of their counts, how many entries and the bytes of their items.
#[derive(Clone, Copy)]
pub struct Sizes {
    pub runs: usize,
    pub counts: usize,
    pub entries: usize,
    pub bytes: usize,
}

impl Sizes {
    // The key block: no runs, no bytes.
    pub fn keys_len(self) -> usize
        requires { (self.runs ≤ MOST_BYTES) × (self.counts ≤ MOST_BYTES) }
        ensures { result ≡ keys_long self }
    {
        if self.runs == 0 {
            return 0;
        }
        8 + self.counts + 4 * self.runs
    }

    // The entries as a plain block.
    pub fn entries_len(self, kind: Kind) -> usize
        requires { (self.entries ≤ MOST_BYTES) × (self.bytes ≤ MOST_BYTES) }
        ensures { result ≡ entries_long kind self }
    {
        match kind {
            Kind::Fixed(_) | Kind::Char(_) => self.bytes,
            Kind::Blob(_) => 4 * self.entries + self.bytes,
        }
    }

    // The whole block.
    pub fn block_len(self, kind: Kind) -> usize
        requires { (self.runs ≤ MOST_BYTES) × (self.counts ≤ MOST_BYTES) × (self.entries ≤ MOST_BYTES) × (self.bytes ≤ MOST_BYTES) }
        ensures { result ≡ block_long kind self }
    {
        12 + self.keys_len() + self.entries_len(kind)
    }

    // With a run of so many rows.
    fn with_run(self, rows: usize) -> Sizes
        requires { (rows ≤ MOST_COUNT) × (self.runs ≤ MOST_BYTES) × (self.counts ≤ MOST_BYTES) }
        ensures { result ≡ sizes_by (self.runs + 1) (self.counts + length (spelling rows)) self.entries self.bytes }
    {
        Sizes {
            runs: self.runs + 1,
            counts: self.counts + varint::size(rows as u32),
            entries: self.entries,
            bytes: self.bytes,
        }
    }

    // With an entry whose item has so many bytes.
    fn with_entry(self, len: usize) -> Sizes
        requires { (len ≤ MOST_BYTES) × (self.entries ≤ MOST_BYTES) × (self.bytes ≤ MOST_BYTES) }
        ensures { result ≡ sizes_by self.runs self.counts (self.entries + 1) (self.bytes + len) }
    {
        Sizes {
            runs: self.runs,
            counts: self.counts,
            entries: self.entries + 1,
            bytes: self.bytes + len,
        }
    }
}

// The sizes for the first `n` rows. Of the entries in use, those that are the first of their like are marked.
pub fn sizes_of(
    kind: Kind,
    entries: usize,
    runs: usize,
    counts: &[u8],
    keys: &[u8],
    items: &[u8],
    n: usize,
    firsts: &mut [u8],
) -> Sizes
    requires { Keyed runs keys.now × Entered kind entries items.now × Ahead runs counts.now none_yet n × (length items.now ≤ MOST_BYTES)
        × Used kind entries items.now firsts.old []
        × (length (dictionary_of kind (rows_repaired kind entries runs counts.now keys.now items.now n)) ≤ MOST_BYTES) }
    ensures value { result ≡ sizes_of kind (rows_repaired kind entries runs counts.now keys.now items.now n) }
    ensures used { Used kind entries items.now firsts.new
        (entries_of (rows_repaired kind entries runs counts.now keys.now items.now n)) }
{
    let mut sizes = Sizes {
        runs: 0,
        counts: 0,
        entries: 0,
        bytes: 0,
    };
    let mut met = [0u8; 8192];
    let mut left = n;
    let mut x = repaired::none_yet();
    while 0 < left {
        let next = repaired::next_run(kind, entries, runs, counts, keys, items, x, left);
        sizes = sizes.with_run(next.rows);
        if 0 < next.slot {
            if used::meet(kind, entries, items, firsts, &mut met, next.slot) {
                sizes = sizes.with_entry(entry_items::item_len(kind, entries, items, next.slot));
            }
        }
        x = next.rest;
        left -= next.rows;
    }
    sizes
}
