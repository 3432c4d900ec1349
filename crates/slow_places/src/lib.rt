// Where the item of a row stands, found from the block's start: the second engine's own way, which shares no function with the first.
#![tactic(auto)]

ghost use Rattle.std.specs.Prelude.{◌≡◌, ℕ, ◌+◌, ◌*◌, ◌^◌, ◌≤◌, ◌<◌, length};
ghost use Rattle.encode.specs.declared.Kind.{Kind};
ghost use Rattle.rle.specs.RunLength.{runs_in};
ghost use Rattle.dict.specs.Dictionary.{slot_at};
ghost use Rattle.format.specs.declared.Encoding.TheVariants.{Nullable, Dictionary};
ghost use Rattle.format.specs.Opening.{rules_of};
ghost use Rattle.slow_plain.specs.Items.{slot_of};
ghost use Rattle.slow_places.specs.Places.{Opened, Shows};
ghost use Rattle.slow_places.specs.Inner.{Told, items_by, runs_by, Has, Counted, items_of, run_at, Lies, moved_by};

use format::Encoding;

// Where a row's item stands: in the plain block from `from` to `to`, of so many items; null has none.
#[derive(Clone, Copy)]
pub struct Place {
    pub from: usize,
    pub to: usize,
    pub items: usize,
    pub item: Option<usize>,
}

// ---- a row that is an item

// Item `i` of a nullable block of `n`: its bit, before the trailer, tells whether it is null.
fn nullable_place(s: &[u8], n: usize, i: usize) -> Place
    requires { Opened Nullable n s.now × (i < n) }
    ensures { Told Nullable n s.now i result }
{
    let bits = s.len() - (slow_marks::bitmap_len(n) + 4);
    let end = s.len() - 4;
    let item = if slow_marks::is_set(&s[bits..end], i) {
        Some(i)
    } else {
        None
    };
    Place {
        from: 0,
        to: bits,
        items: n,
        item,
    }
}

// Item `i` of a block of `n`, nullable or plain.
fn item_place(nullable: bool, s: &[u8], n: usize, i: usize) -> Place
    requires { Opened (items_by nullable) n s.now × (i < n) }
    ensures { Told (items_by nullable) n s.now i result }
{
    if nullable {
        return nullable_place(s, n, i);
    }
    Place {
        from: 0,
        to: s.len(),
        items: n,
        item: Some(i),
    }
}

// ---- a row that lies in a run

// The run of a row, among so many, and where the block of their items begins.
#[derive(Clone, Copy)]
struct InRun {
    runs: usize,
    inner: usize,
    run: usize,
}

fn run_at(s: &[u8], row: usize) -> InRun
    requires { Counted s.now row }
    ensures { Lies s.now row result }
{
    let runs = slow_numbers::number_at(s, 0, 4, false) as usize;
    let inner = 8 + (slow_numbers::number_at(s, 4, 4, false) as usize);
    let run = slow_counts::run_of(&s[8..inner], runs, row);
    InRun { runs, inner, run }
}

// A place in a part of a block, as a place in the block: the part begins `by` bytes on.
fn moved(p: Place, by: usize) -> Place
    requires { (by + p.from < 2 ^ 64) × (by + p.to < 2 ^ 64) }
    ensures { result ≡ moved_by by p }
{
    Place {
        from: by + p.from,
        to: by + p.to,
        items: p.items,
        item: p.item,
    }
}

fn run_place(s: &[u8], nullable: bool, row: usize) -> Place
    requires { Has (runs_by nullable) s.now row }
    ensures { (n : ℕ) → row < n → Told (runs_by nullable) n s.now row result }
{
    let at = run_at(s, row);
    let inner = at.inner;
    moved(item_place(nullable, &s[inner..], at.runs, at.run), inner)
}

// The entry that the key of a row names, in the block of the keys.
fn key_entry(s: &[u8], row: usize) -> Option<usize>
    requires { Counted s.now row × (4 * runs_in s.now ≤ length (items_of s.now)) }
    ensures { (slot_of result ≡ slot_at (items_of s.now) (run_at s.now row)) × (run_at s.now row < runs_in s.now) }
{
    let at = run_at(s, row);
    let inner = at.inner;
    let slot = slow_marks::slot_at(&s[inner..], at.run);
    if slot == 0 {
        return None;
    }
    Some(slot - 1)
}

fn key_place(s: &[u8], row: usize) -> Place
    requires { Has Dictionary s.now row }
    ensures { (n : ℕ) → row < n → Told Dictionary n s.now row result }
{
    let entries = slow_numbers::number_at(s, 8, 4, true) as usize;
    let behind = 12 + (slow_numbers::number_at(s, 0, 8, true) as usize);
    Place {
        from: behind,
        to: s.len(),
        items: entries,
        item: key_entry(&s[12..behind], row),
    }
}

// Where row `row` of a sound block of `n` rows stands.
pub fn place_of(e: Encoding, n: usize, s: &[u8], row: usize) -> Place
    requires { Opened e n s.now × (row < n) }
    ensures { (k : Kind) → rules_of k e n s.now ≡ 0 → Shows k e n s.now row result }
{
    match e {
        Encoding::Plain => item_place(false, s, n, row),
        Encoding::Nullable => item_place(true, s, n, row),
        Encoding::RunLength => run_place(s, false, row),
        Encoding::RunLengthNullable => run_place(s, true, row),
        Encoding::Dictionary => key_place(s, row),
    }
}
