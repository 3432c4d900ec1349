// The first pass over the rows of a block: it looks at their counts, ends and keys, and adds up their bytes. It asks for the kind before
// its loops, not in them.
#![tactic(auto)]

ghost use Rattle.std.specs.Prelude.{Bool, ◌≡◌, ◌+◌, ◌*◌, ◌<◌, ◌≤◌, ◌^◌, length};
ghost use Rattle.limits.specs.Limits.{MOST_ITEMS, MOST_BYTES};
ghost use Rattle.encode.specs.Kinds.{blob};
ghost use Rattle.encode.specs.declared.Kind.TheVariants.{Char, Blob};
ghost use Rattle.plain.specs.Plain.{least_bytes};
ghost use Rattle.source.specs.Rows.{size_by, good_by, Ready, Starts, steps_of, capped, weight_of, weighed_by, Texts};

use encode::Kind;
use rle::Spot;
use source::{Source, Weighed};

// What stands for all sums that are more than a read can give.
const PAST_GIVEN: usize = limits::MOST_GIVEN + 1;

// `rows` rows of `len` bytes more.
fn heavier(total: usize, rows: usize, len: usize) -> usize
    requires { (total ≤ 2 ^ 32) × (rows < 2 ^ 32) × (len ≤ MOST_BYTES) }
    ensures { result ≡ capped (total + rows * len) }
{
    let sum = total + rows * len;
    if PAST_GIVEN < sum {
        return PAST_GIVEN;
    }
    sum
}

// Looks at the next `n` rows, run by run. A loop for the fixed kinds, whose rows have no bytes, one for char and one for blob, so
// that no loop asks for the kind.
fn weigh_fixed(
    s: Source,
    counts: &[u8],
    marks: &[u8],
    items: &[u8],
    from: Spot,
    n: usize,
) -> Option<Weighed>
    requires { Ready s marks.now items.now × Starts s from n × (Texts s.kind → ⊥) }
    ensures { result ≡ weighed_by (good_by s marks.now items.now) (size_by s marks.now items.now) (steps_of s counts.now n from) }
{
    let mut at = from;
    let mut left = n;
    while 0 < left {
        let look = source::seen_run(s, counts, marks, items, at, left)?;
        left -= look.rows;
        at = look.next;
    }
    Some(Weighed { bytes: 0, next: at })
}

fn weigh_chars(
    w: usize,
    s: Source,
    counts: &[u8],
    marks: &[u8],
    items: &[u8],
    from: Spot,
    n: usize,
) -> Option<Weighed>
    requires { Ready s marks.now items.now × Starts s from n × (s.kind ≡ Char w) × (w < 256) }
    ensures { result ≡ weighed_by (good_by s marks.now items.now) (size_by s marks.now items.now) (steps_of s counts.now n from) }
{
    let mut at = from;
    let mut left = n;
    let mut total: usize = 0;
    while 0 < left {
        let look = source::seen_run(s, counts, marks, items, at, left)?;
        let slot = source::shown_of(s, marks, items, at.run, look.seen);
        let range = source::char_of(w, s.items, items, slot);
        total = heavier(total, look.rows, range.len);
        left -= look.rows;
        at = look.next;
    }
    Some(Weighed {
        bytes: total,
        next: at,
    })
}

// The bytes of a blob item that is looked at, counted from 1 on; or it breaks the rule of the ends.
fn blob_weight(n: usize, items: &[u8], slot: usize) -> Option<usize>
    requires { (slot ≤ n) × (n ≤ MOST_ITEMS) × (least_bytes blob n ≤ length items.now) }
    ensures { result ≡ weight_of blob n items.now slot }
{
    if slot == 0 {
        return Some(0);
    }
    let from = plain::start_at(items, slot - 1);
    let to = plain::end_at(items, slot - 1);
    if to < from {
        return None;
    }
    if items.len() - 4 * n < to {
        return None;
    }
    Some(to - from)
}

// The bytes of a row that shows an item of `len` bytes, or none.
fn len_of(slot: usize, len: usize) -> usize
    ensures { (slot ≡ 0 → result ≡ 0) × (0 < slot → result ≡ len) × (result ≤ len) }
{
    if slot == 0 { 0 } else { len }
}

fn weigh_blobs(
    s: Source,
    counts: &[u8],
    marks: &[u8],
    items: &[u8],
    from: Spot,
    n: usize,
) -> Option<Weighed>
    requires { Ready s marks.now items.now × Starts s from n × ((text : Bool) × (s.kind ≡ Blob text)) }
    ensures { result ≡ weighed_by (good_by s marks.now items.now) (size_by s marks.now items.now) (steps_of s counts.now n from) }
{
    let mut at = from;
    let mut left = n;
    let mut total: usize = 0;
    while 0 < left {
        let look = source::seen_run(s, counts, marks, items, at, left)?;
        let len = blob_weight(s.items, items, look.seen)?;
        let slot = source::shown_of(s, marks, items, at.run, look.seen);
        total = heavier(total, look.rows, len_of(slot, len));
        left -= look.rows;
        at = look.next;
    }
    Some(Weighed {
        bytes: total,
        next: at,
    })
}

// Looks at the next `n` rows.
pub fn weigh(
    s: Source,
    counts: &[u8],
    marks: &[u8],
    items: &[u8],
    from: Spot,
    n: usize,
) -> Option<Weighed>
    requires { Ready s marks.now items.now × Starts s from n }
    ensures { result ≡ weighed_by (good_by s marks.now items.now) (size_by s marks.now items.now) (steps_of s counts.now n from) }
{
    let kind = s.kind;
    match kind {
        Kind::Fixed(_) => weigh_fixed(s, counts, marks, items, from, n),
        Kind::Char(w) => weigh_chars(w as usize, s, counts, marks, items, from, n),
        Kind::Blob(_) => weigh_blobs(s, counts, marks, items, from, n),
    }
}
