// The second pass over the rows of char, blob and string: their flags, their ends and their bytes, run by run. The first pass has found them
// there and good.
#![tactic(auto)]

ghost use Rattle.std.specs.Prelude.{Bool, ◌≡◌, map, ◌+◌, ◌*◌, ◌<◌, ◌≤◌, ◌^◌, length, take, drop};
ghost use Rattle.std.proofs.lemmas.List.Edits.{sets};
ghost use Rattle.limits.specs.Limits.{MOST_BYTES};
ghost use Rattle.area.specs.Area.{repeats, climbs};
ghost use Rattle.encode.specs.declared.Kind.TheVariants.{Char, Blob};
ghost use Rattle.plain.specs.Plain.{joined, ends_from};
ghost use Rattle.rle.specs.Pieces.{step_runs};
ghost use Rattle.source.specs.Rows.{text_by, size_by, flag_by, good_by, Ready, Starts, steps_of, sum_of, Writes, Texts};

use encode::Kind;
use plain::Range;
use rle::Spot;
use source::Source;

// Writes `rows` rows of one text: its bytes from `at` on, and the ends. What comes back is where the bytes end.
fn put_text(
    items: &[u8],
    range: Range,
    rows: usize,
    ends: &mut [u32],
    to: usize,
    bytes: &mut [u8],
    at: usize,
) -> usize
    requires { (range.from + range.len ≤ length items.now) × (length items.now ≤ MOST_BYTES)
        × (to + rows ≤ length ends.old) × (at + rows * range.len ≤ length bytes.old) × (at + rows * range.len < 2 ^ 32) }
    ensures value { result ≡ at + rows * range.len }
    ensures ends_after { ends.new ≡ sets ends.old to (climbs rows at range.len) }
    ensures bytes_after { bytes.new ≡ sets bytes.old at (repeats rows (take range.len (drop range.from items.now))) }
{
    area::copies(items, range.from, range.len, bytes, at, rows);
    area::climb(ends, to, rows, at as u32, range.len as u32);
    at + rows * range.len
}

// Writes the flags, the ends and the bytes of the next `n` rows, run by run: a loop for char and one for blob. A run is looked up
// once for all three.
fn put_chars(
    w: usize,
    s: Source,
    counts: &[u8],
    marks: &[u8],
    items: &[u8],
    from: Spot,
    n: usize,
    flags: &mut [u8],
    ends: &mut [u32],
    bytes: &mut [u8],
)
    requires { Ready s marks.now items.now × Starts s from n × (s.kind ≡ Char w)
        × Writes (good_by s marks.now items.now) (steps_of s counts.now n from) n (length ends.old) × (n ≤ length flags.old)
        × (sum_of (size_by s marks.now items.now) (step_runs (steps_of s counts.now n from)) ≤ length bytes.old)
        × (sum_of (size_by s marks.now items.now) (step_runs (steps_of s counts.now n from)) < 2 ^ 32) × (w < 256) }
    ensures flags_after { flags.new ≡ sets flags.old 0 (map (flag_by s marks.now items.now) (step_runs (steps_of s counts.now n from))) }
    ensures ends_after { ends.new ≡ sets ends.old 0 (ends_from 0 (map (text_by s marks.now items.now) (step_runs (steps_of s counts.now n from)))) }
    ensures bytes_after { bytes.new ≡ sets bytes.old 0 (joined (text_by s marks.now items.now) (step_runs (steps_of s counts.now n from))) }
{
    let mut place = from;
    let mut left = n;
    let mut to: usize = 0;
    let mut at: usize = 0;
    while 0 < left {
        let run = source::shown_run(s, counts, marks, items, place, left);
        let rows = run.rows;
        let next = run.next;
        let range = source::char_of(w, s.items, items, run.slot);
        let flag = source::flag_of(run.slot);
        source::fill_flags(flags, to, rows, flag);
        at = put_text(items, range, rows, ends, to, bytes, at);
        to += rows;
        left -= rows;
        place = next;
    }
}

fn put_blobs(
    s: Source,
    counts: &[u8],
    marks: &[u8],
    items: &[u8],
    from: Spot,
    n: usize,
    flags: &mut [u8],
    ends: &mut [u32],
    bytes: &mut [u8],
)
    requires { Ready s marks.now items.now × Starts s from n × ((text : Bool) × (s.kind ≡ Blob text))
        × Writes (good_by s marks.now items.now) (steps_of s counts.now n from) n (length ends.old) × (n ≤ length flags.old)
        × (sum_of (size_by s marks.now items.now) (step_runs (steps_of s counts.now n from)) ≤ length bytes.old)
        × (sum_of (size_by s marks.now items.now) (step_runs (steps_of s counts.now n from)) < 2 ^ 32) }
    ensures flags_after { flags.new ≡ sets flags.old 0 (map (flag_by s marks.now items.now) (step_runs (steps_of s counts.now n from))) }
    ensures ends_after { ends.new ≡ sets ends.old 0 (ends_from 0 (map (text_by s marks.now items.now) (step_runs (steps_of s counts.now n from)))) }
    ensures bytes_after { bytes.new ≡ sets bytes.old 0 (joined (text_by s marks.now items.now) (step_runs (steps_of s counts.now n from))) }
{
    let mut place = from;
    let mut left = n;
    let mut to: usize = 0;
    let mut at: usize = 0;
    while 0 < left {
        let run = source::shown_run(s, counts, marks, items, place, left);
        let rows = run.rows;
        let next = run.next;
        let range = source::blob_of(s.items, items, run.slot);
        let flag = source::flag_of(run.slot);
        source::fill_flags(flags, to, rows, flag);
        at = put_text(items, range, rows, ends, to, bytes, at);
        to += rows;
        left -= rows;
        place = next;
    }
}

// Writes the flags, the ends and the bytes of the next `n` rows of char, blob or string.
pub fn put_texts(
    s: Source,
    counts: &[u8],
    marks: &[u8],
    items: &[u8],
    from: Spot,
    n: usize,
    flags: &mut [u8],
    ends: &mut [u32],
    bytes: &mut [u8],
)
    requires { Ready s marks.now items.now × Starts s from n
        × Writes (good_by s marks.now items.now) (steps_of s counts.now n from) n (length ends.old) × (n ≤ length flags.old)
        × (sum_of (size_by s marks.now items.now) (step_runs (steps_of s counts.now n from)) ≤ length bytes.old)
        × (sum_of (size_by s marks.now items.now) (step_runs (steps_of s counts.now n from)) < 2 ^ 32) × Texts s.kind }
    ensures flags_after { flags.new ≡ sets flags.old 0 (map (flag_by s marks.now items.now) (step_runs (steps_of s counts.now n from))) }
    ensures ends_after { ends.new ≡ sets ends.old 0 (ends_from 0 (map (text_by s marks.now items.now) (step_runs (steps_of s counts.now n from)))) }
    ensures bytes_after { bytes.new ≡ sets bytes.old 0 (joined (text_by s marks.now items.now) (step_runs (steps_of s counts.now n from))) }
{
    let kind = s.kind;
    match kind {
        Kind::Fixed(_) => {}
        Kind::Char(w) => put_chars(
            w as usize, s, counts, marks, items, from, n, flags, ends, bytes,
        ),
        Kind::Blob(_) => put_blobs(s, counts, marks, items, from, n, flags, ends, bytes),
    }
}
