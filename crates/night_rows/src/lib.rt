// The rows of a column asked of both engines: of the reader that opening gave, used anew for each row, and of the second engine.
#![tactic(auto)]

ghost use Rattle.std.specs.Prelude.{Ok, ◌≡◌, true, [], ◌∷◌, ◌-◌, ◌≤◌, ◌<◌, pos, length, replicate};
ghost use Rattle.plain.specs.Plain.{places};
ghost use Rattle.fill.specs.Areas.{areas};
ghost use Rattle.descriptor.specs.Descriptor.{described_number};
ghost use Rattle.slow_answer.specs.Slow.{row_shown, refused_row};
ghost use Rattle.slow_laws.specs.Agreeing.{fresh};
ghost use Rattle.night_rows.specs.Night.{FILL as filling, Tells, lent, Sound, powers_among, rows_compared, verdict_of};

use block::Reader;
use descriptor::Descriptor;
use limits::refusal;
use slow_answer::RowGiven;

// What comes of a comparison: so many rows are the same; both refuse the block, by this number; or they differ, first at this row.
// The number is that of the opening's answer, a record that C has too.
#[derive(Clone, Copy)]
pub enum Verdict {
    Same(usize),
    Refused(u8),
    Differs(usize),
}

// The first row that the engines don't give alike.
#[derive(Clone, Copy)]
struct FirstDiffering(usize);

// The rows at either end that are compared of a column of more than twice as many.
const ENDS: usize = 1000;

// What lent memory is filled with: no flag.
const FILL: u8 = 0xaa;

// ---- lent memory compared

fn values() -> [i64; 2]
    ensures { result ≡ pos filling ∷ pos filling ∷ [] }
{
    [0xaa; 2]
}

fn flags() -> [u8; 2]
    ensures { result ≡ filling ∷ filling ∷ [] }
{
    [FILL; 2]
}

fn ends() -> [u32; 2]
    ensures { result ≡ filling ∷ filling ∷ [] }
{
    [0xaa; 2]
}

fn lent_same(
    v: &[i64],
    w: &[i64],
    f: &[u8],
    g: &[u8],
    e: &[u32],
    h: &[u32],
    one: &[u8],
    other: &[u8],
) -> bool
    ensures { Tells result (areas v.now f.now e.now one.now ≡ areas w.now g.now h.now other.now) }
{
    v == w && f == g && e == h && one == other
}

// ---- a row

// Whether a number and bytes are those of the second engine's answer, and the memory lent for the one that lent for the other.
fn answers_same(
    number: u8,
    bytes: usize,
    shown: RowGiven,
    v: &[i64],
    w: &[i64],
    f: &[u8],
    g: &[u8],
    e: &[u32],
    h: &[u32],
    one: &[u8],
    other: &[u8],
) -> bool
    ensures { Tells result ((number ≡ shown.number) × (bytes ≡ shown.bytes)
        × (areas v.now f.now e.now one.now ≡ areas w.now g.now h.now other.now)) }
{
    number == shown.number && bytes == shown.bytes && lent_same(v, w, f, g, e, h, one, other)
}

// Whether a reader that has given nothing yet and the second engine give row `r` alike: number, bytes and every lent slot.
fn row_alike(
    reader: Reader,
    d: Descriptor,
    block: &[u8],
    r: usize,
    v: &mut [i64],
    f: &mut [u8],
    e: &mut [u32],
    one: &mut [u8],
    w: &mut [i64],
    g: &mut [u8],
    h: &mut [u32],
    other: &mut [u8],
) -> bool
    requires { Sound reader d block.now × (r < d.rows) × (areas v.old f.old e.old one.old ≡ areas w.old g.old h.old other.old) }
    ensures { result ≡ true }
{
    let given = reader.read(block, r, 1, v, f, e, one);
    let shown = slow::row(d, block, r, w, g, h, other);
    answers_same(
        given.number,
        given.bytes,
        shown,
        v,
        w,
        f,
        g,
        e,
        h,
        one,
        other,
    )
}

// The same with two of each slot lent, and of the bytes what the caller lends.
fn row_same(
    reader: Reader,
    d: Descriptor,
    block: &[u8],
    r: usize,
    one: &mut [u8],
    other: &mut [u8],
) -> bool
    requires { Sound reader d block.now × (r < d.rows) × (length one.old ≡ length other.old) }
    ensures { result ≡ true }
{
    let mut v = values();
    let mut f = flags();
    let mut e = ends();
    let mut w = values();
    let mut g = flags();
    let mut h = ends();
    one.fill(FILL);
    other.fill(FILL);
    row_alike(
        reader, d, block, r, &mut v, &mut f, &mut e, one, &mut w, &mut g, &mut h, other,
    )
}

// Whether the second engine refuses row 0 by this number, with no bytes, and leaves all that it was lent.
fn refused_alike(
    number: u8,
    d: Descriptor,
    block: &[u8],
    v: &[i64],
    f: &[u8],
    e: &[u32],
    one: &[u8],
    w: &mut [i64],
    g: &mut [u8],
    h: &mut [u32],
    other: &mut [u8],
) -> bool
    requires { (row_shown d block.now 0 (areas w.old g.old h.old other.old) ≡ refused_row number (areas w.old g.old h.old other.old))
        × (areas v.now f.now e.now one.now ≡ areas w.old g.old h.old other.old) }
    ensures { result ≡ true }
{
    let shown = slow::row(d, block, 0, w, g, h, other);
    answers_same(number, 0, shown, v, w, f, g, e, h, one, other)
}

// The same with the memory that `row_same` lends.
fn refused_same(number: u8, d: Descriptor, block: &[u8], one: &mut [u8], other: &mut [u8]) -> bool
    requires { (row_shown d block.now 0 (lent (length other.old)) ≡ refused_row number (lent (length other.old))) × (length one.old ≡ length other.old) }
    ensures { result ≡ true }
{
    let v = values();
    let f = flags();
    let e = ends();
    let mut w = values();
    let mut g = flags();
    let mut h = ends();
    one.fill(FILL);
    other.fill(FILL);
    refused_alike(
        number, d, block, &v, &f, &e, one, &mut w, &mut g, &mut h, other,
    )
}

// ---- a column

// The rows from `from` up to, but without, `to`.
fn compare_from(
    reader: Reader,
    d: Descriptor,
    block: &[u8],
    from: usize,
    to: usize,
    one: &mut [u8],
    other: &mut [u8],
) -> Result<usize, FirstDiffering>
    requires { Sound reader d block.now × (from ≤ to) × (to ≤ d.rows) × (length one.old ≡ length other.old) }
    ensures { result ≡ Ok (to - from) }
{
    for r in from..to {
        if !row_same(reader, d, block, r, one, other) {
            return Err(FirstDiffering(r));
        }
    }
    Ok(to - from)
}

// The rows whose numbers are powers of two, from 1,024 on and below `to`: the loop doubles.
fn compare_powers(
    reader: Reader,
    d: Descriptor,
    block: &[u8],
    to: usize,
    one: &mut [u8],
    other: &mut [u8],
) -> Result<usize, FirstDiffering>
    requires { Sound reader d block.now × (to ≤ d.rows) × (length one.old ≡ length other.old) }
    ensures { result ≡ Ok (powers_among to (places 48 0)) }
{
    let mut r = 1024;
    let mut n = 0;
    while r < to {
        if !row_same(reader, d, block, r, one, other) {
            return Err(FirstDiffering(r));
        }
        n += 1;
        r *= 2;
    }
    Ok(n)
}

// Of `n` rows, more than 2,000: the first 1,000, the powers of two between, and the last 1,000.
fn compare_some(
    reader: Reader,
    d: Descriptor,
    block: &[u8],
    n: usize,
    one: &mut [u8],
    other: &mut [u8],
) -> Result<usize, FirstDiffering>
    requires { Sound reader d block.now × (n ≡ d.rows) × (2000 < n) × (length one.old ≡ length other.old) }
    ensures { result ≡ Ok (rows_compared n) }
{
    let low = compare_from(reader, d, block, 0, ENDS, one, other)?;
    let between = compare_powers(reader, d, block, n - ENDS, one, other)?;
    let high = compare_from(reader, d, block, n - ENDS, n, one, other)?;
    Ok(low + between + high)
}

fn compare_rows(
    reader: Reader,
    d: Descriptor,
    block: &[u8],
    one: &mut [u8],
    other: &mut [u8],
) -> Result<usize, FirstDiffering>
    requires { Sound reader d block.now × (length one.old ≡ length other.old) }
    ensures { result ≡ Ok (rows_compared d.rows) }
{
    if d.rows <= 2 * ENDS {
        return compare_from(reader, d, block, 0, d.rows, one, other);
    }
    compare_some(reader, d, block, d.rows, one, other)
}

// A block that the first engine opened with this number. Of no rows the second has none to give, and says 7.
fn compare_opened(
    number: u8,
    reader: Reader,
    d: Descriptor,
    block: &[u8],
    one: &mut [u8],
    other: &mut [u8],
) -> Verdict
    requires { (number ≡ described_number d block.now) × (number ≡ 0 → reader ≡ fresh d block.now) × (length one.old ≡ length other.old) }
    ensures { result ≡ verdict_of d block.now }
{
    if number != 0 {
        if refused_same(number, d, block, one, other) {
            return Verdict::Refused(number);
        }
        return Verdict::Differs(0);
    }
    if d.rows == 0 {
        if refused_same(refusal::TOO_FAR, d, block, one, other) {
            return Verdict::Same(0);
        }
        return Verdict::Differs(0);
    }
    match compare_rows(reader, d, block, one, other) {
        Ok(rows) => Verdict::Same(rows),
        Err(FirstDiffering(row)) => Verdict::Differs(row),
    }
}

// The same with a byte more lent than any row has.
pub fn compare_lent(
    number: u8,
    reader: Reader,
    d: Descriptor,
    block: &[u8],
    one: &mut [u8],
    other: &mut [u8],
) -> Verdict
    requires { (number ≡ described_number d block.now) × (number ≡ 0 → reader ≡ fresh d block.now) × (length block.now < length one.old) × (length block.now < length other.old) }
    ensures { result ≡ verdict_of d block.now }
{
    let n = block.len() + 1;
    compare_opened(number, reader, d, block, &mut one[..n], &mut other[..n])
}
