// The estimated size, and whether to finish before a next row, from what is counted and the targets alone.
#![tactic(auto)]

ghost use Rattle.std.specs.Prelude.{◌≡◌, false, cond, ◌+◌, ◌*◌, ◌≤◌, ltb};
ghost use Rattle.limits.specs.Limits.{MOST_ITEMS, MOST_BYTES};
ghost use Rattle.nullable.specs.Nullable.{bitmap_length};
ghost use Rattle.needs.specs.Needs.{flagged, stored_by, record_wrong};
ghost use Rattle.sizes.specs.Sizes.{inner_size, run_size, size_by, next_bytes, items_full, keys_full, full_by};

use encode::Kind;
use format::Encoding;
use needs::Counted;

// ---- the estimated size

// The bytes of a bitmap of `n` bits, where there is one.
fn flag_size(e: Encoding, n: usize) -> usize
    requires { n ≤ MOST_ITEMS }
    ensures { (result ≡ cond (flagged e) (bitmap_length n) 0) × (result ≤ 131072) }
{
    if needs::is_flagged(e) {
        return nullable::bitmap_len(n);
    }
    0
}

// A plain block's bytes, or a nullable one's: plain plus bitmap bytes.
fn inner_size(c: Counted, kind: Kind, e: Encoding) -> usize
    requires { (stored_by e c ≤ MOST_ITEMS) × (c.bytes ≤ 2 * MOST_BYTES) }
    ensures { (result ≡ inner_size kind e c) × (result ≤ 5 * MOST_ITEMS + 2 * MOST_BYTES) }
{
    let n = needs::stored(c, e);
    needs::plain_bytes(kind, n, c.bytes) + flag_size(e, n)
}

// Of a block of runs over an inner one: inner + 4 + 2 per run.
fn run_size(c: Counted, inner: usize) -> usize
    requires { (c.runs ≤ MOST_ITEMS) × (inner ≤ 5 * MOST_ITEMS + 2 * MOST_BYTES) }
    ensures { (result ≡ run_size c inner) × (result ≤ 8 * MOST_ITEMS + 2 * MOST_BYTES) }
{
    inner + 4 + 2 * c.runs
}

pub fn size_of(c: Counted, kind: Kind, e: Encoding) -> usize
    requires { record_wrong kind e c ≡ false }
    ensures { result ≡ size_by kind e c }
{
    let inner = inner_size(c, kind, e);
    match e {
        Encoding::Plain | Encoding::Nullable => inner,
        Encoding::RunLength | Encoding::RunLengthNullable => run_size(c, inner),
        Encoding::Dictionary => 8 + run_size(c, 4 * c.runs) + inner,
    }
}

// ---- should_finish

// Whether three numbers together exceed the target; `len` can be any number, and no sum wraps.
fn exceed(target: usize, have: usize, more: usize, len: usize) -> bool
    requires { (have ≤ 4 * MOST_ITEMS + 2 * MOST_BYTES) × (more ≤ 256) }
    ensures { result ≡ ltb target (have + more + len) }
{
    if target < len {
        return true;
    }
    target - len < have + more
}

// The bytes of the next item that don't hang on its length; those that do: of a blob that is not null.
fn next_fixed(kind: Kind) -> usize
    ensures { (result ≡ next_bytes kind false 0) × (result ≤ 255) }
{
    match kind {
        Kind::Fixed(p) => p.width(),
        Kind::Char(w) => w as usize,
        Kind::Blob(_) => 4,
    }
}

fn next_len(kind: Kind, present: bool, len: usize) -> usize
    ensures { next_bytes kind false 0 + result ≡ next_bytes kind present len }
{
    match kind {
        Kind::Fixed(_) | Kind::Char(_) => 0,
        Kind::Blob(_) => {
            if present {
                return len;
            }
            0
        }
    }
}

// A nullable block counts one byte more.
fn flag_more(e: Encoding) -> usize
    ensures { (result ≡ cond (flagged e) 1 0) × (result ≤ 1) }
{
    if needs::is_flagged(e) {
        return 1;
    }
    0
}

// The rule of the stored items.
fn items_full(c: Counted, target: usize, kind: Kind, e: Encoding, present: bool, len: usize) -> bool
    requires { record_wrong kind e c ≡ false }
    ensures { result ≡ items_full kind e c target present len }
{
    if c.bytes == 0 {
        return false;
    }
    let have = needs::plain_bytes(kind, needs::stored(c, e), c.bytes);
    let more = next_fixed(kind) + flag_more(e);
    exceed(target, have, more, next_len(kind, present, len))
}

// The rule of the keys: four bytes a run, and four more.
fn keys_full(c: Counted, key: usize) -> bool
    requires { c.runs ≤ MOST_ITEMS }
    ensures { result ≡ keys_full c key }
{
    if c.runs == 0 {
        return false;
    }
    key < 4 * c.runs + 4
}

pub fn is_full(
    c: Counted,
    target: usize,
    key: usize,
    kind: Kind,
    e: Encoding,
    present: bool,
    len: usize,
) -> bool
    requires { record_wrong kind e c ≡ false }
    ensures { result ≡ full_by kind e c target key present len }
{
    let items = items_full(c, target, kind, e, present, len);
    if items {
        return true;
    }
    if needs::is_keyed(e) {
        return keys_full(c, key);
    }
    false
}
