// What an append writes into lent memory: an item with its end, its length and its flag, and the slots of its run.
#![tactic(auto)]

ghost use Rattle.std.specs.Prelude.{◌≡◌, Bool, true, false, cond, not, ◌&&◌, ℕ, ◌+◌, ◌/◌, ◌<◌, ◌≤◌, ◌^◌, length, set};
ghost use Rattle.std.proofs.lemmas.List.Edits.{sets};
ghost use Rattle.area.specs.Area.{over};
ghost use Rattle.encode.specs.Kinds.{blob};
ghost use Rattle.encode.specs.declared.Kind.TheVariants.{Fixed, Char, Blob};
ghost use Rattle.limits.specs.Limits.{MOST_COUNT};
ghost use Rattle.plain.specs.Rows.{null, int, bytes, row_of, fits, bytes_in};
ghost use Rattle.plain.specs.Plain.{item_of};
ghost use Rattle.nullable.specs.Nullable.{presence};
ghost use Rattle.slots.specs.Slots.{ends_with, lens_with, with_bit, flags_with, counts_with};

use encode::{Kind, Primitive};

// ---- the row

// Whether the kind takes the row.
pub fn row_fits(kind: Kind, present: bool, value: i64, item: &[u8]) -> bool
    ensures { result ≡ fits kind (row_of kind present value item.now) }
{
    if !present {
        return true;
    }
    match kind {
        Kind::Fixed(p) => p.takes(value),
        Kind::Char(w) => char_fits(w as usize, item),
        Kind::Blob(text) => blob_fits(text, item),
    }
}

// Whether char takes the bytes: they are no longer than the width, and text.
fn char_fits(w: usize, item: &[u8]) -> bool
    ensures { result ≡ fits (Char w) (bytes item.now) }
{
    if w < item.len() {
        return false;
    }
    utf8::is_text(item, 0, item.len())
}

// Whether blob takes the bytes, which it always does, or string, which takes text.
fn blob_fits(text: bool, item: &[u8]) -> bool
    ensures { result ≡ fits (Blob text) (bytes item.now) }
{
    if !text {
        return true;
    }
    utf8::is_text(item, 0, item.len())
}

// The length of the row's item.
pub fn item_len(kind: Kind, present: bool, value: i64, item: &[u8]) -> usize
    requires { fits kind (row_of kind present value item.now) ≡ true }
    ensures { result ≡ length (item_of kind (row_of kind present value item.now)) }
{
    match kind {
        Kind::Fixed(p) => p.width(),
        Kind::Char(w) => w as usize,
        Kind::Blob(_) => given_len(present, item),
    }
}

// The bytes of a row: none of a null.
fn given_len(present: bool, item: &[u8]) -> usize
    ensures { result ≡ length (bytes_in (cond present (bytes item.now) null)) }
{
    if present {
        return item.len();
    }
    0
}

// ---- its item

// An integer of a fixed kind; of a null, the default.
fn put_value(p: Primitive, present: bool, value: i64, items: &mut [u8], at: usize)
    requires { at + length (item_of (Fixed p) (cond present (int value) null)) ≤ length items.old }
    ensures { items.new ≡ over items.old at (item_of (Fixed p) (cond present (int value) null)) }
{
    if present {
        area::put(p.encode(value), p.width(), items, at);
        return;
    }
    area::put(p.encode(p.default_value()), p.width(), items, at);
}

// The bytes of a row, if it is not null, and zeros up to the width.
fn put_char(width: usize, present: bool, item: &[u8], items: &mut [u8], at: usize)
    requires { (fits (Char width) (cond present (bytes item.now) null) ≡ true)
        × (at + length (item_of (Char width) (cond present (bytes item.now) null)) ≤ length items.old) }
    ensures { items.new ≡ over items.old at (item_of (Char width) (cond present (bytes item.now) null)) }
{
    if present {
        let n = item.len();
        area::copy(item, 0, n, items, at);
        area::fill(items, at + n, width - n, 0);
        return;
    }
    area::fill(items, at, width, 0);
}

fn put_blob(present: bool, item: &[u8], items: &mut [u8], at: usize)
    requires { at + length (item_of blob (cond present (bytes item.now) null)) ≤ length items.old }
    ensures { items.new ≡ over items.old at (item_of blob (cond present (bytes item.now) null)) }
{
    if present {
        area::copy(item, 0, item.len(), items, at);
    }
}

fn put_item(kind: Kind, present: bool, value: i64, item: &[u8], items: &mut [u8], at: usize)
    requires { (fits kind (row_of kind present value item.now) ≡ true)
        × (at + length (item_of kind (row_of kind present value item.now)) ≤ length items.old) }
    ensures { items.new ≡ over items.old at (item_of kind (row_of kind present value item.now)) }
{
    match kind {
        Kind::Fixed(p) => put_value(p, present, value, items, at),
        Kind::Char(w) => put_char(w as usize, present, item, items, at),
        Kind::Blob(_) => put_blob(present, item, items, at),
    }
}

// The end of a blob item; the length of a char item, 0 for a null.
fn put_end(kind: Kind, i: usize, end: usize, ends: &mut [u32])
    requires { (end < 2 ^ 32) × ((text : Bool) → kind ≡ Blob text → i < length ends.old) }
    ensures { ends.new ≡ ends_with kind i end ends.old }
{
    let Kind::Blob(_) = kind else {
        return;
    };
    ends[i] = end as u32;
}

fn put_len(kind: Kind, i: usize, len: usize, lens: &mut [u8])
    requires { (w : ℕ) → kind ≡ Char w → (i < length lens.old) × (len ≤ w) }
    ensures { lens.new ≡ lens_with kind i len lens.old }
{
    // The length is at most `w`, so that it fits a byte too.
    let Kind::Char(w) = kind else {
        return;
    };
    lens[i] = len as u8;
}

// A byte with bit `s` set or cleared, and every other bit as it was.
fn with_bit(byte: u8, s: usize, bit: bool) -> u8
    requires { s < 8 }
    ensures { result ≡ with_bit byte s (cond bit 1 0) }
{
    let worth = 1u8 << s;
    if (byte >> s) % 2 == 1 {
        if bit {
            return byte;
        }
        return byte - worth;
    }
    if bit {
        return byte + worth;
    }
    byte
}

// Flag `i`; a new byte starts at 0.
fn put_flag(i: usize, bit: bool, flags: &mut [u8])
    requires { i / 8 < length flags.old }
    ensures { flags.new ≡ flags_with i (cond bit 1 0) flags.old }
{
    let k = i / 8;
    let s = i % 8;
    if s == 0 {
        flags[k] = with_bit(0, 0, bit);
        return;
    }
    flags[k] = with_bit(flags[k], s, bit);
}

// The item of a row that is stored as item `i` at `at`, its end `end`, its length, and its flag where there is one.
pub fn write_item(
    kind: Kind,
    flagged: bool,
    i: usize,
    at: usize,
    end: usize,
    present: bool,
    value: i64,
    item: &[u8],
    items: &mut [u8],
    ends: &mut [u32],
    flags: &mut [u8],
    lens: &mut [u8],
)
    requires { (fits kind (row_of kind present value item.now) ≡ true)
        × (end ≡ at + length (item_of kind (row_of kind present value item.now)))
        × (end ≤ length items.old)
        × (end < 2 ^ 32)
        × ((text : Bool) → kind ≡ Blob text → i < length ends.old)
        × ((w : ℕ) → kind ≡ Char w → i < length lens.old)
        × (flagged ≡ true → i / 8 < length flags.old) }
    ensures after { items.new ≡ over items.old at (item_of kind (row_of kind present value item.now)) }
    ensures ends_after { ends.new ≡ ends_with kind i end ends.old }
    ensures flags_after { flags.new
        ≡ cond flagged (flags_with i (presence (row_of kind present value item.now)) flags.old) flags.old }
    ensures lens_after { lens.new ≡ lens_with kind i (length (bytes_in (row_of kind present value item.now))) lens.old }
{
    put_item(kind, present, value, item, items, at);
    put_end(kind, i, end, ends);
    put_len(kind, i, given_len(present, item), lens);
    if flagged {
        put_flag(i, present, flags);
    }
}

// ---- its run

// The count of the row's run, where the last of `n` runs has `last` rows; the key of a new one.
pub fn write_run(
    keyed: bool,
    n: usize,
    last: usize,
    joins: bool,
    key: i32,
    counts: &mut [u32],
    keys: &mut [i32],
)
    requires { (joins ≡ true → (0 < n) × (n ≤ length counts.old) × (last < MOST_COUNT))
        × (joins ≡ false → n < length counts.old)
        × ((keyed && not joins) ≡ true → n < length keys.old) }
    ensures counts_after { counts.new ≡ counts_with n last joins counts.old }
    ensures keys_after { keys.new ≡ cond (keyed && not joins) (set keys.old n key) keys.old }
{
    if joins {
        counts[n - 1] = (last + 1) as u32;
        return;
    }
    counts[n] = 1;
    if keyed {
        keys[n] = key;
    }
}
