// An entry of a sound block as the item that a builder stores for it: a char with NULs up to its width, a bool as 0 or 1.
#![tactic(auto)]

ghost use Rattle.std.specs.Prelude.{◌≡◌, ◌+◌, ◌≤◌, ◌<◌, length};
ghost use Rattle.std.proofs.lemmas.List.Edits.{sets};
ghost use Rattle.limits.specs.Limits.{MOST_BYTES};
ghost use Rattle.encode.specs.declared.Kind.TheVariants.{Char};
ghost use Rattle.plain.specs.Plain.{item_of};
ghost use Rattle.dict.specs.Dictionary.{entry_row};
ghost use Rattle.repaired.specs.Repaired.{Entered};

use encode::Kind;

// The bytes of entry `slot` as an item, counted from 1 on.
pub fn item_len(kind: Kind, n: usize, items: &[u8], slot: usize) -> usize
    requires { Entered kind n items.now × (length items.now ≤ MOST_BYTES) × (0 < slot) × (slot ≤ n) }
    ensures { (result ≡ length (item_of kind (entry_row kind n items.now slot))) × (result ≤ MOST_BYTES) }
{
    match kind {
        Kind::Fixed(p) => p.width(),
        Kind::Char(w) => w as usize,
        Kind::Blob(_) => source::blob_of(n, items, slot).len,
    }
}

// Entry `slot`, counted from 1 on, as the item of a char of width `w`, and of any kind; the place behind it.
fn put_char(w: usize, n: usize, items: &[u8], slot: usize, out: &mut [u8], at: usize)
    requires { (w < 256) × Entered (Char w) n items.now × (0 < slot) × (slot ≤ n) × (at + w ≤ length out.old) }
    ensures { out.new ≡ sets out.old at (item_of (Char w) (entry_row (Char w) n items.now slot)) }
{
    let text = source::char_of(w, n, items, slot);
    area::copy(items, text.from, text.len, out, at);
    area::fill(out, at + text.len, w - text.len, 0);
}

pub fn put_item(kind: Kind, n: usize, items: &[u8], slot: usize, out: &mut [u8], at: usize) -> usize
    requires { Entered kind n items.now × (0 < slot) × (slot ≤ n) × (at + length (item_of kind (entry_row kind n items.now slot)) ≤ length out.old) }
    ensures value { result ≡ at + length (item_of kind (entry_row kind n items.now slot)) }
    ensures out_after { out.new ≡ sets out.old at (item_of kind (entry_row kind n items.now slot)) }
{
    match kind {
        Kind::Fixed(p) => {
            area::put(
                p.encode(plain::value_at(p, items, slot - 1)),
                p.width(),
                out,
                at,
            );
            at + p.width()
        }
        Kind::Char(w) => {
            put_char(w as usize, n, items, slot, out, at);
            at + (w as usize)
        }
        Kind::Blob(_) => {
            let text = source::blob_of(n, items, slot);
            area::copy(items, text.from, text.len, out, at);
            at + text.len
        }
    }
}
