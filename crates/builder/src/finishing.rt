// Finish.
ghost use Rattle.std.specs.Prelude.{◌≡◌, true, cond, [], ◌*◌, ◌≤◌, length};
ghost use Rattle.std.proofs.lemmas.List.Edits.{sets};
ghost use Rattle.limits.specs.Limits.{MOST_ITEMS};
ghost use Rattle.emit.specs.Parts.{held_counts};
ghost use Rattle.needs.specs.Needs.{coded};
ghost use Rattle.append.specs.Appending.{lent};
ghost use Rattle.builder.specs.Finishing.{held_block, finished, finished_by};
ghost use Rattle.builder.specs.Asking.{with_counts, Ready};

use crate::{Builder, Finished};
use encode::Kind;
use format::Encoding;
use limits::refusal::Refusal;
use needs::{Counted, Room};

// The numbers with another byte length of the counts.
fn with_counts(c: Counted, counts: usize) -> Counted
    ensures { result ≡ with_counts c counts }
{
    Counted { counts, ..c }
}

// The byte length of the counts held.
fn held_counts(c: Counted, e: Encoding, counts: &[u32]) -> usize
    requires { coded e ≡ true → (c.runs ≤ MOST_ITEMS) × (c.runs ≤ length counts.now) }
    ensures { (result ≡ cond (coded e) (length (held_counts c.runs counts.now)) 0) × (result ≤ 5 * MOST_ITEMS) }
{
    if needs::is_coded(e) {
        return emit::counts_len(c.runs, counts);
    }
    0
}

// The block that the areas hold, from the room's start; the counts have `size` bytes.
fn write_block(
    c: Counted,
    kind: Kind,
    e: Encoding,
    size: usize,
    items: &[u8],
    ends: &[u32],
    flags: &[u8],
    counts: &[u32],
    keys: &[i32],
    out: &mut [u8],
)
    requires { Ready kind e c (lent items.now ends.now flags.now counts.now keys.now [])
        × (size ≡ cond (coded e) (length (held_counts c.runs counts.now)) 0)
        × (length (held_block kind e c (lent items.now ends.now flags.now counts.now keys.now [])) ≤ length out.old) }
    ensures { out.new ≡ sets out.old 0
        (held_block kind e c (lent items.now ends.now flags.now counts.now keys.now [])) }
{
    match e {
        Encoding::Plain => {
            emit::write_inner(false, kind, c.rows, c.bytes, items, ends, flags, out, 0);
        }
        Encoding::Nullable => {
            emit::write_inner(true, kind, c.rows, c.bytes, items, ends, flags, out, 0);
        }
        Encoding::RunLength => {
            emit::write_coded(
                false, kind, c.runs, c.bytes, size, items, ends, flags, counts, out,
            );
        }
        Encoding::RunLengthNullable => {
            emit::write_coded(
                true, kind, c.runs, c.bytes, size, items, ends, flags, counts, out,
            );
        }
        Encoding::Dictionary => {
            emit::write_dictionary(
                kind, c.entries, c.bytes, c.runs, size, items, ends, counts, keys, out,
            );
        }
    }
}

impl Builder {
    // Writes the block that the areas hold into the room: its length. A refusal writes no byte.
    fn write(
        self,
        items: &[u8],
        ends: &[u32],
        flags: &[u8],
        counts: &[u32],
        keys: &[i32],
        lens: &[u8],
        out: &mut [u8],
    ) -> Result<usize, Refusal>
        ensures value { finished_by self result ≡ (finished self (lent items.now ends.now flags.now counts.now keys.now lens.now)
            out.old).answer }
        ensures out_after { out.new
            ≡ (finished self (lent items.now ends.now flags.now counts.now keys.now lens.now)
            out.old).out }
    {
        let Some(column) = format::column_of(self.kind, self.encoding, self.width) else {
            return Err(Refusal::Disagree);
        };
        let c = self.counted;
        let room = Room {
            items: items.len(),
            ends: ends.len(),
            flags: flags.len(),
            counts: counts.len(),
            keys: keys.len(),
            lens: lens.len(),
        };
        if needs::disagrees(c, column.kind, column.encoding, room) {
            return Err(Refusal::Disagree);
        }
        let size = held_counts(c, column.encoding, counts);
        let len = needs::block_bytes(with_counts(c, size), column.kind, column.encoding);
        if out.len() < len {
            return Err(Refusal::Room);
        }
        write_block(
            c,
            column.kind,
            column.encoding,
            size,
            items,
            ends,
            flags,
            counts,
            keys,
            out,
        );
        Ok(len)
    }

    // Writes the block that the areas hold into the room. The builder goes back as it was given.
    pub fn finish(
        self,
        items: &[u8],
        ends: &[u32],
        flags: &[u8],
        counts: &[u32],
        keys: &[i32],
        lens: &[u8],
        out: &mut [u8],
    ) -> Finished
        ensures value { result ≡ (finished self (lent items.now ends.now flags.now counts.now keys.now lens.now)
            out.old).answer }
        ensures out_after { out.new
            ≡ (finished self (lent items.now ends.now flags.now counts.now keys.now lens.now)
            out.old).out }
    {
        match self.write(items, ends, flags, counts, keys, lens, out) {
            Ok(len) => Finished {
                number: 0,
                len,
                builder: self,
            },
            Err(refusal) => Finished {
                number: u8::from(refusal),
                len: 0,
                builder: self,
            },
        }
    }
}
