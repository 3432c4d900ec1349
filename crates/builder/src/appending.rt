// Append.
ghost use Rattle.std.specs.Prelude.{◌≡◌};
ghost use Rattle.append.specs.Appending.{lent};
ghost use Rattle.builder.specs.Building.{appended, appended_times};

use crate::{Appended, Builder};

impl Builder {
    // Appends one row: whether it is present, its integer for a fixed kind, its bytes for char, blob and string.
    pub fn append(
        self,
        items: &mut [u8],
        ends: &mut [u32],
        flags: &mut [u8],
        counts: &mut [u32],
        keys: &mut [i32],
        lens: &mut [u8],
        present: bool,
        value: i64,
        item: &[u8],
    ) -> Appended
        ensures value { result ≡ (appended self (lent items.old ends.old flags.old counts.old keys.old lens.old)
            present value item.now).answer }
        ensures after { items.new
            ≡ (appended self (lent items.old ends.old flags.old counts.old keys.old lens.old)
            present value item.now).areas.items }
        ensures ends_after { ends.new
            ≡ (appended self (lent items.old ends.old flags.old counts.old keys.old lens.old)
            present value item.now).areas.ends }
        ensures flags_after { flags.new
            ≡ (appended self (lent items.old ends.old flags.old counts.old keys.old lens.old)
            present value item.now).areas.flags }
        ensures counts_after { counts.new
            ≡ (appended self (lent items.old ends.old flags.old counts.old keys.old lens.old)
            present value item.now).areas.counts }
        ensures keys_after { keys.new
            ≡ (appended self (lent items.old ends.old flags.old counts.old keys.old lens.old)
            present value item.now).areas.keys }
        ensures lens_after { lens.new
            ≡ (appended self (lent items.old ends.old flags.old counts.old keys.old lens.old)
            present value item.now).areas.lens }
    {
        self.append_times(
            items, ends, flags, counts, keys, lens, present, value, item, 1,
        )
    }

    // Appends one row so many times, all or none: whether it is present, its integer for a fixed kind, its bytes for char, blob and string.
    pub fn append_times(
        self,
        items: &mut [u8],
        ends: &mut [u32],
        flags: &mut [u8],
        counts: &mut [u32],
        keys: &mut [i32],
        lens: &mut [u8],
        present: bool,
        value: i64,
        item: &[u8],
        times: usize,
    ) -> Appended
        ensures value { result ≡ (appended_times self (lent items.old ends.old flags.old counts.old keys.old lens.old)
            times present value item.now).answer }
        ensures after { items.new
            ≡ (appended_times self (lent items.old ends.old flags.old counts.old keys.old lens.old)
            times present value item.now).areas.items }
        ensures ends_after { ends.new
            ≡ (appended_times self (lent items.old ends.old flags.old counts.old keys.old lens.old)
            times present value item.now).areas.ends }
        ensures flags_after { flags.new
            ≡ (appended_times self (lent items.old ends.old flags.old counts.old keys.old lens.old)
            times present value item.now).areas.flags }
        ensures counts_after { counts.new
            ≡ (appended_times self (lent items.old ends.old flags.old counts.old keys.old lens.old)
            times present value item.now).areas.counts }
        ensures keys_after { keys.new
            ≡ (appended_times self (lent items.old ends.old flags.old counts.old keys.old lens.old)
            times present value item.now).areas.keys }
        ensures lens_after { lens.new
            ≡ (appended_times self (lent items.old ends.old flags.old counts.old keys.old lens.old)
            times present value item.now).areas.lens }
    {
        let Some(column) = format::column_of(self.kind, self.encoding, self.width) else {
            return Appended {
                number: limits::refusal::DISAGREE,
                builder: self,
            };
        };
        let c = self.counted;
        match append_block::to_block(
            c,
            column.kind,
            column.encoding,
            items,
            ends,
            flags,
            counts,
            keys,
            lens,
            present,
            value,
            item,
            times,
        ) {
            Ok(counted) => Appended {
                number: 0,
                builder: self.counting(counted),
            },
            Err(refusal) => Appended {
                number: u8::from(refusal),
                builder: self,
            },
        }
    }
}
