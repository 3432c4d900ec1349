// Cells in hex, and their sums.
use crate::{Areas, Lent};
use script::{first, past, say, show_bytes, show_each, show_sums};

// The cells that are shown of so many lent ones: two more.
fn shown<T>(area: &[T], lent: usize) -> &[T] {
    first(area, past(lent, 2))
}

pub fn show_first(area: &[u8], lent: usize) {
    show_bytes(shown(area, lent));
}

impl Areas<'_> {
    // The lent cells, and two past them.
    pub fn show(&self, lent: Lent) {
        say(b"\n items ");
        show_first(self.items, lent.items);
        say(b"\n ends");
        show_each(shown(self.ends, lent.ends));
        say(b"\n flags ");
        show_first(self.flags, lent.flags);
        say(b"\n counts");
        show_each(shown(self.counts, lent.counts));
        say(b"\n keys");
        show_each(shown(self.keys, lent.keys));
        say(b"\n lens ");
        show_first(self.lens, lent.lens);
    }

    // The sums over each area, to its end.
    pub fn show_sums(&self, room: &[u8]) {
        say(b"sums");
        show_sums(self.items);
        show_sums(self.ends);
        show_sums(self.flags);
        show_sums(self.counts);
        show_sums(self.keys);
        show_sums(self.lens);
        show_sums(room);
    }
}
