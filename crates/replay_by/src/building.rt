// Commands 0 to 2: creation, rows, the end.
use crate::{Plan, State, rows, whole};
use cells::Areas;
use script::{first, refused, say, show_bytes};

impl State<'_> {
    pub fn create(&mut self) {
        say(b"column");
        self.builder = Plan::taken(&mut self.reading.input).builder();
    }

    pub fn append(&mut self, areas: &mut Areas) {
        say(b"row");
        let equal = rows(&mut self.reading.input);
        let turn = trial::append_rows(self.builder, whole(), areas, equal);
        refused(turn.number);
        self.builder = turn.builder;
    }

    // Both questions once more, for a null, and then the block.
    pub fn finish(&mut self, areas: &Areas, room: &mut [u8]) {
        say(b"end");
        let builder = trial::ask(self.builder, false, 0);
        let answer = builder.finish(
            areas.items,
            areas.ends,
            areas.flags,
            areas.counts,
            areas.keys,
            areas.lens,
            room,
        );
        refused(answer.number);
        say(b"\nblock ");
        show_bytes(first(room, answer.len));
        self.builder = answer.builder;
        self.reading.len = answer.len;
    }
}
