// Commands 3 to 5: opening, reads, a given block.
use crate::showing::show_rows;
use crate::{Named, Reading};
use block::Reader;
use limits::refusal::Refusal;
use script::{first, refused, say, show};

// The part as the block. Nothing, where it is too long.
fn put(part: &[u8], block: &mut [u8]) {
    let n = part.len();
    if n <= block.len() {
        block[..n].copy_from_slice(part);
    }
}

fn opened(answer: Result<Reader, Refusal>) -> Reader {
    match answer {
        Ok(reader) => reader,
        Err(refusal) => {
            refused(u8::from(refusal));
            block::no_reader()
        }
    }
}

impl Reading<'_> {
    pub fn give_block(&mut self, block: &mut [u8]) {
        self.len = self.input.number();
        put(self.input.part(self.len), block);
        say(b"given");
        show(self.len);
    }

    // Goes on with another reader, and shows the rows that it has left.
    fn go_on(&mut self, reader: Reader) {
        let answer = reader.remaining();
        refused(answer.number);
        say(b" left");
        show(answer.rows);
        self.reader = answer.reader;
    }

    pub fn open(&mut self, room: &[u8]) {
        let named = Named::taken(&mut self.input);
        let rows = self.input.number();
        say(b"open");
        named.show();
        show(rows);
        let block = first(room, self.len);
        let answer = block::open(named.kind, named.encoding, named.width, rows, block);
        self.go_on(opened(answer));
    }

    pub fn read(&mut self, room: &[u8]) {
        let skip = self.input.number();
        let size = self.input.number();
        say(b"read");
        let mut values = [0i64; 512];
        let mut flags = [0u8; 512];
        let mut ends = [0u32; 512];
        let mut bytes = [0u8; 4096];
        let block = first(room, self.len);
        let answer = self.reader.read(
            block,
            skip,
            size,
            &mut values,
            &mut flags,
            &mut ends,
            &mut bytes,
        );
        refused(answer.number);
        show_rows(self.reader, answer.rows, &values, &flags, &ends, &bytes);
        self.go_on(answer.reader);
    }
}
