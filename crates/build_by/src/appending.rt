// Commands 1, 2 and 13.
use crate::{Command, State};
use cells::Areas;
use script::{Input, first, say, show};
use trial::{Presence, Rows, Turn};

// Where the bytes of rows come from: from the command, from the start of the room, or from their integers.
#[derive(Clone, Copy)]
enum Source {
    Here,
    Room,
    Integer,
}

impl From<usize> for Source {
    fn from(number: usize) -> Source {
        match number {
            0 => Source::Here,
            2 => Source::Integer,
            _ => Source::Room,
        }
    }
}

// Rows of integers that go on by a step.
fn rows<'r, 'a: 'r>(input: &mut Input<'a>, room: &'r [u8]) -> Rows<'r> {
    let times = input.number();
    let presence = Presence::from(input.number());
    let start = input.number() as u64;
    let step = input.number() as u64;
    let period = input.number();
    let source = Source::from(input.number());
    let len = input.number();
    let text = match source {
        Source::Here => Some(input.part(len)),
        Source::Room => Some(first(room, len)),
        Source::Integer => None,
    };
    Rows {
        times,
        presence,
        start,
        step,
        period,
        text,
        len,
        asks: false,
    }
}

impl State<'_> {
    // The state after rows that came to this.
    fn appended(&mut self, turn: Turn) {
        say(b"append");
        show(turn.number);
        show(turn.done);
        trial::show_builder(turn.builder);
        self.builder = turn.builder;
        self.number = turn.number;
    }

    // The rows of a command: equal ones by one call, others one after another.
    pub fn append(&mut self, command: Command, areas: &mut Areas, room: &[u8]) {
        let turn = match command {
            Command::EqualRows => {
                let equal = Rows::equal(&mut self.input);
                trial::append_times(self.builder, self.lent, areas, equal)
            }
            Command::Rows => {
                let many = rows(&mut self.input, room);
                trial::append_rows(self.builder, self.lent, areas, many)
            }
            _ => {
                let one = Rows::one(&mut self.input);
                trial::append_rows(self.builder, self.lent, areas, one)
            }
        };
        self.appended(turn);
    }
}
