// Commands on the record, on what is lent and on what is shown.
use crate::{State, View};
use builder::Builder;
use cells::{Area, Lent};
use limits::refusal::Refusal;
use script::{Input, say, show, show_byte};
use trial::show_builder;

fn created(answer: Result<Builder, Refusal>) -> Builder {
    say(b"create");
    match answer {
        Ok(b) => {
            show(0);
            show_builder(b);
            b
        }
        Err(refusal) => {
            show_byte(u8::from(refusal));
            trial::no_builder()
        }
    }
}

// What a creation is given: the numbers of a column, and the target.
#[derive(Clone, Copy)]
struct Wanted {
    kind: usize,
    encoding: usize,
    width: usize,
    target: usize,
}

impl Wanted {
    fn taken(input: &mut Input) -> Wanted {
        Wanted {
            kind: input.number(),
            encoding: input.number(),
            width: input.number(),
            target: input.number(),
        }
    }
}

impl<'a> State<'a> {
    // The state before the first command.
    pub fn new(bytes: &'a [u8]) -> State<'a> {
        State {
            input: Input::new(bytes),
            view: View::Refused,
            lent: Lent {
                items: 0,
                ends: 0,
                flags: 0,
                counts: 0,
                keys: 0,
                lens: 0,
            },
            builder: trial::no_builder(),
            number: 0,
        }
    }

    pub fn create(&mut self) {
        let wanted = Wanted::taken(&mut self.input);
        let answer = builder::create(wanted.kind, wanted.encoding, wanted.width, wanted.target);
        self.builder = created(answer);
    }

    pub fn create_with_key_target(&mut self) {
        let wanted = Wanted::taken(&mut self.input);
        let answer = builder::create_with_key_target(
            wanted.kind,
            wanted.encoding,
            wanted.width,
            wanted.target,
            self.input.number(),
        );
        self.builder = created(answer);
    }

    pub fn estimate(&mut self) {
        let answer = self.builder.estimate();
        say(b"estimate");
        show(answer.number);
        show(answer.size);
        self.builder = answer.builder;
    }

    pub fn should_finish(&mut self) {
        let present = self.input.number() != 0;
        let answer = self.builder.should_finish(present, self.input.number());
        say(b"should");
        show(answer.number);
        show(answer.full);
        self.builder = answer.builder;
    }

    pub fn set(&mut self) {
        say(b"set");
        let field = self.input.number();
        self.builder = trial::with(self.builder, field, self.input.number());
    }

    pub fn lend(&mut self) {
        say(b"lend");
        let area = Area::from(self.input.number());
        let n = self.input.number();
        match area {
            Area::Items => self.lent.items = n,
            Area::Ends => self.lent.ends = n,
            Area::Flags => self.lent.flags = n,
            Area::Counts => self.lent.counts = n,
            Area::Keys => self.lent.keys = n,
            Area::Lens | Area::Room => self.lent.lens = n,
        }
    }

    pub fn set_view(&mut self) {
        say(b"view");
        self.view = View::from(self.input.number());
    }
}
