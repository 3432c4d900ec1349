// What commands give: a column and a target, equal rows.
use builder::Builder;
use limits::refusal::Refusal;
use read_back::Named;
use script::{Input, refused, show};
use trial::Rows;

// What a builder is made by.
#[derive(Clone, Copy)]
pub struct Plan {
    named: Named,
    target: usize,
}

fn created(answer: Result<Builder, Refusal>) -> Builder {
    match answer {
        Ok(builder) => builder,
        Err(refusal) => {
            refused(u8::from(refusal));
            trial::no_builder()
        }
    }
}

impl Plan {
    // Taken and shown.
    pub fn taken(input: &mut Input) -> Plan {
        let named = Named::taken(input);
        let target = input.number();
        named.show();
        show(target);
        Plan { named, target }
    }

    // A builder with key target 0: the original has no other.
    pub fn builder(self) -> Builder {
        let named = self.named;
        let answer = builder::create_with_key_target(
            named.kind,
            named.encoding,
            named.width,
            self.target,
            0,
        );
        created(answer)
    }
}

// Equal rows, with a question before each.
pub fn rows<'a>(input: &mut Input<'a>) -> Rows<'a> {
    let equal = Rows::equal(input);
    Rows {
        asks: true,
        ..equal
    }
}
