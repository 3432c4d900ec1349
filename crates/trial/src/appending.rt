// Rows appended one after another, or all by one call.
use crate::{Presence, Rows};
use builder::{Appended, Builder};
use cells::{Areas, Lent, part};
use script::{first, past, refused, show};

// What rows came to so far: the last answer's number, how many were appended, the record, the integer of the next and how many came
// since the first integer.
#[derive(Clone, Copy)]
pub struct Turn {
    pub number: u8,
    pub done: usize,
    pub builder: Builder,
    value: u64,
    since: usize,
}

impl Turn {
    // The turn before the first row.
    fn first(builder: Builder, rows: Rows) -> Turn {
        Turn {
            number: 0,
            done: 0,
            builder,
            value: rows.start,
            since: 0,
        }
    }

    // Whether its row is there.
    fn is_present(self, rows: Rows) -> bool {
        match rows.presence {
            Presence::Null => false,
            Presence::There => true,
            Presence::NullAtFirst => self.since != 0,
        }
    }

    // The turn after a row that was answered so.
    fn after(self, rows: Rows, answer: Appended) -> Turn {
        let mut next = self;
        next.builder = answer.builder;
        next.number = answer.number;
        if answer.number != 0 {
            return next;
        }
        next.done = past(self.done, 1);
        next.since = past(self.since, 1);
        next.value = self.value.wrapping_add(rows.step);
        if next.since == rows.period {
            next.since = 0;
            next.value = rows.start;
        }
        next
    }
}

// Whether to finish before a row, and the estimated size; the record that came back.
pub fn ask(builder: Builder, present: bool, len: usize) -> Builder {
    let asked = builder.should_finish(present, len);
    refused(asked.number);
    show(asked.full);
    let estimated = asked.builder.estimate();
    refused(estimated.number);
    show(estimated.size);
    estimated.builder
}

// The row of a turn.
fn append_row(lent: Lent, areas: &mut Areas, rows: Rows, turn: Turn) -> Turn {
    let present = turn.is_present(rows);
    let mut builder = turn.builder;
    if rows.asks {
        builder = ask(builder, present, rows.len);
    }
    let own = turn.value.to_le_bytes();
    let answer = builder.append(
        part(areas.items, lent.items),
        part(areas.ends, lent.ends),
        part(areas.flags, lent.flags),
        part(areas.counts, lent.counts),
        part(areas.keys, lent.keys),
        part(areas.lens, lent.lens),
        present,
        turn.value.cast_signed(),
        rows.text.unwrap_or(first(&own, rows.len)),
    );
    turn.after(rows, answer)
}

// All the rows, up to one that is refused.
pub fn append_rows(builder: Builder, lent: Lent, areas: &mut Areas, rows: Rows) -> Turn {
    let mut turn = Turn::first(builder, rows);
    for _ in 0..rows.times {
        turn = append_row(lent, areas, rows, turn);
        if turn.number != 0 {
            break;
        }
    }
    turn
}

// The first row so many times, by one call: all or none.
pub fn append_times(builder: Builder, lent: Lent, areas: &mut Areas, rows: Rows) -> Turn {
    let answer = builder.append_times(
        part(areas.items, lent.items),
        part(areas.ends, lent.ends),
        part(areas.flags, lent.flags),
        part(areas.counts, lent.counts),
        part(areas.keys, lent.keys),
        part(areas.lens, lent.lens),
        rows.presence != Presence::Null,
        rows.start.cast_signed(),
        rows.text.unwrap_or(b""),
        rows.times,
    );
    let mut turn = Turn::first(answer.builder, rows);
    turn.number = answer.number;
    if answer.number == 0 {
        turn.done = rows.times;
    }
    turn
}
