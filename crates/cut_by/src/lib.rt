// Command 6 of `try_replay`: a list of rows, cut into blocks where the builder says so before a row.
#![tactic(auto)]

use builder::Builder;
use cells::Areas;
use replay_by::{Plan, State};
use script::{Input, first, past, refused, say, show, show_bytes};
use trial::{Presence, Rows};

// The builder of the block that isn't finished; the input from the equal rows that come next on, and how many of them are in.
#[derive(Clone, Copy)]
struct Cut<'a> {
    builder: Builder,
    input: Input<'a>,
    done: usize,
}

// A block behind the number of its rows.
fn show_block(builder: Builder, areas: &Areas, room: &mut [u8]) {
    let answer = builder.finish(
        areas.items,
        areas.ends,
        areas.flags,
        areas.counts,
        areas.keys,
        areas.lens,
        room,
    );
    say(b"\ncut");
    show(builder.counted.rows);
    refused(answer.number);
    say(b" ");
    show_bytes(first(room, answer.len));
}

impl Cut<'_> {
    // The next row: where the builder is full, its block is shown, and a new one begins with the row.
    fn row(&mut self, plan: Plan, areas: &mut Areas, room: &mut [u8]) {
        let mut after = self.input;
        let rows = replay_by::rows(&mut after);
        let row = Rows {
            times: 1,
            asks: false,
            ..rows
        };
        let asked = self
            .builder
            .should_finish(row.presence != Presence::Null, row.len);
        if asked.full {
            show_block(self.builder, areas, room);
        }
        refused(asked.number);
        let builder = if asked.full {
            plan.builder()
        } else {
            asked.builder
        };
        let turn = trial::append_rows(builder, replay_by::whole(), areas, row);
        refused(turn.number);
        self.builder = turn.builder;
        self.done = past(self.done, 1);
        if rows.times <= self.done {
            self.input = after;
            self.done = 0;
        }
    }
}

pub fn run(state: &mut State, areas: &mut Areas, room: &mut [u8]) {
    say(b"list");
    let plan = Plan::taken(&mut state.reading.input);
    let n = state.reading.input.number();
    let mut cut = Cut {
        builder: plan.builder(),
        input: state.reading.input,
        done: 0,
    };
    for _ in 0..n {
        cut.row(plan, areas, room);
    }
    if cut.builder.counted.rows != 0 {
        show_block(cut.builder, areas, room);
    }
    state.builder = cut.builder;
    state.reading.input = cut.input;
}
