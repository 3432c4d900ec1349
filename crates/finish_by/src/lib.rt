// Command 3 of `try_building`; and the cells after an append.
#![tactic(auto)]

use build_by::{State, View};
use cells::{Areas, part};
use script::{first, say, show};

// The cells after an append, where they are to be shown.
pub fn look(state: &State, areas: &Areas) {
    let shown = match state.view {
        View::Never => false,
        View::Refused => state.number != 0,
        View::Always => true,
    };
    if shown {
        areas.show(state.lent);
    }
}

pub fn finish(state: &mut State, areas: &Areas, room: &mut [u8]) {
    let n = state.input.number();
    say(b"finish");
    let lent = state.lent;
    let answer = state.builder.finish(
        first(areas.items, lent.items),
        first(areas.ends, lent.ends),
        first(areas.flags, lent.flags),
        first(areas.counts, lent.counts),
        first(areas.keys, lent.keys),
        first(areas.lens, lent.lens),
        part(room, n),
    );
    show(answer.number);
    show(answer.len);
    if state.view != View::Never {
        say(b"\n room ");
        cells::show_first(room, n);
    }
    state.builder = answer.builder;
}
