// All the commands of an input, as `try_building` tells them, one after another.
#![tactic(auto)]

use build_by::{Command, State};
use cells::Areas;
use script::say;

fn run(state: &mut State, areas: &mut Areas, room: &mut [u8]) {
    let command = Command::from(state.input.byte());
    match command {
        Command::Create => state.create(),
        Command::CreateWithKeyTarget => state.create_with_key_target(),
        Command::Row | Command::Rows | Command::EqualRows => {
            state.append(command, areas, room);
            finish_by::look(state, areas);
        }
        Command::Finish => finish_by::finish(state, areas, room),
        Command::Estimate => state.estimate(),
        Command::ShouldFinish => state.should_finish(),
        Command::Set => state.set(),
        Command::Cells => cells::set(&mut state.input, areas, room),
        Command::Lend => state.lend(),
        Command::View => state.set_view(),
        Command::Show => {
            say(b"show");
            areas.show(state.lent);
        }
        Command::Sums => areas.show_sums(room),
    }
}

// Each command takes a byte at least, so there are no more of them than bytes.
pub fn run_all(s: &[u8], areas: &mut Areas, room: &mut [u8]) {
    let mut state = State::new(s);
    for _ in 0..s.len() {
        run(&mut state, areas, room);
        say(b"\n");
        if state.input.is_done() {
            return;
        }
    }
}
