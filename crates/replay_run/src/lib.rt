// All the commands of an input, as `try_replay` tells them, one after another.
#![tactic(auto)]

use cells::Areas;
use replay_by::State;
use script::say;

// A command, by its number.
#[derive(Clone, Copy)]
enum Command {
    Create,
    Append,
    Finish,
    Open,
    Read,
    Give,
    Cut,
}

impl From<u8> for Command {
    fn from(number: u8) -> Command {
        match number {
            0 => Command::Create,
            1 => Command::Append,
            2 => Command::Finish,
            3 => Command::Open,
            4 => Command::Read,
            6 => Command::Cut,
            _ => Command::Give,
        }
    }
}

fn run(state: &mut State, areas: &mut Areas, room: &mut [u8]) {
    let command = Command::from(state.reading.input.byte());
    match command {
        Command::Create => state.create(),
        Command::Append => state.append(areas),
        Command::Finish => state.finish(areas, room),
        Command::Open => state.reading.open(room),
        Command::Read => state.reading.read(room),
        Command::Give => state.reading.give_block(room),
        Command::Cut => cut_by::run(state, areas, room),
    }
}

// Each command takes a byte at least, so there are no more of them than bytes.
pub fn run_all(s: &[u8], areas: &mut Areas, room: &mut [u8]) {
    let mut state = State::new(s);
    for _ in 0..s.len() {
        run(&mut state, areas, room);
        say(b"\n");
        if state.reading.input.is_done() {
            return;
        }
    }
}
