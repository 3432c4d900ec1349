// The commands on a builder and on rows, as `try_building` tells them.
#![tactic(auto)]

mod appending;
mod commands;

use cells::Lent;
use script::Input;

// A command, by its number.
#[derive(Clone, Copy, PartialEq, Eq)]
pub enum Command {
    Create,
    Row,
    Rows,
    Finish,
    Estimate,
    ShouldFinish,
    Set,
    Cells,
    Lend,
    View,
    Show,
    Sums,
    CreateWithKeyTarget,
    EqualRows,
}

impl From<u8> for Command {
    fn from(number: u8) -> Command {
        match number {
            0 => Command::Create,
            1 => Command::Row,
            2 => Command::Rows,
            3 => Command::Finish,
            4 => Command::Estimate,
            5 => Command::ShouldFinish,
            6 => Command::Set,
            7 => Command::Cells,
            8 => Command::Lend,
            10 => Command::Show,
            11 => Command::Sums,
            12 => Command::CreateWithKeyTarget,
            13 => Command::EqualRows,
            _ => Command::View,
        }
    }
}

// After which appends the cells are shown.
#[derive(Clone, Copy, PartialEq, Eq)]
pub enum View {
    Never,
    Refused,
    Always,
}

impl From<usize> for View {
    fn from(number: usize) -> View {
        match number {
            0 => View::Never,
            1 => View::Refused,
            _ => View::Always,
        }
    }
}

// What stands between two commands: the input, what is shown, what is lent, the record, the number of the last append.
#[derive(Clone, Copy)]
pub struct State<'a> {
    pub input: Input<'a>,
    pub view: View,
    pub lent: Lent,
    pub builder: builder::Builder,
    pub number: u8,
}
