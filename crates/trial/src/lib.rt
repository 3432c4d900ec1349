// What the programs share that build by the commands of standard input: the builder's record made and shown, and rows appended one
// after another or by one call.
#![tactic(auto)]

mod appending;
mod record;
mod rows;

pub use appending::{Turn, append_rows, append_times, ask};
pub use record::{no_builder, show_builder, with};
pub use rows::{Presence, Rows};
