// What the listing program is made of, apart from its calls on files: its input opened, and a row's text, made in
// lent memory.
#![tactic(auto)]

mod opening;
mod text;

pub use opening::{block_of, open};
pub use text::row_text;
