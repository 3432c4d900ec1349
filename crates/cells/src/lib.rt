// A builder's areas, lent in part, and their cells: set to numbers, shown, summed.
#![tactic(auto)]

mod lending;
mod setting;
mod showing;

pub use lending::{Areas, Lent, part};
pub use setting::{Area, set};
pub use showing::show_first;
