// One row appended n times, over what is counted and the six lent areas: the numbers with all n rows counted in, and whether they are taken.
#![tactic(auto)]

mod counting;
mod limiting;

pub use counting::{begun, counted_in, joined, joins_again};
pub use limiting::all_counted;
