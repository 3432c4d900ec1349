// What an append finds for its row, and the counted numbers with the row counted in.
#![tactic(auto)]

mod counting;
mod finding;

pub use counting::{
    grown_row, grown_run, key_counted, next_entries, next_null, row_counted, run_counted, too_long,
};
pub use finding::{key_step, run_open, run_step};

// What an append comes to: whether the row is a stored item more, whether it joins the last run, and its key.
#[derive(Clone, Copy)]
pub struct Step {
    pub stored: bool,
    pub joins: bool,
    pub key: i32,
}
