// Stored items in lent memory, as appends left them there: fields, equality as given, and the lookup over the entries.
#![tactic(auto)]

mod fields;
mod finding;

pub use fields::field_wrong;
pub use finding::{find_fixed, look_up, same_item};
