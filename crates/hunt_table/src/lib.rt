//! The hunts of a node that wait for their path, in order of hunting. The hunts for a path, the
//! hunts over a link, and the hunts of a hunter are found without a look at any other hunt.
#![tactic(auto)]

mod hunt_key;
mod hunt_table;

pub use hunt_key::HuntKey;
pub use hunt_table::{HuntTable, HuntsUnder};
