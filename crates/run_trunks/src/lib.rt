//! The trunks of all links of a run, with a way back: what an event did to any of them either
//! stays, or is undone on all of them. `specs/` says what the sides of a node, and one link, make
//! of the trunks; these changes are those of the trunks of a run, link by link.
#![tactic(auto)]

mod call;
mod laws;
mod links;
mod run_trunks;
mod slots;

pub use laws::{changes_are_of_runs, changes_follow, events_rest};
pub use run_trunks::RunTrunks;
