//! That a link of a run settles, whatever happened to it. `specs/` says what becomes of the ticks
//! that are left as the steps of a run come: a packet with all that the nodes answer to it, and a
//! tick; and how much is left to do over a link, which gets less with each packet that comes, so
//! that a link that isn't cut comes to rest. `proofs/` shows it. So whoever drives a link needs
//! neither packets nor what nodes answer, but the trunks before and after a step alone. It stands
//! on the laws of `link_settling`, of trunks and of runs with trunks.
#![tactic(auto)]

mod laws;

pub use laws::{links_come_to_rest, runs_settle};
