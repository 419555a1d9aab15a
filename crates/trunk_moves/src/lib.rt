//! That each step of a run over trunks is a move of a run with links. `specs/` says what each kind
//! of step makes of the trunks of all links, as functions of a trunk, and what a node does when it
//! is told of a packet; `proofs/` shows that this is what a move asks for, and that it keeps every
//! trunk. So whoever shows that its code does what these functions say has all that is promised of
//! runs with links, with no packet named.
#![tactic(auto)]

mod laws;

pub use laws::{trunk_runs_are_runs, trunk_runs_grant, trunk_runs_keep_all};
