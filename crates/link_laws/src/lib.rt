//! The laws of a run with links. `specs/` says when a step is legal after the steps before it, on
//! nodes and links, when a link is still, how a history hangs together with the records of its
//! links, and what is promised over a link; no packet is named. `proofs/` computes the laws on
//! worked runs, has for each law steps that it refuses, and shows that each kind of step is legal
//! and keeps every side of every link, and that the promises follow. `specs/Moves.antt` says what a
//! step is, kind by kind, and what it makes of the records of the links; a run is made of such
//! moves, and three laws say what holds of every run. It stands on the journal and on the record of
//! a trunk alone.
#![tactic(auto)]

mod laws;

pub use laws::{runs_are_legal, runs_fit, runs_keep_promises};
