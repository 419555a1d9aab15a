//! Whether a journal is legal, decided both ways. The steps are read in order and run again: the
//! kernel of each node says what effects a call has and what it answers, and these are compared with
//! what the step notes; how each actor stands is kept beside, and a book of all links. Where the
//! journal isn't legal, the first step that isn't is named, with the first law that it breaks, and
//! of a receive the item that it was to take.
//!
//! Nothing of a run is believed, but the shape: the number of its nodes, its links, and where its
//! actors are. A kernel is called only for a step that keeps the laws of makers, endpoints and bounds,
//! or whose packet or tick may come, so that an illegal journal can't break what a call needs.
#![tactic(auto)]

mod bounds;
mod bring;
mod call;
mod check;
mod checker;
mod judge;
mod law;
mod same;
mod standing;

pub use check::first_illegal;
pub use law::{Fault, Law};
