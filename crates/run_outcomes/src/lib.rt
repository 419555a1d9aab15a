//! What came of a run. Its outcome is what each actor was told, in its order: the answers of its
//! steps, in which endpoints are named by who opened them, and positions, references and waits are
//! left out. So no actor can tell two runs of one outcome apart, in whatever order their turns came.
//! Beside it stand the number of steps, and which of a few rare things the run has; and where two
//! outcomes differ first, actor by actor.
#![tactic(auto)]

mod answers;
mod differences;
mod openers;
mod outcome;
mod rare;
mod seen;
mod values;

pub use differences::write_differences;
pub use rare::{Rare, Rares};
pub use seen::Seen;
