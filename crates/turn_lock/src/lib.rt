//! A lock round a state that keeps the story of its own steps: what was done, and who did it.
//!
//! The state goes from hand to hand. Who wants it has a pass, which says how much of the story it
//! has seen and which steps in it are its own. [`TurnLock::take`] waits for the state, and gives it
//! out with the promise that its story goes on from all that the pass had seen, with no step of the
//! pass's that it didn't make itself. [`TurnLock::give`] takes the state back, with steps added by
//! this pass alone. [`TurnLock::close`] takes the lock apart where all its passes are back: the
//! story that is left goes on from what each of them has seen, has each one's own steps and no
//! others under its number, and has no step of another number.
//!
//! No promise is made that a wait ends, or about who comes first. Taking and giving need no memory.
//! Who waits looks for a while and then sleeps; a give wakes only where a thread may sleep.
#![tactic(auto)]

mod lock;
mod log;
mod pass;
mod story;
mod turns;

pub use lock::{CloseRefused, TurnLock};
pub use log::{Log, add_step};
pub use pass::{Held, Pass, Turn};
pub use story::{Made, Story};
