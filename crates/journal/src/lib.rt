//! The journal: every step that was made, in order. A step has a maker, one head that says what was
//! done, and the effects of it in order. What LINX promises is said of this list alone: the
//! definitions in `specs/` cut queues, arrivals, open endpoints and the laws of a step at its node
//! out of it; those of links, and when a step is legal, stand in `link_laws`. In them a history has
//! the newest step first, so behind a step stand the steps before it; every other list is oldest
//! first.
#![tactic(auto)]

mod by;
mod effect;
mod event;
mod head;
mod journal;

pub use by::By;
pub use effect::{Effect, Effects, Step};
pub use event::Event;
pub use head::{Detached, Head, Refusal, SentTo};
pub use journal::Journal;
