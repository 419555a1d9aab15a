//! The kernel of one node: its open endpoints with their names and queues, its pending hunts, its
//! owed attaches and the living peers that it met. Each call does what the rules of LINX say for
//! one event on this node, and gives the effects of its step in order. A refusal changes nothing;
//! it gives back the name of an opening and the signal of a send, a hunt, an attach or an arrival.
//! The name of a meeting is freed.
#![tactic(auto)]

mod answers;
mod ask;
mod calls;
mod delivery;
mod endpoint;
mod kernel;
mod lookup;
mod met;
mod roster;
mod rules;

pub use answers::{OpenError, OpenedAs, Sent, StepAnswer};
pub use ask::Ask;
pub use kernel::Kernel;
