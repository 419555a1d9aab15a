//! What an actor asks for next. A `Mind` knows the place in the actor's script and what its own
//! steps have told: the item that was taken last, the peers that were kept, the references of its
//! attaches. Each command becomes one event, with the buffer that it hands over, or the refusal in
//! its place; after the last command comes the end. A turn of an actor is `next`, the step that it
//! asks for, and `told`, or `stopped` where no step could be made: so the actor's steps follow its
//! commands, whatever makes them.
#![tactic(auto)]

mod asks;
mod bindings;
mod filled;
mod fillings;
mod mind;
mod names;

pub use mind::{Mind, endpoint_after};
pub use names::NameKind;
