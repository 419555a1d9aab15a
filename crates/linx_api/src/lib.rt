//! The calls of LINX for one actor among several: open, send, receive, hunt, attach, detach and
//! close. All actors, and the pumps of all links, share one fabric behind the turn lock. Each call
//! takes the fabric, makes at most one step and gives it back; buffers are made and freed outside.
//!
//! An [`Endpoint`] has its actor's pass. What a call finds is a journal that is legal by the laws
//! of nodes and links, keeps what is promised of runs with links after each of its steps, and goes
//! on from what the pass has seen, with no step of its own that the pass didn't make. Where the
//! call makes a step, that step is legal there, it makes of the links' trunks what its kind makes,
//! the reply is its answer, and the pass has one own step more. Else the reply is that nothing is
//! there yet, or why no step could be made, and nothing changed.
//!
//! A pump has a pass too. It takes the fabric itself, looks at it ([`SharedFabric::fabric`]), makes
//! a step ([`SharedFabric::step`]) and gives it back. Who makes several steps in one turn, as a
//! worker that settles a link, makes them on the fabric itself ([`SharedFabric::fabric_mut`]).
#![tactic(auto)]

mod asking;
mod endpoint;
mod plan;
mod shared_fabric;
mod sharing;
mod threads;

pub use endpoint::{Endpoint, Told};
pub use plan::Plan;
pub use shared_fabric::SharedFabric;
pub use sharing::{Dealt, share};
pub use threads::fabric_is_send;
