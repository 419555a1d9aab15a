use crate::identity::{AttRef, ItemAt, Peer};
use crate::signal::Signal;

/// What brought an item into a queue.
#[derive(Clone, Copy, Debug, PartialEq, Eq, Hash)]
pub enum Kind {
    /// A signal that a peer sent.
    Plain,
    /// The signal of a hunt that found its peer, named by the position of the hunt's step.
    Found(u64),
    /// The signal of an attach whose peer ended, or wasn't alive.
    Notice(AttRef),
}

/// A signal that waits in a queue, with its sender.
#[derive(Drop)]
pub struct Item {
    pub signal: Signal,
    pub from: Peer,
    pub kind: Kind,
    pub pos: ItemAt,
}
