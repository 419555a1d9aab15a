//! What an endpoint waits for, and whom a node has met: the records that a node keeps, and that the
//! laws of a journal speak of.
use crate::identity::{AttRef, Inc, Peer};
use crate::name::{Name, Path};
use crate::signal::Signal;

/// A hunt that wasn't answered yet.
#[derive(Drop)]
pub struct PendingHunt {
    /// The hunter.
    pub at: Inc,
    pub path: Path,
    /// What is queued at the hunter when the path is found.
    pub signal: Signal,
    /// The position of the hunting step.
    pub number: u64,
}

/// An attach that is owed a notification.
#[derive(Drop)]
pub struct PendingAttach {
    /// The holder.
    pub at: Inc,
    pub peer: Peer,
    /// What is queued at the holder, with the reason behind its data, when the peer ends.
    pub signal: Signal,
    pub reference: AttRef,
}

/// A living peer that was met over a link, with its name.
#[derive(Drop)]
pub struct MetPeer {
    pub peer: Peer,
    pub name: Name,
}
