ghost use Rattle.std.specs.Prelude.{◌≡◌};
ghost use Rattle.journal.specs.Queues.{reached_by};

use crate::by::By;
use crate::head::Head;
use linx_base::{AttRef, Inc, LinkNo, Name, NodeNo, Peer, Reason, Sequence, Session, SigNote};

/// What happened in a step. The endpoint, node or link that it concerns stands first.
#[derive(Drop)]
pub enum Effect {
    Opened(Inc),
    Closed(Inc),
    Arrived(Inc, Peer, SigNote),
    /// A hunt was answered. The number is the position of the hunting step.
    Found(Inc, Peer, SigNote, u64),
    Notified(Inc, Peer, SigNote, AttRef, Reason),
    Met(NodeNo, Peer, Name),
    Gone(NodeNo, Peer),
    /// The node's session of the link is up, with the peer's session.
    Up(NodeNo, LinkNo, Session, Session),
    Down(NodeNo, LinkNo, Session),
}

impl Effect {
    /// The endpoint that the effect closes, or into whose queue it puts an item. An opening reaches
    /// none.
    pub fn reached_by(&self) -> Option<Inc>
        ensures { result ≡ reached_by self.now }
    {
        match self {
            Effect::Closed(inc)
            | Effect::Arrived(inc, ..)
            | Effect::Found(inc, ..)
            | Effect::Notified(inc, ..) => Some(*inc),
            _ => None,
        }
    }
}

/// Effects in order.
pub type Effects = Sequence<Effect>;

/// One step of a journal.
#[derive(Drop)]
pub struct Step {
    pub by: By,
    pub head: Head,
    pub effects: Effects,
}
