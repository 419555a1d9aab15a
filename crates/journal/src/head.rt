use linx_base::{AttRef, Inc, ItemAt, LinkNo, Name, NodeNo, Path, Peer, Side, SigNote, Verdict};
use sigsel::Sigsel;

/// What became of a signal that was sent.
#[derive(Clone, Copy, Debug, PartialEq, Eq, Hash)]
pub enum SentTo {
    /// It is in the queue of an endpoint of the same node.
    Queued,
    /// It is on its way over a link.
    Link,
    /// The peer isn't alive, and the signal was freed.
    Dead,
}

/// What a detach did.
#[derive(Clone, Copy, Debug, PartialEq, Eq, Hash)]
pub enum Detached {
    /// It cancelled a pending attach.
    Pending,
    /// It removed a queued notification.
    Queued,
    /// It found neither.
    None,
}

/// Why an event made no step of its own kind.
#[derive(Clone, Copy, Debug, PartialEq, Eq, Hash)]
pub enum Refusal {
    /// The actor has no open endpoint. `at` is the step that closed its last one, or 0.
    NotOpen { at: u64 },
    /// The actor has this endpoint already.
    IsOpen { inc: Inc },
    /// The command names a peer that the actor doesn't know.
    NoPeer,
    /// The actor holds no buffer to forward.
    NoSignal,
    /// The command names a reference that was never attached.
    NoRef,
}

/// What a step did.
#[derive(Drop)]
pub enum Head {
    Open(Name),
    Close,
    Send(Peer, SigNote, SentTo),
    /// Took the item at this position.
    Take(Sigsel, ItemAt),
    /// Found nothing selected, with all else at rest.
    TakeNone(Sigsel),
    /// Found nothing selected yet.
    Waits(Sigsel),
    Hunt(Path, SigNote),
    Attach(Peer, SigNote),
    Detach(AttRef, Detached),
    Cut(LinkNo),
    Mend(LinkNo),
    Settle(LinkNo),
    Restart(NodeNo),
    /// The packet at place 0 of the direction from this side met this verdict.
    Wire(LinkNo, Side, Verdict),
    Tick(LinkNo, Side),
    Refused(Refusal),
    Ended,
}
