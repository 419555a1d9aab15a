use journal::{Detached, Effects, Refusal, SentTo};
use linx_base::{AttRef, Inc, Item, Name, Signal};

/// A new endpoint, and the effects of its opening.
#[derive(Drop)]
pub struct OpenedAs {
    pub inc: Inc,
    pub effects: Effects,
}

/// Why no endpoint was opened. The name comes back.
#[derive(Drop)]
pub enum OpenError {
    /// 4,096 endpoints are open.
    Full(Name),
    NoMemory(Name),
}

/// What became of a signal that was sent.
#[derive(Drop)]
pub enum Sent {
    /// It is in the queue of an endpoint of this node.
    Queued,
    /// The peer is one over a link, where the signal has to go.
    Link(Signal),
    /// The peer isn't alive. The signal was freed.
    Dead,
}

/// The answer to an event.
#[derive(Drop)]
pub enum StepAnswer {
    Opened(Inc),
    Closed,
    Sent(SentTo),
    Took(Item),
    /// Nothing is selected, and all else is at rest.
    Nothing,
    /// Nothing is selected yet.
    NotYet,
    /// The position of the hunting step.
    Hunted(u64),
    Attached(AttRef),
    Detached(Detached),
    Done,
    Refused(Refusal),
}
