use linx_base::{Inc, Name, Session, SigNote};

/// What is recorded of a side.
#[derive(Drop)]
pub enum Note {
    /// Its session ended, and this one began.
    Began(Session),
    /// It went up with this session of the other side.
    WentUp(Session),
    /// It published an incarnation by its name, asked for a name, sent a signal, and unpublished an
    /// incarnation.
    Published { inc: Inc, name: Name },
    Asked(Name),
    Signaled { from: Inc, to: Inc, signal: SigNote },
    Unpublished(Inc),
    /// It met an incarnation of the other side, was asked for a name, got a signal, freed one whose
    /// receiver is closed, and was told that an incarnation is gone.
    Met { inc: Inc, name: Name },
    AskedFor(Name),
    Arrived { from: Inc, to: Inc, signal: SigNote },
    Freed { from: Inc, to: Inc, signal: SigNote },
    Gone(Inc),
}
