use linx_base::{Message, Session};

/// What a packet means to the layer above.
#[derive(Drop)]
pub enum Handed {
    Nothing,
    /// This session of the side is up with this session of the other side.
    WentUp { session: Session, peer: Session },
    /// This session of the side is over, and its next one is connecting.
    WentDown { session: Session },
    /// A message is whole.
    Got(Message),
}

/// What a tick means to the layer above.
#[derive(Clone, Copy, Debug, PartialEq, Eq, Hash)]
pub enum TickedSide {
    Stays,
    /// The other side was not heard for too long: this session of the side is over, and its next
    /// one is connecting.
    WentDown { session: Session },
}
