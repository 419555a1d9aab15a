use linx_base::{Inc, Name, Session, Signal};

/// What a packet means to the node of the side that it came to.
#[derive(Drop)]
pub enum TrunkUp {
    Nothing,
    /// This session of the side is up with this session of the other side.
    WentUp { session: Session, peer: Session },
    /// This session of the side is over, and its next one is connecting.
    WentDown { session: Session },
    /// A signal for an endpoint of the node, from a peer that was met.
    Arrived { from: Inc, to: Inc, signal: Signal },
    /// The other side has an endpoint of this name, which can now be sent to.
    Met { inc: Inc, name: Name },
    /// The endpoint of the other side is closed, and all its signals have come.
    Gone { inc: Inc },
    /// The other side asks for the endpoint of this name.
    Asked { name: Name },
}
