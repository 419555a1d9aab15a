use linx_base::{Inc, Name, Signal};

/// What a message means to the layer above.
#[derive(Drop)]
pub enum Up {
    Nothing,
    /// A signal for an endpoint of the own node, from a peer that was met.
    Arrived { from: Inc, to: Inc, signal: Signal },
    /// A signal for an endpoint of the own node that is closed, from a peer that was met: it means
    /// nothing to the node.
    Freed { from: Inc, to: Inc, signal: Signal },
    /// The other side has an endpoint of this name, which can now be sent to.
    Met { inc: Inc, name: Name },
    /// The endpoint of the other side is closed.
    Gone { inc: Inc },
    /// The other side asks for the endpoint of this name.
    Asked { name: Name },
    /// The other side broke the rules.
    Bad,
}
