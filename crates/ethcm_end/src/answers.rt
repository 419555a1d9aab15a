use linx_base::Message;

/// What a packet means to the layer above.
#[derive(Drop)]
pub enum Input {
    Nothing,
    /// The end is up with a session of its peer.
    WentUp,
    /// The session of the end is over, and the next one is connecting.
    WentDown,
    /// A message is whole.
    Got(Message),
}

/// What a tick means to the layer above.
#[derive(Clone, Copy, Debug, PartialEq, Eq, Hash)]
pub enum Ticked {
    Stays,
    /// The peer was not heard for too long: the session of the end is over, and the next one is
    /// connecting.
    WentDown,
}
