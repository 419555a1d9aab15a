//! The values of a session: where it stands, and what a packet changes.

use linx_base::{ConnKind, Session};

/// Whether an end has a peer.
#[derive(Clone, Copy, Debug, PartialEq, Eq, Hash)]
pub enum Standing {
    /// It asks for a peer.
    Connecting,
    /// It is up with this session of the peer, which has confirmed it or not.
    Up { peer: Session, confirmed: bool },
}

/// The session of an end, and where it stands.
#[derive(Clone, Copy, Debug, PartialEq, Eq, Hash)]
pub struct TalkState {
    pub mine: Session,
    pub standing: Standing,
}

/// What a packet means to an end.
#[derive(Clone, Copy, Debug, PartialEq, Eq, Hash)]
pub enum Change {
    /// Nothing.
    Ignored,
    /// It is up, and heard its peer.
    Heard,
    /// It is up, heard its peer, and replies this to it.
    HeardReply(ConnKind),
    /// It is connecting, and replies this to the sender.
    Reply(ConnKind),
    /// It went up with the sender, and replies an ACK exactly where `reply` is true.
    WentUp { reply: bool },
    /// It went down, with no reply: its next session is connecting.
    WentDown,
}
