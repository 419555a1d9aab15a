use linx_base::{ConnKind, Frame, Session};

/// What one end of a link sends to the other, and in which of its sessions.
#[derive(Drop)]
pub struct Packet {
    /// The sender's session, not 0.
    pub src: Session,
    /// The receiver's session, which is 0 exactly in a CONNECT.
    pub dst: u64,
    pub part: Part,
}

/// What a packet brings. `next` is the lowest frame number that the sender hasn't taken yet.
#[derive(Drop)]
pub enum Part {
    Conn(ConnKind),
    Ack { next: u32 },
    /// Asks for the frames from `next` on, at most `count` of them, which is 1 to 256.
    Nack { next: u32, count: u32 },
    /// A frame and its number, which is below 4,294,967,295.
    Piece { next: u32, seq: u32, frame: Frame },
}
