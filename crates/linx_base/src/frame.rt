use crate::blob::Blob;
use crate::identity::NodeNo;
use crate::memory::NoMemory;
use crate::sequence::Sequence;
use crate::try_copy::TryCopy;

/// What the plan of a direction does with the packet at place 0.
#[derive(Clone, Copy, Debug, PartialEq, Eq, Hash)]
pub enum Verdict {
    Deliver,
    Lose,
    /// Delivers it and keeps it in place.
    Repeat,
    /// Exchanges it with the packet at this place, or with the last one where there are fewer.
    Swap(u8),
}

/// A link between two nodes: its window in frames and its piece size in bytes.
#[derive(Clone, Copy, Debug, PartialEq, Eq, Hash)]
pub struct LinkDecl {
    pub first: NodeNo,
    pub second: NodeNo,
    pub window: u32,
    pub piece: u32,
}

/// The kinds of packet that make and end a session of a link.
#[derive(Clone, Copy, Debug, PartialEq, Eq, Hash)]
pub enum ConnKind {
    Connect,
    ConnectAck,
    Ack,
    Reset,
}

/// What one end of a link hands to the other: two link addresses, and a body of 1 to 65,536 bytes.
#[derive(Drop)]
pub struct Message {
    pub from: u32,
    pub to: u32,
    pub body: Blob,
}

/// A piece of a message. The first one has the addresses and the size of the whole body.
#[derive(Drop)]
pub enum Frame {
    First {
        more: bool,
        from: u32,
        to: u32,
        size: u32,
        payload: Blob,
    },
    Next {
        more: bool,
        payload: Blob,
    },
}

/// Frames in order.
pub type Frames = Sequence<Frame>;

/// A frame with its number in a session.
#[derive(Drop)]
pub struct SentFrame {
    pub number: u32,
    pub frame: Frame,
}

/// Numbered frames in order.
pub type SentFrames = Sequence<SentFrame>;

impl TryCopy for Message {
    fn copy(&self) -> Result<Message, NoMemory> {
        Ok(Message {
            from: self.from,
            to: self.to,
            body: self.body.copy()?,
        })
    }
}

impl TryCopy for Frame {
    fn copy(&self) -> Result<Frame, NoMemory> {
        match self {
            Frame::First {
                more,
                from,
                to,
                size,
                payload,
            } => Ok(Frame::First {
                more: *more,
                from: *from,
                to: *to,
                size: *size,
                payload: payload.copy()?,
            }),
            Frame::Next { more, payload } => Ok(Frame::Next {
                more: *more,
                payload: payload.copy()?,
            }),
        }
    }
}
