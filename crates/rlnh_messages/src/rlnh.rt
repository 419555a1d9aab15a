use linx_base::{Inc, Name};

/// The types of messages, each a message's first byte.
pub(crate) const INIT: u8 = 1;

pub(crate) const INIT_REPLY: u8 = 2;

pub(crate) const QUERY_NAME: u8 = 3;

pub(crate) const PUBLISH: u8 = 4;

pub(crate) const UNPUBLISH: u8 = 5;

pub(crate) const UNPUBLISH_ACK: u8 = 6;

/// What one node of a link says to the other about endpoints. Addresses are the sender's link
/// addresses, and never 0.
#[derive(Drop)]
pub enum Rlnh {
    /// Begins a session.
    Init,
    /// Answers INIT.
    InitReply,
    /// Asks for the endpoint of this name.
    QueryName(Name),
    /// Gives an endpoint of the sender a link address.
    Publish { addr: u32, inc: Inc, name: Name },
    /// The endpoint that had this address is closed.
    Unpublish(u32),
    /// Answers UNPUBLISH. The address may be given again.
    UnpublishAck(u32),
}
