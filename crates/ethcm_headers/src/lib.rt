//! Packets of the connection manager, and their bytes. A packet is a chain of headers, behind which
//! a piece of a message may stand. Each packet has one spelling, and bytes that are no packet's
//! spelling are refused. The bytes of a packet share its payload, and what is read shares theirs.
#![tactic(auto)]

mod bounds;
mod chains;
mod decoding;
mod header_bytes;
mod headers;
mod laws;
mod packet_bytes;
mod packets;
mod reading;
mod writing;

pub use laws::{each_is_spelled, one_packet, one_spelling};
pub use packet_bytes::PacketBytes;
pub use packets::{Packet, Part};
pub use reading::{ReadError, read};
pub use writing::write;
