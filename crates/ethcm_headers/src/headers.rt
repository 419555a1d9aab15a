ghost use Rattle.std.specs.Prelude.{◌≡◌};
ghost use Rattle.ethcm_headers.specs.Headers.{main_header, conn_header, ack_header, nack_header};
ghost use Rattle.ethcm_headers.specs.Headers.{udata_header, frag_header, kind_number};

use byteorder::{BigEndian, ByteOrder};
use linx_base::ConnKind;

/// The types of headers, as the header before names them.
pub(crate) const NONE: u8 = 0;

pub(crate) const CONN: u8 = 2;

pub(crate) const UDATA: u8 = 3;

pub(crate) const FRAG: u8 = 4;

pub(crate) const ACK: u8 = 5;

pub(crate) const NACK: u8 = 6;

/// The version of the packets.
const VERSION: u8 = 2;

/// MAIN, with the type of the header behind it, and the bytes of the whole packet.
#[tactic(auto, unfolding(crate::specs::Headers::main_header))]
pub(crate) fn main_header(next: u8, length: u16, src: u64, dst: u64) -> [u8; 20]
    ensures { result ≡ main_header next length src dst }
{
    let mut bytes = [0; 20];
    bytes[0] = VERSION;
    bytes[1] = next;
    BigEndian::write_u16(&mut bytes[2..], length);
    BigEndian::write_u64(&mut bytes[4..], src);
    BigEndian::write_u64(&mut bytes[12..], dst);
    bytes
}

fn kind_number(kind: ConnKind) -> u8
    ensures { result ≡ kind_number kind }
{
    match kind {
        ConnKind::Connect => 1,
        ConnKind::ConnectAck => 2,
        ConnKind::Ack => 3,
        ConnKind::Reset => 4,
    }
}

/// CONN, behind which no header stands.
#[tactic(auto, unfolding(crate::specs::Headers::conn_header))]
pub(crate) fn conn_header(kind: ConnKind) -> [u8; 4]
    ensures { result ≡ conn_header kind }
{
    [NONE, kind_number(kind), 0, 0]
}

/// ACK, with the type of the header behind it, and the number below which all frames have come.
#[tactic(auto, unfolding(crate::specs::Headers::ack_header))]
pub(crate) fn ack_header(following: u8, next: u32) -> [u8; 8]
    ensures { result ≡ ack_header following next }
{
    let mut bytes = [0; 8];
    bytes[0] = following;
    BigEndian::write_u32(&mut bytes[4..], next);
    bytes
}

/// NACK, behind which no header stands: the first missing frame, and how many are missing.
#[tactic(auto, unfolding(crate::specs::Headers::nack_header))]
pub(crate) fn nack_header(next: u32, count: u16) -> [u8; 8]
    ensures { result ≡ nack_header next count }
{
    let mut bytes = [0; 8];
    BigEndian::write_u16(&mut bytes[2..], count);
    BigEndian::write_u32(&mut bytes[4..], next);
    bytes
}

/// UDATA: the first piece of a message, with its two addresses and its size.
#[tactic(auto, unfolding(crate::specs::Headers::udata_header))]
pub(crate) fn udata_header(more: bool, seq: u32, from: u32, to: u32, size: u32) -> [u8; 20]
    ensures { result ≡ udata_header more seq from to size }
{
    let mut bytes = [0; 20];
    bytes[1] = u8::from(more);
    BigEndian::write_u32(&mut bytes[4..], seq);
    BigEndian::write_u32(&mut bytes[8..], from);
    BigEndian::write_u32(&mut bytes[12..], to);
    BigEndian::write_u32(&mut bytes[16..], size);
    bytes
}

/// FRAG: a further piece of a message.
#[tactic(auto, unfolding(crate::specs::Headers::frag_header))]
pub(crate) fn frag_header(more: bool, seq: u32) -> [u8; 8]
    ensures { result ≡ frag_header more seq }
{
    let mut bytes = [0; 8];
    bytes[1] = u8::from(more);
    BigEndian::write_u32(&mut bytes[4..], seq);
    bytes
}
