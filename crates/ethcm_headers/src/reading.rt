ghost use Rattle.std.specs.Prelude.{◌≡◌, ◌↔◌, ◌++◌, [], IsTrue, IfSome, IfNone, IfOk, IfErr};
ghost use Rattle.ethcm_headers.specs.declared.packets.Packet.{Packet as AnyPacket};
ghost use Rattle.ethcm_headers.specs.declared.reading.ReadError.TheVariants as errors;
ghost use Rattle.ethcm_headers.specs.Packets.{IsPart, Spells};
ghost use Rattle.ethcm_headers.specs.Parted.{bytes_in, StandApart};
ghost use Rattle.ethcm_headers.specs.Chains.{packet_with, part_with};

use crate::bounds::is_packet;
use crate::chains::{Chain, Headers};
use crate::decoding::headers_at;
use crate::packet_bytes::{PacketBytes, bytes_in};
use crate::packets::{Packet, Part};
use linx_base::{Blob, Frame, NoMemory, Session, TryCopy};
use std::error::Error;
use std::fmt;

/// The most bytes of a packet.
const PACKET_MOST: usize = 8_240;

/// Why bytes gave no packet.
#[derive(Clone, Copy, Debug, PartialEq, Eq, Hash)]
pub enum ReadError {
    Bad,
    NoMemory,
}

impl fmt::Display for ReadError {
    ghost use Rattle.std.specs.Prelude.{Some};
    ghost use Rattle.ethcm_headers.specs.Failures.{error_text};

    ghost output = { λ error. Some (error_text error) };

    fn fmt<W: fmt::Write>(&self, f: &mut fmt::Formatter<W>) -> fmt::Result {
        f.write_str(match self {
            ReadError::Bad => "not a packet",
            ReadError::NoMemory => "out of memory",
        })
    }
}

impl Error for ReadError {}

impl From<NoMemory> for ReadError {
    ghost from_gives = { λ _ e. e ≡ errors.NoMemory };

    fn from(_refusal: NoMemory) -> ReadError {
        ReadError::NoMemory
    }
}

fn is_same(bytes: &[u8], other: &[u8]) -> bool
    ensures { IsTrue result ↔ (bytes.now ≡ other.now) }
{
    bytes == other
}

/// The headers of the packet that has these bytes of headers, and these behind them.
fn headers_of(front: &[u8], behind: &[u8]) -> Option<Headers>
    ensures found { IfSome result
        (λ headers. Spells (packet_with headers behind.now) (front.now ++ behind.now)) }
    ensures none { IfNone result (StandApart front.now behind.now
        → (packet : AnyPacket) → ¬ (Spells packet (front.now ++ behind.now))) }
{
    let length = front.len() + behind.len();
    if length > PACKET_MOST {
        return None;
    }
    let Some(headers) = headers_at(front) else {
        return None;
    };
    let spelled = headers.bytes(length as u16);
    if !is_same(spelled.as_slice(), front) {
        return None;
    }
    if !is_packet(&headers, behind) {
        return None;
    }
    Some(headers)
}

/// The payload of a piece, which is shared. A piece has one.
fn payload_of(payload: &Option<Blob>) -> Result<Blob, ReadError>
    ensures ok { IfOk result (λ copy. copy ≡ bytes_in payload.now) }
    ensures bad { IfErr result (λ e. e ≡ ReadError.Bad → bytes_in payload.now ≡ []) }
{
    match payload {
        None => Err(ReadError::Bad),
        Some(payload) => Ok(payload.copy()?),
    }
}

/// What the chain and the payload behind it bring.
fn part_with(chain: Chain, payload: &Option<Blob>) -> Result<Part, ReadError>
    ensures ok { IfOk result (λ part. part ≡ part_with chain (bytes_in payload.now)) }
    ensures bad { IfErr result
        (λ e. e ≡ ReadError.Bad → ¬ (IsPart (part_with chain (bytes_in payload.now)))) }
{
    match chain {
        Chain::Conn(kind) => Ok(Part::Conn(kind)),
        Chain::Ack { next } => Ok(Part::Ack { next }),
        Chain::Nack { next, count } => Ok(Part::Nack {
            next,
            count: u32::from(count),
        }),
        Chain::First {
            next,
            seq,
            more,
            from,
            to,
            size,
        } => Ok(Part::Piece {
            next,
            seq,
            frame: Frame::First {
                more,
                from,
                to,
                size,
                payload: payload_of(payload)?,
            },
        }),
        Chain::Next { next, seq, more } => Ok(Part::Piece {
            next,
            seq,
            frame: Frame::Next {
                more,
                payload: payload_of(payload)?,
            },
        }),
    }
}

/// The packet that has these headers, and this payload.
fn packet_with(headers: &Headers, payload: &Option<Blob>) -> Result<Packet, ReadError>
    ensures ok { IfOk result (λ packet. packet ≡ packet_with headers.now (bytes_in payload.now)) }
    ensures bad { IfErr result (λ e. e ≡ ReadError.Bad
        → ¬ (IsPart (packet_with headers.now (bytes_in payload.now)).part)) }
{
    Ok(Packet {
        src: Session(headers.src),
        dst: headers.dst,
        part: part_with(headers.chain, payload)?,
    })
}

/// The packet that the bytes spell, whose payload shares them. Bytes that are no packet's spelling
/// are `Bad`.
pub fn read(bytes: &PacketBytes) -> Result<Packet, ReadError>
    // What is read is so spelled, and the packet that is so spelled is read.
    ensures found { IfOk result (λ packet. Spells packet bytes.now) }
    ensures only { IfOk result
        (λ packet. (other : AnyPacket) → Spells other bytes.now → packet ≡ other) }

    // Bad comes exactly where there is no such packet.
    ensures bad { ((packet : AnyPacket) → ¬ (Spells packet bytes.now))
        → result ≡ Err ReadError.Bad }
    ensures bad_only { IfErr result
        (λ e. e ≡ ReadError.Bad → (packet : AnyPacket) → ¬ (Spells packet bytes.now)) }
{
    let front = bytes.headers.as_slice();
    let Some(headers) = headers_of(front, bytes_in(&bytes.payload)) else {
        return Err(ReadError::Bad);
    };
    let packet = packet_with(&headers, &bytes.payload)?;
    Ok(packet)
}
