ghost use Rattle.std.specs.Prelude.{◌≡◌, IfOk};
ghost use Rattle.ethcm_headers.specs.Packets.{IsPart, IsPacket, IsWithinBounds, FitsPart};
ghost use Rattle.ethcm_headers.specs.Packets.{spelling_of};
ghost use Rattle.ethcm_headers.specs.Chains.{chain_in, headers_in, payload_in};
ghost use Rattle.ethcm_headers.specs.Parted.{bytes_in};

use crate::chains::{Chain, Headers};
use crate::packet_bytes::{PacketBytes, bytes_in};
use crate::packets::{Packet, Part};
use linx_base::{Blob, Frame, NoMemory, Session, TryCopy};

fn chain_in(part: &Part) -> Chain
    requires { IsPart part.now }
    ensures value { result ≡ chain_in part.now }
    ensures fits { FitsPart part.now }
{
    match part {
        Part::Conn(kind) => Chain::Conn(*kind),
        Part::Ack { next } => Chain::Ack { next: *next },
        Part::Nack { next, count } => Chain::Nack {
            next: *next,
            count: *count as u16,
        },
        Part::Piece { next, seq, frame } => match frame {
            Frame::First {
                more,
                from,
                to,
                size,
                ..
            } => Chain::First {
                next: *next,
                seq: *seq,
                more: *more,
                from: *from,
                to: *to,
                size: *size,
            },
            Frame::Next { more, .. } => Chain::Next {
                next: *next,
                seq: *seq,
                more: *more,
            },
        },
    }
}

/// The payload, which is shared.
fn payload_in(part: &Part) -> Result<Option<Blob>, NoMemory>
    ensures { IfOk result (λ payload. bytes_in payload ≡ payload_in part.now) }
{
    match part {
        Part::Piece { frame, .. } => match frame {
            Frame::First { payload, .. } | Frame::Next { payload, .. } => Ok(Some(payload.copy()?)),
        },
        _ => Ok(None),
    }
}

fn headers_in(packet: &Packet) -> Headers
    requires { IsWithinBounds packet.now }
    ensures value { result ≡ headers_in packet.now }
    ensures is_packet { IsPacket packet.now }
{
    let Packet {
        src: Session(src),
        dst,
        part,
    } = packet;
    Headers {
        src: *src,
        dst: *dst,
        chain: chain_in(part),
    }
}

/// The bytes of a packet, which share its payload.
pub fn write(packet: &Packet) -> Result<PacketBytes, NoMemory>
    requires { IsWithinBounds packet.now }
    ensures ok { IfOk result (λ bytes. bytes ≡ spelling_of packet.now) }
    // So what is written is read again.
    ensures is_packet { IsPacket packet.now }
{
    let headers = headers_in(packet);
    let payload = payload_in(&packet.part)?;
    let length = headers.chain.layout().len() + bytes_in(&payload).len();
    Ok(PacketBytes::new(&headers, length as u16, payload))
}
