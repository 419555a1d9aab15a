//! The bounds of a packet that is taken apart into headers and payload.

ghost use Rattle.std.specs.Prelude.{◌≡◌, ◌<◌, ◌≤◌, ◌↔◌, [], length, IsTrue, MatchBool};
ghost use Rattle.linx_base.specs.declared.frame.ConnKind.TheVariants.{Connect};
ghost use Rattle.ethcm_headers.specs.declared.packets.Part.TheVariants.{Conn};
ghost use Rattle.linx_base.specs.Frames.{IsPayload, body_limit};
ghost use Rattle.ethcm_headers.specs.Packets.{IsPart, IsWithinBounds};
ghost use Rattle.ethcm_headers.specs.Chains.{StandsBehind, part_with, packet_with};

use crate::chains::{Chain, Headers};
use linx_base::ConnKind;

/// The most bytes of a payload.
const PAYLOAD_MOST: usize = 8_192;

/// The most bytes of a message's body.
const BODY_MOST: u32 = 65_536;

/// No frame has this number, or a greater one.
const FRAME_END: u32 = 4_294_967_295;

/// The most frames that a NACK asks for.
const COUNT_MOST: u16 = 256;

fn is_payload(payload: &[u8]) -> bool
    ensures { IsTrue result ↔ IsPayload payload.now }
{
    1 <= payload.len() && payload.len() <= PAYLOAD_MOST
}

fn is_of_size(payload: &[u8], size: u32, more: bool) -> bool
    ensures { IsTrue result ↔ ((1 ≤ size) × (size ≤ body_limit)
        × MatchBool more (length payload.now < size) (length payload.now ≡ size)) }
{
    if size < 1 || BODY_MOST < size {
        return false;
    }
    let size = size as usize;
    if more {
        payload.len() < size
    } else {
        payload.len() == size
    }
}

/// Whether the chain and the payload behind it keep the bounds of what a packet brings.
fn is_part(chain: &Chain, payload: &[u8]) -> bool
    ensures { IsTrue result ↔ (IsPart (part_with chain.now payload.now)
        × StandsBehind payload.now chain.now) }
{
    match *chain {
        Chain::Conn(_) => payload.is_empty(),
        Chain::Ack { .. } => payload.is_empty(),
        Chain::Nack { count, .. } => 1 <= count && count <= COUNT_MOST && payload.is_empty(),
        Chain::First {
            seq,
            more,
            size,
            ..
        } => seq < FRAME_END && is_payload(payload) && is_of_size(payload, size, more),
        Chain::Next { seq, .. } => seq < FRAME_END && is_payload(payload),
    }
}

fn is_connect(chain: &Chain) -> bool
    ensures { IsTrue result ↔ (part_with chain.now [] ≡ Conn Connect) }
{
    matches!(chain, Chain::Conn(ConnKind::Connect))
}

fn are_sessions(headers: &Headers) -> bool
    ensures { IsTrue result ↔ ((0 < headers.now.src)
        × ((headers.now.dst ≡ 0) ↔ (part_with headers.now.chain [] ≡ Conn Connect))) }
{
    headers.src != 0 && (headers.dst == 0) == is_connect(&headers.chain)
}

/// Whether these headers and this payload keep the bounds of a packet, with no payload behind a
/// packet that is no piece.
pub(crate) fn is_packet(headers: &Headers, payload: &[u8]) -> bool
    ensures { IsTrue result ↔ (IsWithinBounds (packet_with headers.now payload.now)
        × StandsBehind payload.now headers.now.chain) }
{
    are_sessions(headers) && is_part(&headers.chain, payload)
}
