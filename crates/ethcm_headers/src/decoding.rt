//! The fields of headers, read at their places. Nothing is tested but the length and the types:
//! what else may stand there is found by spelling the headers again.

ghost use Rattle.std.specs.Prelude.{◌≡◌, ◌+◌, ◌≤◌, length, IfSome};
ghost use Rattle.ethcm_headers.specs.Chains.{number_at, kind_of, layout_at, layout_length};
ghost use Rattle.ethcm_headers.specs.Chains.{fields_at, chain_at, headers_at, FitsChain};
ghost use Rattle.ethcm_headers.specs.Chains.{FitsHeaders, layout_of, length_of};

use crate::chains::{Chain, Headers, Layout};
use crate::headers::{ACK, CONN, FRAG, NACK, NONE, UDATA};
use byteorder::{BigEndian, ByteOrder};
use linx_base::ConnKind;

#[tactic(auto, unfolding(crate::specs::Chains::number_at))]
fn u16_at(bytes: &[u8], place: usize) -> u16
    requires { place + 2 ≤ length bytes.now }
    ensures { result ≡ number_at 2 place bytes.now }
{
    BigEndian::read_u16(&bytes[place..])
}

#[tactic(auto, unfolding(crate::specs::Chains::number_at))]
fn u32_at(bytes: &[u8], place: usize) -> u32
    requires { place + 4 ≤ length bytes.now }
    ensures { result ≡ number_at 4 place bytes.now }
{
    BigEndian::read_u32(&bytes[place..])
}

#[tactic(auto, unfolding(crate::specs::Chains::number_at))]
fn u64_at(bytes: &[u8], place: usize) -> u64
    requires { place + 8 ≤ length bytes.now }
    ensures { result ≡ number_at 8 place bytes.now }
{
    BigEndian::read_u64(&bytes[place..])
}

fn kind_of(number: u8) -> Option<ConnKind>
    ensures { result ≡ kind_of number }
{
    match number {
        1 => Some(ConnKind::Connect),
        2 => Some(ConnKind::ConnectAck),
        3 => Some(ConnKind::Ack),
        4 => Some(ConnKind::Reset),
        _ => None,
    }
}

/// The headers that the types name.
#[tactic(auto, unfolding(crate::specs::Chains::layout_at))]
fn layout_at(bytes: &[u8]) -> Option<Layout>
    requires { 24 ≤ length bytes.now }
    ensures { result ≡ layout_at bytes.now }
{
    match bytes[1] {
        CONN => Some(Layout::Conn),
        NACK => Some(Layout::Nack),
        ACK => match bytes[20] {
            NONE => Some(Layout::Ack),
            UDATA => Some(Layout::First),
            FRAG => Some(Layout::Next),
            _ => None,
        },
        _ => None,
    }
}

/// The chain that the fields at their places make.
#[tactic(auto, unfolding(crate::specs::Chains::fields_at))]
fn fields_at(layout: Layout, bytes: &[u8]) -> Option<Chain>
    requires { layout_length layout ≤ length bytes.now }
    ensures value { result ≡ fields_at layout bytes.now }
    ensures fits { IfSome result FitsChain }
    ensures layout { IfSome result (λ chain. layout_of chain ≡ layout) }
{
    match layout {
        Layout::Conn => {
            let kind = kind_of(bytes[21])?;
            Some(Chain::Conn(kind))
        }
        Layout::Ack => Some(Chain::Ack {
            next: u32_at(bytes, 24),
        }),
        Layout::Nack => Some(Chain::Nack {
            next: u32_at(bytes, 24),
            count: u16_at(bytes, 22),
        }),
        Layout::First => Some(Chain::First {
            next: u32_at(bytes, 24),
            seq: u32_at(bytes, 32),
            more: bytes[29] == 1,
            from: u32_at(bytes, 36),
            to: u32_at(bytes, 40),
            size: u32_at(bytes, 44),
        }),
        Layout::Next => Some(Chain::Next {
            next: u32_at(bytes, 24),
            seq: u32_at(bytes, 32),
            more: bytes[29] == 1,
        }),
    }
}

fn chain_at(bytes: &[u8]) -> Option<Chain>
    requires { 24 ≤ length bytes.now }
    ensures value { result ≡ chain_at bytes.now }
    ensures fits { IfSome result FitsChain }
    ensures within { IfSome result (λ chain. length_of chain ≤ length bytes.now) }
{
    let layout = layout_at(bytes)?;
    if bytes.len() < layout.len() {
        return None;
    }
    fields_at(layout, bytes)
}

/// The headers at the front of a packet's bytes; `None` where these have no whole chain of the
/// protocol. The bytes behind the headers aren't looked at.
#[tactic(auto, unfolding(crate::specs::Chains::headers_at))]
pub fn headers_at(bytes: &[u8]) -> Option<Headers>
    ensures value { result ≡ headers_at bytes.now }
    ensures fits { IfSome result FitsHeaders }
    ensures within { IfSome result (λ headers. length_of headers.chain ≤ length bytes.now) }
{
    if bytes.len() < 24 {
        return None;
    }
    let chain = chain_at(bytes)?;
    Some(Headers {
        src: u64_at(bytes, 4),
        dst: u64_at(bytes, 12),
        chain,
    })
}
