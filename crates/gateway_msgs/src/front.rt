//! What the bytes of a stream begin with.
ghost use Rattle.std.specs.Prelude.{◌≡◌, ◌<◌};
ghost use Rattle.std.specs.List.{list_all};
ghost use Rattle.linx_base.specs.NameText.{is_name_byte};
ghost use Rattle.gateway_msgs.specs.Fronts.{IsFront};
ghost use Rattle.gateway_msgs.specs.Positions.{fits_size, is_asker, least_length, may_be_body};
ghost use Rattle.gateway_msgs.specs.Positions.{may_follow};

use crate::request::{
    ATTACH, CANCEL, CLOCK, CLOSE, DETACH, HUNT, MODIFY, OPEN, RECEIVE, SEND, TIMER,
};

/// How many bytes a length has.
const LENGTH_SIZE: usize = 4;

/// The least length, and the most.
const LENGTH_LEAST: u32 = 4;

const LENGTH_MOST: u32 = 65_548;

/// What the bytes of a stream begin with.
#[derive(Clone, Copy, Debug, PartialEq, Eq)]
pub enum Front {
    /// A request of so many bytes.
    Whole(usize),
    /// A part of a request, or nothing.
    More,
    /// No request, however they go on.
    Bad,
}

/// The length that the bytes begin with, or the least that they may become.
fn least_length(bytes: &[u8]) -> u32
    ensures { result ≡ least_length bytes.now }
{
    match bytes {
        [a, b, c, d, ..] => u32::from_be_bytes([*a, *b, *c, *d]),
        [a, b, c] => LENGTH_LEAST.max(u32::from_be_bytes([*a, *b, *c, 0])),
        [a, b] => LENGTH_LEAST.max(u32::from_be_bytes([*a, *b, 0, 0])),
        [a] => LENGTH_LEAST.max(u32::from_be_bytes([*a, 0, 0, 0])),
        [] => LENGTH_LEAST,
    }
}

/// Whether the body of a request of this type may have so many bytes.
fn fits_size(kind: u8, size: u32) -> bool
    ensures { result ≡ fits_size kind size }
{
    match kind {
        OPEN | HUNT => 1 <= size && size <= 32,
        CLOSE => size == 0,
        SEND => 12 <= size && size <= 65_544,
        RECEIVE => 4 <= size && size <= 260 && size % 4 == 0,
        TIMER => 8 <= size && size <= 65_540,
        MODIFY => size == 12,
        ATTACH | DETACH | CANCEL | CLOCK => size == 8,
        _ => false,
    }
}

/// Whether a request of this type may be this client's.
fn is_asker(clients: u8, kind: u8, client: u8) -> bool
    ensures { result ≡ is_asker clients kind client }
{
    if kind == CLOCK {
        client == 0
    } else {
        0 < client && client <= clients
    }
}

/// Whether a name may have this byte.
fn is_name_byte(byte: u8) -> bool
    ensures { result ≡ is_name_byte byte }
{
    byte.is_ascii_alphanumeric() || byte == b'_' || byte == b'-' || byte == b'.'
}

fn are_name_bytes(bytes: &[u8]) -> bool
    ensures { result ≡ list_all is_name_byte bytes.now }
{
    bytes.iter().all(|byte| is_name_byte(*byte))
}

/// Whether a body of this type may begin with these bytes, which are no more than it has.
fn may_be_body(kind: u8, part: &[u8]) -> bool
    ensures { result ≡ may_be_body kind part.now }
{
    match kind {
        OPEN | HUNT => are_name_bytes(part),
        _ => true,
    }
}

/// Whether these bytes, which are no more than it has, may stand behind the length of a request
/// whose body has so many bytes.
fn may_follow(clients: u8, size: u32, bytes: &[u8]) -> bool
    ensures { result ≡ may_follow clients size bytes.now }
{
    match bytes {
        [] => true,
        [kind] => fits_size(*kind, size),
        [kind, client] => fits_size(*kind, size) && is_asker(clients, *kind, *client),
        [kind, client, zero] => {
            fits_size(*kind, size) && is_asker(clients, *kind, *client) && *zero == 0
        }
        [kind, client, zero, last, body @ ..] => {
            fits_size(*kind, size)
                && is_asker(clients, *kind, *client)
                && *zero == 0
                && *last == 0
                && may_be_body(*kind, body)
        }
    }
}

/// What the bytes begin with, where there are so many clients, and a request may have as many bytes
/// as there is room. No byte behind the request is looked at.
pub fn front_of(clients: u8, room: u64, bytes: &[u8]) -> Front
    requires { 0 < clients }
    ensures { IsFront clients room bytes.now result }
{
    let length = least_length(bytes);
    if length < LENGTH_LEAST || LENGTH_MOST < length || room < u64::from(length) + 4 {
        return Front::Bad;
    }
    if bytes.len() < LENGTH_SIZE {
        return Front::More;
    }
    let size = length as usize + LENGTH_SIZE;
    let come = &bytes[LENGTH_SIZE..bytes.len().min(size)];
    if !may_follow(clients, length - LENGTH_LEAST, come) {
        return Front::Bad;
    }
    if bytes.len() < size {
        return Front::More;
    }
    Front::Whole(size)
}
