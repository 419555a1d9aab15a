//! The bytes of a reply, which take no memory where there is room for them.
ghost use Rattle.std.specs.Prelude.{◌≡◌, ◌+◌, ◌∷◌, ◌++◌, ◌<◌, ◌≤◌, length, vec_len, vec_capacity};
ghost use Rattle.byteorder.specs.Endian.{big_bytes};
ghost use Rattle.gateway_msgs.specs.Replies.{body_most, body_of_reply, reply_most, reply_spelling};
ghost use Rattle.gateway_msgs.specs.Replies.{status_of};

use crate::reply::Reply;
use byteorder::{BigEndian, ByteOrder};
use linx_base::{Inc, Signal};

/// The most bytes of a reply.
pub const REPLY_MOST: usize = 65_552;

/// A number in eight bytes.
fn eight(number: u64) -> [u8; 8]
    ensures { result ≡ big_bytes 8 number }
{
    let mut bytes = [0; 8];
    BigEndian::write_u64(&mut bytes, number);
    bytes
}

/// A number in four bytes.
fn four(number: u32) -> [u8; 4]
    ensures { result ≡ big_bytes 4 number }
{
    let mut bytes = [0; 4];
    BigEndian::write_u32(&mut bytes, number);
    bytes
}

/// What stands before the body of a reply: the length of the rest, the type, the client and the
/// status.
fn head(size: u32, kind: u8, client: u8, status: u16) -> [u8; 8]
    requires { kind < 128 }
    ensures { result ≡ big_bytes 4 size ++ ((kind + 128) ∷ client ∷ big_bytes 2 status) }
{
    let mut bytes = [0; 8];
    BigEndian::write_u32(&mut bytes, size);
    bytes[4] = kind + 128;
    bytes[5] = client;
    BigEndian::write_u16(&mut bytes[6..], status);
    bytes
}

/// The status of a reply.
fn status_of(reply: &Reply) -> u16
    ensures { result ≡ status_of reply.now }
{
    match reply {
        Reply::NotOpen { .. } => 1,
        Reply::IsOpen(_) => 2,
        Reply::Dead => 3,
        Reply::NotYet => 4,
        Reply::Nothing => 5,
        Reply::NoReference => 6,
        Reply::BadFilter => 7,
        Reply::BadMoment => 8,
        Reply::Done
        | Reply::Number(_)
        | Reply::Took { .. }
        | Reply::Detached { .. }
        | Reply::Sent(_) => 0,
    }
}

/// How many bytes the body of a reply has.
fn body_size(reply: &Reply) -> u32
    ensures size { result ≡ length (body_of_reply reply.now) }
    ensures few { result ≤ 65544 }
{
    match reply {
        Reply::Number(_) | Reply::NotOpen { .. } | Reply::IsOpen(_) => 8,
        Reply::Took { signal, .. } => signal.size() + 8,
        Reply::Detached { .. } => 1,
        Reply::Sent(_) => 4,
        Reply::Done
        | Reply::Dead
        | Reply::NotYet
        | Reply::Nothing
        | Reply::NoReference
        | Reply::BadFilter
        | Reply::BadMoment => 0,
    }
}

/// The number of a signal and its sender.
fn taken_head(number: u32, from: u64) -> [u8; 12]
    ensures { result ≡ big_bytes 4 number ++ big_bytes 8 from }
{
    let mut bytes = [0; 12];
    BigEndian::write_u32(&mut bytes, number);
    BigEndian::write_u64(&mut bytes[4..], from);
    bytes
}

/// Adds bytes where there is room for them.
fn add(out: &mut Vec<u8>, bytes: &[u8])
    requires room { vec_len out.old + length bytes.now ≤ vec_capacity out.old }
    ensures items { out.new.items ≡ out.old.items ++ bytes.now }
    ensures len { vec_len out.new ≡ vec_len out.old + length bytes.now }
    ensures room { vec_capacity out.old ≤ vec_capacity out.new }
{
    out.extend_from_slice(bytes).unwrap();
}

/// Adds a signal that was taken: its number, its sender and its data.
fn write_taken(out: &mut Vec<u8>, from: Inc, signal: &Signal)
    requires room { vec_len out.old + body_most ≤ vec_capacity out.old }
    ensures { out.new.items ≡ out.old.items ++ (big_bytes 4 signal.now.number
        ++ (big_bytes 8 from.0 ++ signal.now.bytes)) }
{
    add(out, &taken_head(signal.number(), from.0));
    add(out, signal.bytes());
}

/// Adds the body of a reply.
fn write_body(out: &mut Vec<u8>, reply: &Reply)
    requires room { vec_len out.old + body_most ≤ vec_capacity out.old }
    ensures { out.new.items ≡ out.old.items ++ body_of_reply reply.now }
{
    match reply {
        Reply::Number(number) => add(out, &eight(*number)),
        Reply::NotOpen { at } => add(out, &eight(*at)),
        Reply::IsOpen(inc) => add(out, &eight(inc.0)),
        Reply::Took { from, signal } => write_taken(out, *from, signal),
        Reply::Detached { queued } => add(out, &[u8::from(*queued)]),
        Reply::Sent(count) => add(out, &four(*count)),
        Reply::Done
        | Reply::Dead
        | Reply::NotYet
        | Reply::Nothing
        | Reply::NoReference
        | Reply::BadFilter
        | Reply::BadMoment => {}
    }
}

/// Adds the bytes of the reply to a request of this type, of this client. It takes no memory: there
/// is room for the longest reply.
pub fn write_reply(out: &mut Vec<u8>, kind: u8, client: u8, reply: &Reply)
    requires kind { kind < 128 }
    requires room { vec_len out.old + reply_most ≤ vec_capacity out.old }
    ensures { out.new.items ≡ out.old.items ++ reply_spelling kind client reply.now }
{
    let head = head(body_size(reply) + 4, kind, client, status_of(reply));
    add(out, &head);
    write_body(out, reply);
}
