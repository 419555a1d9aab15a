ghost use Rattle.std.specs.Prelude.{◌≡◌, ◌<◌, ◌≤◌, ◌^◌, ◌++◌, ◌↔◌, List, ℕ, IsTrue, IfSome, IfNone};
ghost use Rattle.std.specs.Prelude.{IfOk, IfErr};
ghost use Rattle.byteorder.specs.Endian.{big_bytes};
ghost use Rattle.rlnh_messages.specs.declared.rlnh.Rlnh.{Rlnh as AnyMessage};
ghost use Rattle.rlnh_messages.specs.Messages.{typed, IsAddress, Spells};
ghost use Rattle.rlnh_messages.specs.Readings.{IsNameReading, IsRlnhReading};

use crate::fields::{address_in, type_in, u64_in};
use crate::rlnh::{INIT, INIT_REPLY, PUBLISH, QUERY_NAME, Rlnh, UNPUBLISH, UNPUBLISH_ACK};
use linx_base::{Inc, Name, NameError};
use std::alloc::Global;
use std::error::Error;
use std::fmt;

/// Why bytes gave no message.
#[derive(Clone, Copy, Debug, PartialEq, Eq, Hash)]
pub enum RlnhError {
    Bad,
    NoMemory,
}

impl fmt::Display for RlnhError {
    ghost use Rattle.std.specs.Prelude.{Some};
    ghost use Rattle.rlnh_messages.specs.Failures.{error_text};

    ghost output = { λ error. Some (error_text error) };

    fn fmt<W: fmt::Write>(&self, f: &mut fmt::Formatter<W>) -> fmt::Result {
        f.write_str(match self {
            RlnhError::Bad => "not a message",
            RlnhError::NoMemory => "out of memory",
        })
    }
}

impl Error for RlnhError {}

/// The name that these bytes are.
fn name_in(alloc: Global, bytes: &[u8]) -> Result<Name, RlnhError>
    ensures { IsNameReading result bytes.now }
{
    match Name::of(alloc, bytes) {
        Ok(name) => Ok(name),
        Err(NameError::BadName) => Err(RlnhError::Bad),
        Err(NameError::NoMemory) => Err(RlnhError::NoMemory),
    }
}

/// Whether the bytes are the version.
fn is_version(bytes: &[u8]) -> bool
    ensures { IsTrue result ↔ (bytes.now ≡ big_bytes 4 1) }
{
    bytes == [0, 0, 0, 1].as_slice()
}

/// The address that the bytes are.
fn whole_address(bytes: &[u8]) -> Option<u32>
    ensures found { IfSome result (λ addr. IsAddress addr × (bytes.now ≡ big_bytes 4 addr)) }
    ensures none { IfNone result ((addr : ℕ) → IsAddress addr → ¬ (bytes.now ≡ big_bytes 4 addr)) }
{
    let Some((addr, rest)) = address_in(bytes) else {
        return None;
    };
    if !rest.is_empty() {
        return None;
    }
    Some(addr)
}

/// The fields of PUBLISH.
fn publish_fields(bytes: &[u8]) -> Option<(u32, u64, &[u8])>
    ensures found { IfSome result
        (λ f. IsAddress f.0 × (f.1 < 2 ^ 64)
        × (bytes.now ≡ big_bytes 4 f.0 ++ (big_bytes 8 f.1 ++ f.2.now))) }
    ensures none { IfNone result
        ((addr inc : ℕ) (name : List ℕ) → IsAddress addr
        → ¬ (bytes.now ≡ big_bytes 4 addr ++ (big_bytes 8 inc ++ name))) }
{
    let Some((addr, rest)) = address_in(bytes) else {
        return None;
    };
    let Some((inc, name)) = u64_in(rest) else {
        return None;
    };
    Some((addr, inc, name))
}

/// What stands behind the type of INIT or of its reply.
fn init_in(kind: u8, rest: &[u8]) -> Result<Rlnh, RlnhError>
    requires { (1 ≤ kind) × (kind ≤ 2) }
    ensures { IsRlnhReading result (typed kind rest.now) }
{
    if !is_version(rest) {
        return Err(RlnhError::Bad);
    }
    if kind == INIT {
        return Ok(Rlnh::Init);
    }
    Ok(Rlnh::InitReply)
}

fn query_in(alloc: Global, rest: &[u8]) -> Result<Rlnh, RlnhError>
    ensures { IsRlnhReading result (typed 3 rest.now) }
{
    match name_in(alloc, rest) {
        Ok(name) => Ok(Rlnh::QueryName(name)),
        Err(error) => Err(error),
    }
}

fn publish_in(alloc: Global, rest: &[u8]) -> Result<Rlnh, RlnhError>
    ensures { IsRlnhReading result (typed 4 rest.now) }
{
    let Some((addr, inc, name)) = publish_fields(rest) else {
        return Err(RlnhError::Bad);
    };
    match name_in(alloc, name) {
        Ok(name) => Ok(Rlnh::Publish {
            addr,
            inc: Inc(inc),
            name,
        }),
        Err(error) => Err(error),
    }
}

/// What stands behind the type of UNPUBLISH or of its answer.
fn unpublish_in(kind: u8, rest: &[u8]) -> Result<Rlnh, RlnhError>
    requires { (5 ≤ kind) × (kind ≤ 6) }
    ensures { IsRlnhReading result (typed kind rest.now) }
{
    let Some(addr) = whole_address(rest) else {
        return Err(RlnhError::Bad);
    };
    if kind == UNPUBLISH {
        return Ok(Rlnh::Unpublish(addr));
    }
    Ok(Rlnh::UnpublishAck(addr))
}

fn message_in(alloc: Global, bytes: &[u8]) -> Result<Rlnh, RlnhError>
    ensures { IsRlnhReading result bytes.now }
{
    let Some((kind, rest)) = type_in(bytes) else {
        return Err(RlnhError::Bad);
    };
    match kind {
        INIT => init_in(INIT, rest),
        INIT_REPLY => init_in(INIT_REPLY, rest),
        QUERY_NAME => query_in(alloc, rest),
        PUBLISH => publish_in(alloc, rest),
        UNPUBLISH => unpublish_in(UNPUBLISH, rest),
        UNPUBLISH_ACK => unpublish_in(UNPUBLISH_ACK, rest),
        _ => Err(RlnhError::Bad),
    }
}

/// The message that the bytes spell. Bytes that are no message's spelling are `Bad`.
pub fn read(alloc: Global, bytes: &[u8]) -> Result<Rlnh, RlnhError>
    // What is read is so spelled, and the message that is so spelled is read.
    ensures found { IfOk result (λ message. Spells message bytes.now) }
    ensures only { IfOk result
        (λ message. (other : AnyMessage) → Spells other bytes.now → message ≡ other) }

    // Bad comes exactly where there is no such message.
    ensures bad { ((message : AnyMessage) → ¬ (Spells message bytes.now))
        → result ≡ Err RlnhError.Bad }
    ensures bad_only { IfErr result
        (λ e. e ≡ RlnhError.Bad → (message : AnyMessage) → ¬ (Spells message bytes.now)) }
{
    message_in(alloc, bytes)
}
