//! What a message is read as.
ghost use Rattle.std.specs.Prelude.{◌≡◌, ◌<◌, IfOk};
ghost use Rattle.rlnh_end.specs.declared.heard.Heard.{Heard as AnyHeard};
ghost use Rattle.rlnh_end.specs.Hearing.{HasAddresses, IsRead};

use crate::heard::Heard;
use linx_base::{Message, NoMemory};
use rlnh_messages::{RlnhError, read, read_signal};
use std::alloc::Global;

/// What a message with no addresses is read as.
fn control_in(alloc: Global, m: &Message) -> Result<Heard, NoMemory>
    requires from { m.now.from ≡ 0 }
    requires to { m.now.to ≡ 0 }
    ensures is { IfOk result (λ heard. IsRead m.now heard) }
    ensures only { IfOk result
        (λ heard. (other : AnyHeard) → IsRead m.now other → heard ≡ other) }
{
    match read(alloc, m.body.bytes()) {
        Ok(message) => Ok(Heard::Control(message)),
        Err(RlnhError::Bad) => Ok(Heard::Garbage),
        Err(RlnhError::NoMemory) => Err(NoMemory),
    }
}

/// What a message with both addresses is read as.
fn signal_in(m: &Message) -> Result<Heard, NoMemory>
    requires { HasAddresses m.now }
    ensures is { IfOk result (λ heard. IsRead m.now heard) }
    ensures only { IfOk result
        (λ heard. (other : AnyHeard) → IsRead m.now other → heard ≡ other) }
{
    match read_signal(&m.body) {
        Ok(signal) => Ok(Heard::Signal {
            from: m.from,
            to: m.to,
            signal,
        }),
        Err(RlnhError::Bad) => Ok(Heard::Garbage),
        Err(RlnhError::NoMemory) => Err(NoMemory),
    }
}

/// What a message is read as, which is one thing.
pub(crate) fn heard_in(alloc: Global, m: &Message) -> Result<Heard, NoMemory>
    ensures is { IfOk result (λ heard. IsRead m.now heard) }
    ensures only { IfOk result
        (λ heard. (other : AnyHeard) → IsRead m.now other → heard ≡ other) }
{
    if m.from == 0 && m.to == 0 {
        return control_in(alloc, m);
    }
    if m.from == 0 || m.to == 0 {
        return Ok(Heard::Garbage);
    }
    signal_in(m)
}
