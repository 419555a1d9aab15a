//! The signals that the actors exchange: their numbers, which both sides know, and their data, which
//! is one number of four bytes.
ghost use Rattle.std.specs.Prelude.{◌≡◌, IfOk, length};

use anyhow::{Result, bail};
use linx_base::Signal;
use std::alloc::Global;

/// From a client to the server: this number is to be doubled.
pub const DOUBLE: u32 = 1;

/// From the server to a client: the doubled number.
pub const DOUBLED: u32 = 2;

/// To who hunted, from the endpoint that was found.
pub const FOUND: u32 = 3;

/// To who attached, from the endpoint that ended. The reason is one byte more, behind the data.
pub const ENDED: u32 = 4;

/// A signal with a number in its data: linx_alloc.
pub fn signal_with(alloc: Global, signal_number: u32, value: u32) -> Result<Signal>
    ensures { IfOk result (λ signal. length signal.bytes ≡ 4) }
{
    Ok(Signal::alloc(alloc, signal_number, &value.to_be_bytes())?)
}

/// The number in the data of a signal.
pub fn value_of(signal: &Signal) -> Result<u32> {
    let [a, b, c, d] = signal.bytes() else {
        bail!("a signal has no four bytes of data");
    };
    Ok(u32::from_be_bytes([*a, *b, *c, *d]))
}
