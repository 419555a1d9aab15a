//! The bodies by which signals go over a link: the signal's number, and its data.

ghost use Rattle.std.specs.Prelude.{◌≡◌, IfOk, IfErr};
ghost use Rattle.linx_base.specs.SigNotes.{SigNote as AnySignal};
ghost use Rattle.rlnh_messages.specs.Signals.{IsSignal, IsSignalBody, SpellsSignal, signal_body};

use crate::fields::u32_in;
use crate::reading::RlnhError;
use byteorder::{BigEndian, ByteOrder};
use linx_base::{Blob, NoMemory, Signal};

/// The bytes of a signal's number.
const NUMBER_SIZE: usize = 4;

/// The most bytes of a message's body.
const BODY_MOST: usize = 65_536;

/// The body by which a signal goes. It shares the signal's bytes where these stand behind its number
/// already, as those of a signal do that came over a link.
pub fn write_signal(signal: &Signal) -> Result<Blob, NoMemory>
    ensures ok { IfOk result (λ body. body ≡ signal_body signal.now) }
    // So what is written is read again.
    ensures is_signal { IsSignal signal.now }
{
    let mut number = [0; NUMBER_SIZE];
    BigEndian::write_u32(&mut number, signal.number());
    signal.data().behind(&number)
}

/// The signal that goes by this body, whose bytes its data share. A body of fewer than 4 bytes, or
/// of more than 65,536, is `Bad`.
pub fn read_signal(body: &Blob) -> Result<Signal, RlnhError>
    // What is read is so spelled, and the signal that is so spelled is read.
    ensures found { IfOk result (λ signal. SpellsSignal signal body.now) }
    ensures only { IfOk result
        (λ signal. (other : AnySignal) → SpellsSignal other body.now → signal ≡ other) }
    ensures bad { ¬ IsSignalBody body.now → result ≡ Err RlnhError.Bad }
    ensures bad_only { IfErr result (λ e. e ≡ RlnhError.Bad → ¬ IsSignalBody body.now) }
{
    let Some((number, _data)) = u32_in(body.bytes()) else {
        return Err(RlnhError::Bad);
    };
    if BODY_MOST < body.len() {
        return Err(RlnhError::Bad);
    }
    match body.part(NUMBER_SIZE, body.len()) {
        Ok(data) => Ok(Signal::of(number, data)),
        Err(_refusal) => Err(RlnhError::NoMemory),
    }
}
