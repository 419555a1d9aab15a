//! Signals with the bytes that a script says.
ghost use Rattle.std.specs.Prelude.{◌≡◌, IfOk, IsTrue};
ghost use Rattle.linx_base.specs.Content.{data_limit};
ghost use Rattle.script_words.specs.Filling.{data_of, fits_data};
ghost use Rattle.actor_run.specs.Asking.{signal_of};

use crate::filled::{Filled, filled_with};
use linx_base::{Blob, NoMemory, Signal, TryCopy};
use script_lang::Filling;
use std::alloc::Global;

/// The bytes that a filling stands for, for a signal of this number. Those of the script are shared,
/// and so are those that were filled last.
fn bytes_of(
    alloc: Global,
    last: &mut Option<Filled>,
    number: u32,
    filling: &Filling,
) -> Result<Blob, NoMemory>
    ensures { IfOk result (λ bytes. bytes ≡ data_of filling.now) }
{
    match filling {
        Filling::Bytes(bytes) => bytes.copy(),
        Filling::Repeat { count, byte } => filled_with(alloc, last, number, *count, *byte),
    }
}

/// A signal of this number, with the bytes that its filling stands for.
#[tactic(auto, using(crate::proofs::Runnable::within))]
pub(crate) fn signal_filled(
    alloc: Global,
    last: &mut Option<Filled>,
    number: u32,
    filling: &Filling,
) -> Result<Signal, NoMemory>
    requires { IsTrue (fits_data data_limit filling.now) }
    ensures { IfOk result (λ signal. signal ≡ signal_of number (data_of filling.now)) }
{
    let bytes = bytes_of(alloc, last, number, filling)?;
    Ok(Signal::of(number, bytes))
}
