//! What each command asks for, once its names are looked up.
ghost use Rattle.std.specs.Prelude.{◌≡◌, IfOk, IsTrue};
ghost use Rattle.linx_base.specs.Content.{data_limit};
ghost use Rattle.journal.specs.declared.event.Event.TheVariants.{Hunt};
ghost use Rattle.script_words.specs.Filling.{data_of, fits_data};
ghost use Rattle.node_kernel.specs.Answers.{refused};
ghost use Rattle.actor_run.specs.Asking.{ask_attach, ask_detach, ask_send, bare, signal_of};
ghost use Rattle.actor_run.specs.Asking.{with_hand};

use crate::filled::Filled;
use crate::fillings::signal_filled;
use journal::{Event, Refusal};
use linx_base::{AttRef, NoMemory, Path, Peer, Signal, TryCopy};
use node_kernel::Ask;
use script_lang::Filling;
use std::alloc::Global;

/// An event with nothing in hand.
pub(crate) fn empty_handed(event: Event) -> Ask
    ensures { result ≡ bare event }
{
    Ask { event, hand: None }
}

/// An event with this signal in hand.
pub(crate) fn holding(event: Event, signal: Signal) -> Ask
    ensures { result ≡ with_hand event signal }
{
    Ask {
        event,
        hand: Some(signal),
    }
}

/// A refusal, in place of a command.
pub(crate) fn refuse(reason: Refusal) -> Ask
    ensures { result ≡ refused reason }
{
    empty_handed(Event::Refuse(reason))
}

/// What a send asks for.
pub(crate) fn ask_send(
    alloc: Global,
    last: &mut Option<Filled>,
    peer: Option<Peer>,
    number: u32,
    bytes: &Filling,
) -> Result<Ask, NoMemory>
    requires { IsTrue (fits_data data_limit bytes.now) }
    ensures { IfOk result (λ ask. ask ≡ ask_send peer (signal_of number (data_of bytes.now))) }
{
    match peer {
        Some(peer) => {
            let signal = signal_filled(alloc, last, number, bytes)?;
            Ok(holding(Event::Send(peer), signal))
        }
        None => Ok(refuse(Refusal::NoPeer)),
    }
}

/// What a hunt asks for.
pub(crate) fn ask_hunt(
    alloc: Global,
    last: &mut Option<Filled>,
    path: &Path,
    number: u32,
    bytes: &Filling,
) -> Result<Ask, NoMemory>
    requires { IsTrue (fits_data data_limit bytes.now) }
    ensures { IfOk result (λ ask. ask
        ≡ with_hand (Hunt path.now) (signal_of number (data_of bytes.now))) }
{
    let path = path.copy()?;
    match signal_filled(alloc, last, number, bytes) {
        Ok(signal) => Ok(holding(Event::Hunt(path), signal)),
        Err(refusal) => {
            drop(path);
            Err(refusal)
        }
    }
}

/// What an attach asks for.
pub(crate) fn ask_attach(
    alloc: Global,
    last: &mut Option<Filled>,
    peer: Option<Peer>,
    number: u32,
    bytes: &Filling,
) -> Result<Ask, NoMemory>
    requires { IsTrue (fits_data data_limit bytes.now) }
    ensures { IfOk result (λ ask. ask ≡ ask_attach peer (signal_of number (data_of bytes.now))) }
{
    match peer {
        Some(peer) => {
            let signal = signal_filled(alloc, last, number, bytes)?;
            Ok(holding(Event::Attach(peer), signal))
        }
        None => Ok(refuse(Refusal::NoPeer)),
    }
}

/// What a detach asks for.
pub(crate) fn ask_detach(reference: Option<AttRef>) -> Ask
    ensures { result ≡ ask_detach reference }
{
    match reference {
        Some(reference) => empty_handed(Event::Detach(reference)),
        None => refuse(Refusal::NoRef),
    }
}
