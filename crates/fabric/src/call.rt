//! A call that an actor makes at its open endpoint: what it makes of the journal and of the node's
//! kernel.

ghost use Rattle.std.specs.Prelude.{◌≡◌, ◌+◌, ◌<◌, length, IfErr, IfOk, OnErr, IsTrue};
ghost use Rattle.node_kernel.specs.Nodes.{is_open};
ghost use Rattle.fabric.specs.Calls.{HasRoom, IsBounded, IsCallMade, IsKnown, call_made};
ghost use Rattle.fabric.specs.Calls.{hand_of_call, refusal_with};

use crate::makings::{make_attach, make_close, make_detach, make_hunt, make_send};
use crate::stop::StepStop;
use crate::watched_journal::WatchedJournal;
use journal::{By, Head};
use linx_base::{AttRef, Inc, Path, Peer, Signal};
use node_kernel::{Kernel, StepAnswer};
use std::alloc::Global;

/// What an actor does at its open endpoint, besides a look.
#[derive(Drop)]
pub(crate) enum Call {
    Close,
    /// The actor's end, which closes the endpoint.
    End,
    Send(Peer, Signal),
    Hunt(Path, Signal),
    Attach(Peer, Signal),
    Detach(AttRef),
}

impl Call {
    /// The signal that goes with it, if one does.
    pub(crate) fn into_hand(self) -> Option<Signal>
        ensures { result ≡ hand_of_call self }
    {
        match self {
            Call::Send(_to, signal) => Some(signal),
            Call::Hunt(_path, signal) => Some(signal),
            Call::Attach(_peer, signal) => Some(signal),
            Call::Close | Call::End | Call::Detach(_) => None,
        }
    }
}

/// Whether the peer of a send is alive. Of another call it says nothing.
pub(crate) fn is_to_living(kernel: &Kernel, call: &Call) -> bool
    ensures { IsKnown kernel.now call.now result }
{
    match call {
        Call::Send(to, _) => kernel.is_living(*to),
        _ => false,
    }
}

/// Makes a call at an open endpoint of the node, where it is known whether the peer of a send is
/// alive. A refusal changes nothing, and gives the signal back.
pub(crate) fn make_call(
    alloc: Global,
    journal: &mut WatchedJournal,
    kernel: &mut Kernel,
    by: By,
    at: Inc,
    call: Call,
    living: bool,
) -> Result<StepAnswer, StepStop>
    requires is_open { IsTrue (is_open kernel.old.endpoints at) }
    requires known { IsKnown kernel.old call living }
    requires short { length journal.old.log.steps < 200000 }
    requires room { HasRoom call }
    ensures made { IfOk result (λ answer. IsCallMade
        (call_made kernel.old (length journal.old.log.steps + 1) at call) by
        journal.old.log journal.new.log kernel.new answer) }
    ensures bounded { IsBounded call }
    ensures stop { IfErr result (λ stop. stop ≡ refusal_with (hand_of_call call)) }
    ensures err { OnErr result ((journal.new.log ≡ journal.old.log) × (kernel.new ≡ kernel.old)) }
{
    match call {
        Call::Close => {
            make_close(journal, kernel, by, Head::Close, at)?;
            Ok(StepAnswer::Closed)
        }
        Call::End => {
            make_close(journal, kernel, by, Head::Ended, at)?;
            Ok(StepAnswer::Done)
        }
        Call::Send(to, signal) => {
            let sent = make_send(alloc, journal, kernel, by, at, to, signal, living)?;
            Ok(StepAnswer::Sent(sent))
        }
        Call::Hunt(path, signal) => {
            let number = make_hunt(journal, kernel, by, at, path, signal)?;
            Ok(StepAnswer::Hunted(number))
        }
        Call::Attach(peer, signal) => {
            let reference = make_attach(journal, kernel, by, at, peer, signal)?;
            Ok(StepAnswer::Attached(reference))
        }
        Call::Detach(r) => {
            let answer = make_detach(alloc, journal, kernel, by, at, r)?;
            Ok(StepAnswer::Detached(answer))
        }
    }
}
