//! The side of one actor: the calls of LINX.
ghost use Rattle.std.specs.Prelude.{◌≡◌, ◌<◌, false, length};
ghost use Rattle.linx_base.specs.Content.{data_limit};
ghost use Rattle.journal.specs.declared.by.By.TheVariants.{Actor};
ghost use Rattle.journal.specs.Shapes.{node_by};
ghost use Rattle.node_kernel.specs.Answers.{is_end_event};
ghost use Rattle.fabric.specs.Actings.{asking};
ghost use Rattle.fabric.specs.Fits.{LeavesBy};
ghost use Rattle.turn_lock.specs.Passes.{IsPassOf};
ghost use Rattle.linx_api.specs.Asked.{CanAsk, IsActors, IsAsked, IsRunning};

use crate::asking::ask;
use crate::shared_fabric::SharedFabric;
use fabric::StepStop;
use journal::Event;
use linx_base::{AttRef, Name, Path, Peer, Signal};
use node_kernel::StepAnswer;
use sigsel::Sigsel;
use std::marker::Model;
use std::sync::Wait;
use turn_lock::{Pass, TurnLock};

/// The side of one actor at a shared fabric. Contracts see its pass.
#[derive(Drop)]
pub struct Endpoint<'a> {
    lock: &'a TurnLock<SharedFabric>,
    pass: Pass<SharedFabric>,
}

/// The endpoint after a call, and the answer.
pub type Told<'a> = (Endpoint<'a>, Result<StepAnswer, StepStop>);

impl<'a> Model for Endpoint<'a> {
    ghost use Rattle.journal.specs.declared.effect.Step.{Step};
    ghost use Rattle.turn_lock.specs.Passes.{PassView, IsPassOf};
    ghost use Rattle.linx_api.specs.Telling.{PlanParts};
    ghost use Rattle.linx_api.specs.Asked.{IsActors};

    ghost Value = { PassView Step PlanParts };

    ghost view = { λ e. e.pass };

    ghost invariant = { λ e. IsPassOf e.lock.now e.pass × IsActors e.pass };
}

impl<'a> Endpoint<'a> {
    ghost use Rattle.std.specs.Prelude.{Some, None};

    /// The side of the actor that has this pass.
    pub fn new(lock: &'a TurnLock<SharedFabric>, pass: Pass<SharedFabric>) -> Endpoint<'a>
        requires lock { IsPassOf lock.now pass }
        requires actor { IsActors pass }
        ensures { result ≡ pass }
    {
        Endpoint { lock, pass }
    }

    /// The pass, to go on otherwise, or to close the lock with.
    pub fn into_pass(self) -> Pass<SharedFabric>
        ensures { result ≡ self.entry }
    {
        self.pass
    }

    /// One event of the actor.
    pub fn ask<R: Wait>(self, rt: &R, event: Event, hand: Option<Signal>) -> Told<'a>
        requires { CanAsk self (asking event hand) }
        ensures asked { IsAsked self.entry (asking event hand) result.1 result.0 }
        ensures running { is_end_event event ≡ false → IsRunning result.0 }
    {
        let Endpoint { lock, pass } = self;
        let (pass, answer) = ask(rt, lock, pass, event, hand);
        (Endpoint { lock, pass }, answer)
    }

    /// Opens an endpoint of this name: linx_open.
    pub fn open<R: Wait>(self, rt: &R, name: Name) -> Told<'a>
        requires { IsRunning self }
        ensures asked { IsAsked self.entry (asking (Event.Open name) None) result.1 result.0 }
        ensures running { IsRunning result.0 }
    {
        self.ask(rt, Event::Open(name), None)
    }

    /// Closes the endpoint: linx_close.
    pub fn close<R: Wait>(self, rt: &R) -> Told<'a>
        requires { IsRunning self }
        ensures asked { IsAsked self.entry (asking Event.Close None) result.1 result.0 }
        ensures running { IsRunning result.0 }
    {
        self.ask(rt, Event::Close, None)
    }

    /// Sends a signal to a peer: linx_send.
    pub fn send<R: Wait>(self, rt: &R, signal: Signal, to: Peer) -> Told<'a>
        requires { IsRunning self }
        ensures asked { IsAsked self.entry (asking (Event.Send to) (Some signal)) result.1
            result.0 }
        ensures running { IsRunning result.0 }
    {
        self.ask(rt, Event::Send(to), Some(signal))
    }

    /// Takes the first signal that the filter selects: linx_receive_w_tmo, once. `NotYet` says that
    /// none is there yet, and `Nothing` that none is there while the actor is at rest.
    pub fn receive<R: Wait>(self, rt: &R, filter: Sigsel) -> Told<'a>
        requires { IsRunning self }
        ensures asked { IsAsked self.entry (asking (Event.Look filter) None) result.1 result.0 }
        ensures running { IsRunning result.0 }
    {
        self.ask(rt, Event::Look(filter), None)
    }

    /// Asks for an endpoint by its name, and hands over the signal that answers: linx_hunt. A path
    /// over a link is over one of the actor's node.
    pub fn hunt<R: Wait>(self, rt: &R, path: Path, signal: Signal) -> Told<'a>
        requires running { IsRunning self }
        requires link { LeavesBy self.fixed.shape
            (node_by self.fixed.shape (Actor self.number)) path }
        ensures asked { IsAsked self.entry (asking (Event.Hunt path) (Some signal)) result.1
            result.0 }
        ensures running { IsRunning result.0 }
    {
        self.ask(rt, Event::Hunt(path), Some(signal))
    }

    /// Attaches to a peer, and hands over the signal that tells of its end: linx_attach. The signal
    /// has room for the byte of a reason.
    pub fn attach<R: Wait>(self, rt: &R, peer: Peer, signal: Signal) -> Told<'a>
        requires running { IsRunning self }
        requires room { length signal.bytes < data_limit }
        ensures asked { IsAsked self.entry (asking (Event.Attach peer) (Some signal)) result.1
            result.0 }
        ensures running { IsRunning result.0 }
    {
        self.ask(rt, Event::Attach(peer), Some(signal))
    }

    /// Takes back an attach: linx_detach.
    pub fn detach<R: Wait>(self, rt: &R, r: AttRef) -> Told<'a>
        requires { IsRunning self }
        ensures asked { IsAsked self.entry (asking (Event.Detach r) None) result.1 result.0 }
        ensures running { IsRunning result.0 }
    {
        self.ask(rt, Event::Detach(r), None)
    }
}
