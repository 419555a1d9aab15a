//! The gateway: what it holds, and what it makes of each request.
ghost use Rattle.std.specs.Prelude.{◌≡◌, ◌<◌, ◌≤◌, ℕ, true, false, IfOk, IfErr, OnOk, OnErr, None};
ghost use Rattle.std.specs.Prelude.{Some, is_some};
ghost use Rattle.std.specs.List.{list_any};
ghost use Rattle.linx_base.specs.FirstMatch.{without_match};
ghost use Rattle.journal.specs.Laws.{IsMaker};
ghost use Rattle.journal.specs.Logs.{is_full};
ghost use Rattle.link_laws.specs.Laws.{IsLegal};
ghost use Rattle.fabric.specs.Actings.{OnlyRuns, asking};
ghost use Rattle.fabric.specs.Asks.{FitsEvent};
ghost use Rattle.fabric.specs.Machine.{hands_over, signal_in};
ghost use Rattle.journal.specs.Shapes.{node_by};
ghost use Rattle.linx_timers.specs.Times.{is_timer};
ghost use Rattle.gateway_msgs.specs.Requests.{FitsFields};
ghost use Rattle.gateway_core.specs.Handling.{Handles, IsAskerOf, IsClient, IsClosing, IsCore};
ghost use Rattle.gateway_core.specs.Handling.{IsMadeOf, IsOwner, IsSending, Stops, StopsAmid};
ghost use Rattle.gateway_core.specs.Handling.{Strikes, bare, done_or_none, first_state};
ghost use Rattle.gateway_core.specs.Handling.{last_moment, leaves_open, makes_steps};

use crate::replying::reply_to;
use fabric::{Fabric, StopCause};
use gateway_msgs::{Reply, Request, filter_of};
use journal::{By, Event, Journal};
use linx_base::{Name, NameList, Names, NoMemory, NodeNo, Path, Peer, Signal};
use linx_timers::{Due, Timers};
use std::alloc::Global;
use std::marker::Model;

/// The number of a hunt's signal, and that of an attach's.
const FOUND: u32 = 251;

const NOTIFIED: u32 = 252;

/// The latest moment that the clock takes.
const LAST_MOMENT: u64 = 1 << 62;

/// The clients of a gateway: their fabric, their timers and their clock.
#[derive(Drop)]
pub struct Gateway {
    alloc: Global,
    fabric: Fabric,
    timers: Timers,
    clock: u64,
    requested: u64,
}

impl Model for Gateway {
    ghost use Rattle.gateway_core.specs.Handling.{GateState, IsGateway};

    ghost Value = { GateState };

    ghost view = { λ g. record {
      layout = g.fabric;
      timers = g.timers;
      clock = g.clock;
      requested = g.requested;
    } };

    ghost invariant = { λ g. IsGateway (record {
      layout = g.fabric;
      timers = g.timers;
      clock = g.clock;
      requested = g.requested;
    }) };
}

/// The reply where a reference was found, or not.
fn done_or_none(found: bool) -> Reply
    ensures { result ≡ done_or_none found }
{
    if found {
        Reply::Done
    } else {
        Reply::NoReference
    }
}

/// Cancels a timer, and says whether there was one.
fn cancel_in(timers: &mut Timers, client: u32, reference: u64) -> bool
    ensures any { result ≡ list_any (is_timer client reference) timers.old }
    ensures others { timers.new ≡ without_match (is_timer client reference) timers.old }
{
    timers.cancel(client, reference).is_some()
}

/// What a client asks of the fabric is made, and its answer is the reply.
fn ask(
    fabric: &mut Fabric,
    client: u32,
    event: Event,
    hand: Option<Signal>,
) -> Result<Reply, StopCause>
    requires maker { IsMaker fabric.old.shape fabric.old.log.steps (By.Actor client) }
    requires handed { is_some hand ≡ hands_over event }
    requires fits { FitsEvent fabric.old (node_by fabric.old.shape (By.Actor client)) event
        (signal_in hand) }
    ensures ok { IfOk result (IsMadeOf client (asking event hand) fabric.old fabric.new) }
    ensures fixed { OnlyRuns fabric.old fabric.new }
    ensures err { OnErr result (fabric.new ≡ fabric.old) }
    ensures full { is_full fabric.old.log.steps ≡ true → result ≡ Err StopCause.JournalFull }
    ensures full_only { IfErr result (λ cause. cause ≡ StopCause.JournalFull
        → is_full fabric.old.log.steps ≡ true) }
{
    match fabric.step(By::Actor(client), event, hand) {
        Ok(answer) => Ok(reply_to(answer)),
        Err(stop) => Err(stop.cause),
    }
}

impl Gateway {
    /// A gateway for so many clients, 1 to 16, at moment 0.
    pub fn new(alloc: Global, clients: u32) -> Result<Gateway, NoMemory>
        requires { (0 < clients) × (clients ≤ 16) }
        ensures { IfOk result (λ gateway. gateway ≡ first_state clients) }
    {
        let mut nodes = NameList::new(alloc);
        let Ok(name) = Name::of(alloc, b"g") else {
            return Err(NoMemory);
        };
        nodes.push(name)?;
        let names = Names {
            nodes,
            links: NameList::new(alloc),
        };
        let mut actors = Vec::new(alloc);
        for _client in 0..clients {
            actors.push(NodeNo(1))?;
        }
        Ok(Gateway {
            alloc,
            fabric: Fabric::new(alloc, names, &[], &actors)?,
            timers: Timers::new(alloc),
            clock: 0,
            requested: 0,
        })
    }

    /// The journal of all that was done.
    pub fn into_journal(self) -> Journal
        ensures log { result.log ≡ self.layout.log }
        ensures legal { IsLegal self.layout.shape self.layout.log.steps }
    {
        self.fabric.into_journal()
    }

    /// A call of a client that closes no endpoint, or why it couldn't be made.
    fn core(&mut self, client: u32, event: Event, hand: Option<Signal>) -> Result<Reply, StopCause>
        requires client { IsClient self.old.layout client }
        requires leaves { leaves_open event ≡ true }
        requires handed { is_some hand ≡ hands_over event }
        requires fits { FitsEvent self.old.layout
            (node_by self.old.layout.shape (By.Actor client)) event (signal_in hand) }
        ensures ok { IfOk result (IsCore client event hand self.old self.new) }
        ensures clients { self.new.layout.shape ≡ self.old.layout.shape }
        ensures err { OnErr result (self.new ≡ self.old) }
        ensures full { is_full self.old.layout.log.steps ≡ true
            → result ≡ Err StopCause.JournalFull }
        ensures full_only { IfErr result (λ cause. cause ≡ StopCause.JournalFull
            → is_full self.new.layout.log.steps ≡ true) }
    {
        let reply = ask(&mut self.fabric, client, event, hand)?;
        Ok(reply)
    }

    /// A hunt or an attach, with its signal.
    fn ask_for(&mut self, client: u32, event: Event, number: u32) -> Result<Reply, StopCause>
        requires client { IsClient self.old.layout client }
        requires leaves { leaves_open event ≡ true }
        requires handed { true ≡ hands_over event }
        requires fits { FitsEvent self.old.layout
            (node_by self.old.layout.shape (By.Actor client)) event (bare number) }
        ensures ok { IfOk result (IsCore client event (Some (bare number)) self.old self.new) }
        ensures clients { self.new.layout.shape ≡ self.old.layout.shape }
        ensures err { OnErr result (self.new ≡ self.old) }
        ensures full_only { IfErr result (λ cause. cause ≡ StopCause.JournalFull
            → is_full self.new.layout.log.steps ≡ true) }
    {
        let Ok(signal) = Signal::alloc(self.alloc, number, &[]) else {
            return Err(StopCause::NoMemory);
        };
        self.core(client, event, Some(signal))
    }

    /// Closes a client's endpoint, and frees its timers.
    fn close(&mut self, client: u32) -> Result<Reply, StopCause>
        requires { IsClient self.old.layout client }
        ensures ok { IfOk result (IsClosing client self.old self.new) }
        ensures clients { self.new.layout.shape ≡ self.old.layout.shape }
        ensures err { OnErr result (self.new ≡ self.old) }
        ensures full_only { IfErr result (λ cause. cause ≡ StopCause.JournalFull
            → is_full self.new.layout.log.steps ≡ true) }
    {
        let _legal = self.fabric.journal();
        let reply = ask(&mut self.fabric, client, Event::Close, None)?;
        self.timers.drop_of(client);
        Ok(reply)
    }

    /// Requests a timer. After 2^64 - 1 requests every one is refused.
    fn request(&mut self, client: u32, delay: u32, signal: Signal) -> Result<Reply, StopCause>
        requires { IsClient self.old.layout client }
        ensures ok { IfOk result (Handles client (Request.Timer delay signal) self.old self.new) }
        ensures clients { self.new.layout.shape ≡ self.old.layout.shape }
        ensures err { OnErr result (self.new ≡ self.old) }
        ensures no_memory { IfErr result (λ cause. cause ≡ StopCause.NoMemory) }
    {
        if self.fabric.endpoint_of(client).is_none() {
            let at = self.fabric.closed_step(client);
            return Ok(Reply::NotOpen { at });
        }
        let Some(reference) = self.requested.checked_add(1) else {
            return Err(StopCause::NoMemory);
        };
        let due = self.clock + u64::from(delay);
        match self.timers.request(client, reference, due, signal) {
            Ok(()) => {
                self.requested = reference;
                Ok(Reply::Number(reference))
            }
            Err((_refusal, _signal)) => Err(StopCause::NoMemory),
        }
    }

    /// Cancels a timer.
    fn cancel(&mut self, client: u32, reference: u64) -> Reply
        requires { IsClient self.old.layout client }
        ensures handles { Handles client (Request.Cancel reference) self.old self.new result }
        ensures clients { self.new.layout.shape ≡ self.old.layout.shape }
    {
        if self.fabric.endpoint_of(client).is_none() {
            let at = self.fabric.closed_step(client);
            return Reply::NotOpen { at };
        }
        done_or_none(cancel_in(&mut self.timers, client, reference))
    }

    /// Moves a timer to so many milliseconds from now.
    fn modify(&mut self, client: u32, reference: u64, delay: u32) -> Reply
        requires { IsClient self.old.layout client }
        ensures handles { Handles client (Request.Modify reference delay) self.old self.new result }
        ensures clients { self.new.layout.shape ≡ self.old.layout.shape }
    {
        if self.fabric.endpoint_of(client).is_none() {
            let at = self.fabric.closed_step(client);
            return Reply::NotOpen { at };
        }
        let due = self.clock + u64::from(delay);
        done_or_none(self.timers.modify(client, reference, due))
    }

    /// Sends the signal of a timer from its client to itself.
    fn fire(&mut self, due: Due) -> Result<(), StopCause>
        requires { IsOwner self.old.layout due.client }
        ensures ok { OnOk result (IsSending due self.old.layout self.new.layout) }
        ensures rest { OnOk result (self.new ≡ record self.old { layout = self.new.layout }) }
        ensures clients { self.new.layout.shape ≡ self.old.layout.shape }
        ensures err { OnErr result (self.new ≡ self.old) }
        ensures full_only { IfErr result (λ cause. cause ≡ StopCause.JournalFull
            → is_full self.new.layout.log.steps ≡ true) }
    {
        let Some(inc) = self.fabric.endpoint_of(due.client) else {
            unreachable!()
        };
        self.core(due.client, Event::Send(Peer::Here(inc)), Some(due.signal))?;
        Ok(())
    }

    /// Sends the signals of the timers that are due by a moment.
    fn strike(&mut self, moment: u64) -> Result<Reply, StopCause>
        requires order { self.old.clock ≤ moment }
        requires within { moment ≤ last_moment }
        ensures ok { IfOk result (Strikes moment self.old self.new) }
        ensures clients { self.new.layout.shape ≡ self.old.layout.shape }
        ensures err { OnErr result (StopsAmid moment self.old self.new) }
        ensures full_only { IfErr result (λ cause. cause ≡ StopCause.JournalFull
            → is_full self.new.layout.log.steps ≡ true) }
    {
        let mut count: u32 = 0;
        while let Some(due) = self.timers.next_due(moment) {
            let Some(more) = count.checked_add(1) else {
                return Err(StopCause::NoMemory);
            };
            self.fire(due)?;
            count = more;
        }
        self.clock = moment;
        Ok(Reply::Sent(count))
    }

    /// Does what a client asks for, and replies. A stop changes nothing, but for the clock: there
    /// the timers that were due before it are gone, and what they sent is sent.
    pub fn handle(&mut self, client: u32, request: Request) -> Result<Reply, StopCause>
        requires asker { IsAskerOf self.old.layout client request }
        requires fits { FitsFields request }
        ensures ok { IfOk result (Handles client request self.old self.new) }
        ensures clients { self.new.layout.shape ≡ self.old.layout.shape }
        ensures err { OnErr result (Stops request self.old self.new) }
        ensures full_only { IfErr result (λ cause. cause ≡ StopCause.JournalFull
            → is_full self.new.layout.log.steps ≡ true) }
        ensures full_at { IfErr result (λ cause. cause ≡ StopCause.JournalFull
            → makes_steps request ≡ true) }
    {
        match request {
            Request::Open(name) => self.core(client, Event::Open(name), None),
            Request::Close => self.close(client),
            Request::Send { to, signal } => {
                self.core(client, Event::Send(Peer::Here(to)), Some(signal))
            }
            Request::Receive { count, numbers } => match filter_of(count, numbers) {
                Some(filter) => self.core(client, Event::Look(filter), None),
                None => Ok(Reply::BadFilter),
            },
            Request::Hunt(name) => self.ask_for(client, Event::Hunt(Path::Local(name)), FOUND),
            Request::Attach(inc) => self.ask_for(client, Event::Attach(Peer::Here(inc)), NOTIFIED),
            Request::Detach(reference) => self.core(client, Event::Detach(reference), None),
            Request::Timer { delay, signal } => self.request(client, delay, signal),
            Request::Cancel { reference } => Ok(self.cancel(client, reference)),
            Request::Modify { reference, delay } => Ok(self.modify(client, reference, delay)),
            Request::Clock { moment } => {
                if moment < self.clock || moment > LAST_MOMENT {
                    return Ok(Reply::BadMoment);
                }
                self.strike(moment)
            }
        }
    }
}
