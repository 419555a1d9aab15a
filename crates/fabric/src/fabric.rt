//! The fabric: what it holds and keeps, and the steps that it makes of what its makers ask for.
ghost use Rattle.std.specs.Prelude.{◌≡◌, ◌&&◌, ◌<◌, ◌≤◌, Option, true, false, []};
ghost use Rattle.std.specs.Prelude.{length, replicate, IfOk, IfErr, OnErr, OnOk, IsSome};
ghost use Rattle.std.specs.Prelude.{Some, None, IsTrue};
ghost use Rattle.linx_base.specs.SigNotes.{SigNote};
ghost use Rattle.sigsel.specs.Selection.{first_selected};
ghost use Rattle.linx_base.specs.NameText.{is_name};
ghost use Rattle.journal.specs.History.{endpoint_of};
ghost use Rattle.journal.specs.Laws.{IsMaker, name_of_path};
ghost use Rattle.journal.specs.Logs.{is_full, step_limit};
ghost use Rattle.journal.specs.Rest.{is_idle, queue_of, waits_with};
ghost use Rattle.link_laws.specs.Laws.{IsLegal};
ghost use Rattle.link_laws.specs.Runs.{KeepsThroughout};
ghost use Rattle.link_laws.specs.Still.{IsOver};
ghost use Rattle.node_kernel.specs.Answers.{granted, refused};
ghost use Rattle.run_trunks.specs.States.{new_trunks, trunks_of};
ghost use Rattle.trunk_moves.specs.Trunks.{links_of};
ghost use Rattle.fabric.specs.Actings.{HasMade, LeavesAll, MayMake, OnlyRuns, asking};
ghost use Rattle.fabric.specs.Asks.{MayAsk};
ghost use Rattle.fabric.specs.Calls.{IsTyped, ask_of_call, hand_of_call};
ghost use Rattle.fabric.specs.Lines.{fresh_line};
ghost use Rattle.fabric.specs.Links.{no_link_stirs};
ghost use Rattle.fabric.specs.Machine.{all_have_ended, is_at_rest};
ghost use Rattle.fabric.specs.Run.{IsReachedBy, IsStepped};
ghost use Rattle.fabric.specs.Standings.{empty_nodes, fresh, unless_refused};

use crate::call::{Call, is_to_living, make_call};
use crate::granting::refusal_of;
use crate::line::{Line, Mark};
use crate::makings::{Looked, downs_of, make_open, make_quiet, make_restart, make_take, make_wait};
use crate::standing::Standing;
use crate::stop::{StepStop, StopCause, no_memory};
use crate::telling::{keep_told, tell_call};
use crate::watched_journal::WatchedJournal;
use journal::{By, Event, Head, Journal, Refusal};
use linx_base::{LinkDecl, Name, Names, NoMemory, NodeNo, Path, Peer, Signal};
use node_kernel::{Kernel, StepAnswer};
use run_trunks::RunTrunks;
use sigsel::Sigsel;
use std::alloc::Global;
use std::marker::Model;

/// The nodes of a run, the standings of its actors, its links, and its journal.
pub struct Fabric {
    pub(crate) alloc: Global,
    pub(crate) actors: Vec<NodeNo>,
    pub(crate) journal: WatchedJournal,
    pub(crate) trunks: RunTrunks,
    pub(crate) kernels: Vec<Kernel>,
    /// How often each node has booted.
    booted: Vec<u32>,
    pub(crate) standings: Vec<Standing>,
    pub(crate) lines: Vec<Line>,
    /// The place of the actor that was the first that hadn't ended, when one ended last.
    pub(crate) front: u32,
}

// By hand, so that a crate above that lets a fabric go makes one call, and doesn't prove how all that
// is in it goes.
impl Drop for Fabric {
    fn drop(self) {
        let Fabric {
            alloc: _,
            actors: _,
            journal: _,
            trunks: _,
            kernels: _,
            booted: _,
            standings: _,
            lines: _,
            front: _,
        } = self;
    }
}

impl Model for Fabric {
    ghost use Rattle.std.specs.Prelude.{◌≡◌};
    ghost use Rattle.fabric.specs.Remains.{IsKept, Parts};
    ghost use Rattle.fabric.specs.Run.{Layout};

    ghost Value = { Layout };

    ghost view = { λ f. record {
      shape = record { links = f.trunks.links; actors = f.actors.items };
      log = f.journal.log;
      trunks = f.trunks.is;
    } };

    ghost invariant = { λ f. IsKept (record {
      shape = record { links = f.trunks.links; actors = f.actors.items };
      log = f.journal.log;
      trunks = f.trunks.is;
    }) (record {
      kernels = f.kernels.items;
      booted = f.booted.items;
      standings = f.standings.items;
      lines = f.lines.items;
    }) × (f.trunks.was ≡ f.trunks.is) };
}

/// A kernel for each node.
fn kernels_of(alloc: Global, count: u32) -> Result<Vec<Kernel>, NoMemory>
    ensures { IfOk result (λ kernels. kernels.items ≡ empty_nodes count) }
{
    let mut kernels = Vec::new(alloc);
    for place in 0..count {
        kernels.push(Kernel::new(alloc, NodeNo(place + 1)))?;
    }
    Ok(kernels)
}

/// How so many actors stand before their first steps.
fn standings_of(alloc: Global, count: usize) -> Result<Vec<Standing>, NoMemory>
    ensures { IfOk result (λ standings. standings.items ≡ replicate count fresh) }
{
    let mut standings = Vec::new(alloc);
    for _place in 0..count {
        standings.push(Standing::new())?;
    }
    Ok(standings)
}

/// The boots of so many nodes before their first steps: one each.
fn boots_of(alloc: Global, count: u32) -> Result<Vec<u32>, NoMemory>
    ensures { IfOk result (λ booted. booted.items ≡ replicate count 1) }
{
    let mut booted = Vec::new(alloc);
    for _place in 0..count {
        booted.push(1)?;
    }
    Ok(booted)
}

/// What is noted of so many links before the first step.
fn lines_of(alloc: Global, count: usize) -> Result<Vec<Line>, NoMemory>
    ensures { IfOk result (λ lines. lines.items ≡ replicate count fresh_line) }
{
    let mut lines = Vec::new(alloc);
    for _place in 0..count {
        lines.push(Line::new())?;
    }
    Ok(lines)
}

/// A path has a name. It does nothing.
fn name_path(path: &Path)
    ensures { IsTrue (is_name (name_of_path path.now)) }
{
    match path {
        Path::Local(name) | Path::Over { name, .. } => {
            let _bytes = name.bytes();
        }
    }
}

impl Fabric {
    ghost use Rattle.fabric.specs.Remains.{IsLaidOut};

    /// A fabric without steps: its nodes and links have these names, each of its at most 64 actors
    /// is on one of the nodes, and each of its at most 32 links is between two of them.
    pub fn new(
        alloc: Global,
        names: Names,
        links: &[LinkDecl],
        actors: &[NodeNo],
    ) -> Result<Fabric, NoMemory>
        requires laid_out { IsLaidOut (length names.nodes)
            (record { links = links.now; actors = actors.now }) }
        ensures ok { IfOk result (λ fabric. fabric ≡ record {
          shape = record { links = links.now; actors = actors.now };
          log = record { names = names; steps = [] };
          trunks = new_trunks links.now;
        }) }
    {
        let count = names.nodes.len() as u32;
        let journal = WatchedJournal::new(alloc, names, actors.len())?;
        let trunks = RunTrunks::new(alloc, links)?;
        let kernels = kernels_of(alloc, count)?;
        let booted = boots_of(alloc, count)?;
        let standings = standings_of(alloc, actors.len())?;
        let lines = lines_of(alloc, links.len())?;
        Ok(Fabric {
            alloc,
            actors: Vec::from_slice(alloc, actors)?,
            journal,
            trunks,
            kernels,
            booted,
            standings,
            lines,
            front: 0,
        })
    }

    /// The journal so far, which is legal by the laws of nodes and links, keeps what is promised of
    /// runs with links after each of its steps, and whose steps are the machine's. It has no more
    /// steps than a journal takes, and the layout is one that a fabric can have.
    pub fn journal(&self) -> &Journal
        ensures log { result.now.log ≡ self.now.log }
        ensures legal { IsLegal self.now.shape self.now.log.steps }
        ensures promises { KeepsThroughout self.now.shape self.now.log.steps
            (links_of (trunks_of self.now.trunks)) }
        ensures reached { IsReachedBy self.now }
        ensures few { length self.now.log.steps ≤ step_limit }
        ensures laid_out { IsLaidOut (length self.now.log.names.nodes) self.now.shape }
    {
        self.journal.journal()
    }

    /// The journal, of which the same holds. Where every actor has ended and no link stirs, all is
    /// over, as the journal tells.
    pub fn into_journal(self) -> Journal
        ensures log { result.log ≡ self.log }
        ensures legal { IsLegal self.shape self.log.steps }
        ensures promises { KeepsThroughout self.shape self.log.steps
            (links_of (trunks_of self.trunks)) }
        ensures reached { IsReachedBy self }
        ensures few { length self.log.steps ≤ step_limit }
        ensures laid_out { IsLaidOut (length self.log.names.nodes) self.shape }
        ensures over { (all_have_ended self.shape self.log.steps
            && no_link_stirs self.shape self.log.steps (trunks_of self.trunks)) ≡ true
            → IsOver self.shape self.log.steps }
    {
        let Fabric {
            alloc: _,
            actors: _,
            journal,
            trunks: _,
            kernels: _,
            booted: _,
            standings: _,
            lines: _,
            front: _,
        } = self;
        journal.into_journal()
    }

    /// Makes the step of an event, or none where the actor waits already, and answers. Where the
    /// journal is full or memory is refused nothing changes, and the hand comes back.
    pub fn step(
        &mut self,
        by: By,
        event: Event,
        hand: Option<Signal>,
    ) -> Result<StepAnswer, StepStop>
        requires asked { MayAsk self.old by (record { event = event; hand = hand }) }
        ensures ok { IfOk result (IsStepped self.old self.new by
            (record { event = event; hand = hand })) }
        ensures fixed { OnlyRuns self.old self.new }
        ensures full { is_full self.old.log.steps ≡ true
            → result ≡ Err (record { cause = StopCause.JournalFull; hand = hand }) }
        ensures full_only { IfErr result (λ stop. stop.cause ≡ StopCause.JournalFull
            → is_full self.old.log.steps ≡ true) }
        ensures err { IfErr result (λ stop. (stop.hand ≡ hand) × (self.new ≡ self.old)) }
    {
        if self.journal.full() {
            drop(event);
            return Err(StepStop {
                cause: StopCause::JournalFull,
                hand,
            });
        }
        match by {
            By::Actor(actor) => self.act(actor, event, hand),
            By::Pump(_) => {
                drop(hand);
                match event {
                    Event::Wire {
                        link,
                        from,
                        verdict,
                    } => {
                        self.wire(by, link, from, verdict)?;
                        Ok(StepAnswer::Done)
                    }
                    Event::Tick { link, side } => {
                        self.tick(by, link, side)?;
                        Ok(StepAnswer::Done)
                    }
                    _ => unreachable!(),
                }
            }
        }
    }

    /// The refusal of an actor's event, if it isn't granted.
    fn refusal_of(&self, actor: u32, event: &Event) -> Option<Refusal>
        requires above { 0 < actor }
        requires within { actor ≤ length self.now.shape.actors }
        ensures { (hand : Option SigNote) → granted self.now.log.steps actor
            (record { event = event.now; hand = hand })
            ≡ unless_refused result (record { event = event.now; hand = hand }) }
    {
        let standing = &self.standings[(actor - 1) as usize];
        refusal_of(standing, event)
    }

    /// What is granted to an actor is made, or else its refusal.
    fn act(
        &mut self,
        actor: u32,
        event: Event,
        hand: Option<Signal>,
    ) -> Result<StepAnswer, StepStop>
        requires asked { MayMake self.old (By.Actor actor) (asking event hand) }
        ensures ok { IfOk result (HasMade self.old self.new actor
            (granted self.old.log.steps actor (asking event hand))) }
        ensures fixed { OnlyRuns self.old self.new }
        ensures err { IfErr result (LeavesAll self.old self.new hand) }
    {
        match self.refusal_of(actor, &event) {
            Some(reason) => self.refuse(actor, reason, hand),
            None => self.make(actor, event, hand),
        }
    }

    /// An event that is granted is made.
    fn make(
        &mut self,
        actor: u32,
        event: Event,
        hand: Option<Signal>,
    ) -> Result<StepAnswer, StepStop>
        requires asked { MayMake self.old (By.Actor actor) (asking event hand) }
        requires granted { granted self.old.log.steps actor (record { event = event; hand = hand })
            ≡ record { event = event; hand = hand } }
        ensures ok { IfOk result (HasMade self.old self.new actor (asking event hand)) }
        ensures fixed { OnlyRuns self.old self.new }
        ensures err { IfErr result (LeavesAll self.old self.new hand) }
    {
        match event {
            Event::Open(name) => self.open(actor, name),
            Event::Close => self.call(actor, Call::Close),
            Event::Send(to) => match hand {
                Some(signal) => self.send(actor, to, signal),
                None => unreachable!(),
            },
            Event::Look(filter) => self.look(actor, filter),
            Event::Hunt(path) => match hand {
                Some(signal) => self.hunt(actor, path, signal),
                None => unreachable!(),
            },
            Event::Attach(peer) => match hand {
                Some(signal) => self.call(actor, Call::Attach(peer, signal)),
                None => unreachable!(),
            },
            Event::Detach(r) => self.call(actor, Call::Detach(r)),
            Event::Cut(link) => self.mark(actor, Mark::Cut, link),
            Event::Mend(link) => self.mark(actor, Mark::Mend, link),
            Event::Settle(link) => self.mark(actor, Mark::Settle, link),
            Event::Restart(node) => self.restart(actor, node),
            Event::Refuse(reason) => self.refuse(actor, reason, None),
            Event::End => self.end(actor),
            Event::Wire {
                link,
                from,
                verdict,
            } => {
                self.wire(By::Actor(actor), link, from, verdict)?;
                Ok(StepAnswer::Done)
            }
            Event::Tick { link, side } => {
                self.tick(By::Actor(actor), link, side)?;
                Ok(StepAnswer::Done)
            }
        }
    }

    /// An opening.
    fn open(&mut self, actor: u32, name: Name) -> Result<StepAnswer, StepStop>
        requires asked { MayMake self.old (By.Actor actor) (asking (Event.Open name) None) }
        requires granted { endpoint_of self.old.log.steps actor ≡ None }
        ensures ok { IfOk result (HasMade self.old self.new actor (asking (Event.Open name) None)) }
        ensures fixed { OnlyRuns self.old self.new }
        ensures err { IfErr result (LeavesAll self.old self.new None) }
    {
        let place = self.kernel_of(actor);
        let node = self.node_of(actor);
        let inc = self.next_inc(actor);
        let _bytes = name.bytes();
        let Ok(()) = self.trunks.opened(node, inc, &name) else {
            return Err(no_memory(None));
        };
        let by = By::Actor(actor);
        let made = make_open(&mut self.journal, &mut self.kernels[place], by, name);
        match made {
            Ok(inc) => {
                self.trunks.keep_all();
                self.standings[(actor - 1) as usize].open(inc);
                Ok(StepAnswer::Opened(inc))
            }
            Err(NoMemory) => {
                self.trunks.undo_all();
                Err(no_memory(None))
            }
        }
    }

    /// A send.
    fn send(&mut self, actor: u32, to: Peer, signal: Signal) -> Result<StepAnswer, StepStop>
        requires asked { MayMake self.old (By.Actor actor) (asking (Event.Send to) (Some signal)) }
        requires granted { IsSome (endpoint_of self.old.log.steps actor) }
        ensures ok { IfOk result (HasMade self.old self.new actor
            (asking (Event.Send to) (Some signal))) }
        ensures fixed { OnlyRuns self.old self.new }
        ensures err { IfErr result (LeavesAll self.old self.new (Some signal)) }
    {
        let _number = signal.number();
        self.call(actor, Call::Send(to, signal))
    }

    /// A hunt.
    fn hunt(&mut self, actor: u32, path: Path, signal: Signal) -> Result<StepAnswer, StepStop>
        requires asked { MayMake self.old (By.Actor actor)
            (asking (Event.Hunt path) (Some signal)) }
        requires granted { IsSome (endpoint_of self.old.log.steps actor) }
        ensures ok { IfOk result (HasMade self.old self.new actor
            (asking (Event.Hunt path) (Some signal))) }
        ensures fixed { OnlyRuns self.old self.new }
        ensures err { IfErr result (LeavesAll self.old self.new (Some signal)) }
    {
        name_path(&path);
        self.call(actor, Call::Hunt(path, signal))
    }

    /// A call at an actor's open endpoint.
    fn call(&mut self, actor: u32, call: Call) -> Result<StepAnswer, StepStop>
        requires asked { MayMake self.old (By.Actor actor) (ask_of_call call) }
        requires typed { IsTyped call }
        requires granted { IsSome (endpoint_of self.old.log.steps actor) }
        ensures ok { IfOk result (HasMade self.old self.new actor (ask_of_call call)) }
        ensures fixed { OnlyRuns self.old self.new }
        ensures err { IfErr result (LeavesAll self.old self.new (hand_of_call call)) }
    {
        let Some(at) = self.endpoint_of(actor) else {
            unreachable!()
        };
        let place = self.kernel_of(actor);
        let node = self.node_of(actor);
        let kernel = &self.kernels[place];
        let living = is_to_living(kernel, &call);
        let Ok(hearing) = tell_call(&mut self.trunks, kernel, node, at, &call, living) else {
            return Err(no_memory(call.into_hand()));
        };
        let made = make_call(
            self.alloc,
            &mut self.journal,
            &mut self.kernels[place],
            By::Actor(actor),
            at,
            call,
            living,
        );
        match made {
            Ok(answer) => {
                keep_told(&mut self.trunks, hearing);
                let step = self.journal.len();
                self.standings[(actor - 1) as usize].call(step, &answer);
                Ok(answer)
            }
            Err(stop) => {
                self.trunks.undo_all();
                Err(stop)
            }
        }
    }

    /// A look.
    fn look(&mut self, actor: u32, filter: Sigsel) -> Result<StepAnswer, StepStop>
        requires asked { MayMake self.old (By.Actor actor) (asking (Event.Look filter) None) }
        requires granted { IsSome (endpoint_of self.old.log.steps actor) }
        ensures ok { IfOk result (HasMade self.old self.new actor
            (asking (Event.Look filter) None)) }
        ensures fixed { OnlyRuns self.old self.new }
        ensures err { IfErr result (LeavesAll self.old self.new None) }
    {
        let Some(at) = self.endpoint_of(actor) else {
            unreachable!()
        };
        let place = self.kernel_of(actor);
        let made = make_take(
            self.alloc,
            &mut self.journal,
            &mut self.kernels[place],
            By::Actor(actor),
            at,
            filter,
        );
        match made {
            Ok(Looked::Found(item)) => {
                self.standings[(actor - 1) as usize].wait(None);
                Ok(StepAnswer::Took(item))
            }
            Ok(Looked::Vain(filter)) => self.look_in_vain(actor, filter),
            Err(NoMemory) => Err(no_memory(None)),
        }
    }

    /// A look with nothing selected.
    fn look_in_vain(&mut self, actor: u32, filter: Sigsel) -> Result<StepAnswer, StepStop>
        requires asked { MayMake self.old (By.Actor actor) (asking (Event.Look filter) None) }
        requires granted { IsSome (endpoint_of self.old.log.steps actor) }
        requires vain { first_selected filter (queue_of self.old.log.steps
            (endpoint_of self.old.log.steps actor)) ≡ None }
        ensures ok { IfOk result (HasMade self.old self.new actor
            (asking (Event.Look filter) None)) }
        ensures fixed { OnlyRuns self.old self.new }
        ensures err { IfErr result (LeavesAll self.old self.new None) }
    {
        if self.may_find_none(actor) {
            return self.find_none(actor, filter);
        }
        if self.is_waiting(actor) {
            self.note_if_idle(actor);
            return Ok(StepAnswer::NotYet);
        }
        let answer = self.wait(actor, filter)?;
        self.note_idle(actor);
        Ok(answer)
    }

    /// Notes that an actor waits in vain.
    fn note_idle(&mut self, actor: u32)
        requires above { 0 < actor }
        requires within { actor ≤ length self.old.shape.actors }
        requires idle { is_idle self.old.log.steps actor ≡ true }
        ensures { self.new ≡ self.old }
    {
        if let Some(at) = self.endpoint_of(actor) {
            self.journal.note_idle(actor, at);
        }
    }

    /// Notes that an actor waits in vain, if it does.
    fn note_if_idle(&mut self, actor: u32)
        requires above { 0 < actor }
        requires within { actor ≤ length self.old.shape.actors }
        ensures { self.new ≡ self.old }
    {
        if self.is_idle(actor) {
            self.note_idle(actor);
        }
    }

    /// A look with nothing selected, at rest.
    fn find_none(&mut self, actor: u32, filter: Sigsel) -> Result<StepAnswer, StepStop>
        requires asked { MayMake self.old (By.Actor actor) (asking (Event.Look filter) None) }
        requires granted { IsSome (endpoint_of self.old.log.steps actor) }
        requires vain { first_selected filter (queue_of self.old.log.steps
            (endpoint_of self.old.log.steps actor)) ≡ None }
        requires rest { (is_at_rest self.old.shape self.old.log.steps actor
            && no_link_stirs self.old.shape self.old.log.steps (trunks_of self.old.trunks)) ≡ true }
        ensures ok { IfOk result (HasMade self.old self.new actor
            (asking (Event.Look filter) None)) }
        ensures fixed { OnlyRuns self.old self.new }
        ensures err { IfErr result (LeavesAll self.old self.new None) }
    {
        let by = By::Actor(actor);
        match make_quiet(self.alloc, &mut self.journal, by, Head::TakeNone(filter)) {
            Ok(()) => {
                self.standings[(actor - 1) as usize].wait(None);
                Ok(StepAnswer::Nothing)
            }
            Err(NoMemory) => Err(no_memory(None)),
        }
    }

    /// The first look with nothing selected, not at rest.
    fn wait(&mut self, actor: u32, filter: Sigsel) -> Result<StepAnswer, StepStop>
        requires asked { MayMake self.old (By.Actor actor) (asking (Event.Look filter) None) }
        requires granted { IsSome (endpoint_of self.old.log.steps actor) }
        requires vain { first_selected filter (queue_of self.old.log.steps
            (endpoint_of self.old.log.steps actor)) ≡ None }
        requires busy { (is_at_rest self.old.shape self.old.log.steps actor
            && no_link_stirs self.old.shape self.old.log.steps (trunks_of self.old.trunks)) ≡ false }
        requires first { waits_with self.old.log.steps actor ≡ None }
        ensures ok { IfOk result (HasMade self.old self.new actor
            (asking (Event.Look filter) None)) }
        ensures idle { OnOk result (is_idle self.new.log.steps actor ≡ true) }
        ensures fixed { OnlyRuns self.old self.new }
        ensures err { IfErr result (LeavesAll self.old self.new None) }
    {
        let by = By::Actor(actor);
        match make_wait(self.alloc, &mut self.journal, by, filter) {
            Ok(filter) => {
                self.standings[(actor - 1) as usize].wait(Some(filter));
                Ok(StepAnswer::NotYet)
            }
            Err(NoMemory) => Err(no_memory(None)),
        }
    }

    /// A restart of a node, which may be another than the actor's.
    fn restart(&mut self, actor: u32, node: NodeNo) -> Result<StepAnswer, StepStop>
        requires asked { MayMake self.old (By.Actor actor) (asking (Event.Restart node) None) }
        ensures ok { IfOk result (HasMade self.old self.new actor
            (asking (Event.Restart node) None)) }
        ensures fixed { OnlyRuns self.old self.new }
        ensures err { IfErr result (LeavesAll self.old self.new None) }
    {
        let place = node.0 as usize - 1;
        let boot = self.booted[place] + 1;
        let open = self.kernels[place].open_count();
        let Ok(downs) = downs_of(self.alloc, &self.trunks, node, open) else {
            return Err(no_memory(None));
        };
        let Ok(()) = self.trunks.restarted(node, boot) else {
            return Err(no_memory(None));
        };
        let made = make_restart(
            &mut self.journal,
            &mut self.kernels[place],
            &mut self.standings,
            By::Actor(actor),
            node,
            downs,
        );
        match made {
            Ok(()) => {
                self.trunks.keep_all();
                self.booted[place] = boot;
                self.standings[(actor - 1) as usize].wait(None);
                Ok(StepAnswer::Done)
            }
            Err(NoMemory) => {
                self.trunks.undo_all();
                Err(no_memory(None))
            }
        }
    }

    /// A refusal of what was asked, which frees the hand.
    fn refuse(
        &mut self,
        actor: u32,
        reason: Refusal,
        hand: Option<Signal>,
    ) -> Result<StepAnswer, StepStop>
        requires maker { IsMaker self.old.shape self.old.log.steps (By.Actor actor) }
        requires room { is_full self.old.log.steps ≡ false }
        requires short { length self.old.log.steps < 200000 }
        ensures ok { IfOk result (HasMade self.old self.new actor (refused reason)) }
        ensures fixed { OnlyRuns self.old self.new }
        ensures err { IfErr result (LeavesAll self.old self.new hand) }
    {
        match self.note_refusal(actor, reason) {
            Ok(answer) => Ok(answer),
            Err(NoMemory) => Err(no_memory(hand)),
        }
    }

    /// The step of a refusal.
    fn note_refusal(&mut self, actor: u32, reason: Refusal) -> Result<StepAnswer, NoMemory>
        requires maker { IsMaker self.old.shape self.old.log.steps (By.Actor actor) }
        requires room { is_full self.old.log.steps ≡ false }
        requires short { length self.old.log.steps < 200000 }
        ensures ok { IfOk result (HasMade self.old self.new actor (refused reason)) }
        ensures fixed { OnlyRuns self.old self.new }
        ensures err { OnErr result (self.new ≡ self.old) }
    {
        let by = By::Actor(actor);
        match make_quiet(self.alloc, &mut self.journal, by, Head::Refused(reason)) {
            Ok(()) => {
                self.standings[(actor - 1) as usize].wait(None);
                Ok(StepAnswer::Refused(reason))
            }
            Err(NoMemory) => Err(NoMemory),
        }
    }

    /// The end of an actor, after which another one may be at the front.
    fn end(&mut self, actor: u32) -> Result<StepAnswer, StepStop>
        requires asked { MayMake self.old (By.Actor actor) (asking Event.End None) }
        ensures ok { IfOk result (HasMade self.old self.new actor (asking Event.End None)) }
        ensures fixed { OnlyRuns self.old self.new }
        ensures err { IfErr result (LeavesAll self.old self.new None) }
    {
        let answer = self.make_end(actor)?;
        self.find_front();
        Ok(answer)
    }

    /// Notes what actor is at the front.
    fn find_front(&mut self)
        ensures { self.new ≡ self.old }
    {
        self.front = self.first_left();
    }

    /// The step of an actor's end.
    fn make_end(&mut self, actor: u32) -> Result<StepAnswer, StepStop>
        requires asked { MayMake self.old (By.Actor actor) (asking Event.End None) }
        ensures ok { IfOk result (HasMade self.old self.new actor (asking Event.End None)) }
        ensures fixed { OnlyRuns self.old self.new }
        ensures err { IfErr result (LeavesAll self.old self.new None) }
    {
        match self.endpoint_of(actor) {
            Some(_) => self.call(actor, Call::End),
            None => self.end_closed(actor),
        }
    }

    /// The end of an actor that has no endpoint.
    fn end_closed(&mut self, actor: u32) -> Result<StepAnswer, StepStop>
        requires asked { MayMake self.old (By.Actor actor) (asking Event.End None) }
        requires granted { endpoint_of self.old.log.steps actor ≡ None }
        ensures ok { IfOk result (HasMade self.old self.new actor (asking Event.End None)) }
        ensures fixed { OnlyRuns self.old self.new }
        ensures err { IfErr result (LeavesAll self.old self.new None) }
    {
        let by = By::Actor(actor);
        match make_quiet(self.alloc, &mut self.journal, by, Head::Ended) {
            Ok(()) => {
                self.standings[(actor - 1) as usize].end();
                Ok(StepAnswer::Done)
            }
            Err(NoMemory) => Err(no_memory(None)),
        }
    }
}
