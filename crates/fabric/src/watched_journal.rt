//! The journal of a fabric, which notes what actors are known to wait in vain: one that was seen to
//! do so still does, until it makes a step, or the effects of a step close its endpoint or put an
//! item into its queue.

ghost use Rattle.std.specs.Prelude.{◌≡◌, ◌+◌, ◌≤◌, ◌<◌, [], ◌∷◌, length, map, replicate, suc};
ghost use Rattle.std.specs.Prelude.{IfOk, OnOk, Some, None, true};
ghost use Rattle.journal.specs.History.{endpoint_of};
ghost use Rattle.journal.specs.Logs.{is_full};
ghost use Rattle.journal.specs.Rest.{is_idle};
ghost use Rattle.fabric.specs.Idle.{noted_past, unless_at, unless_reached, without_maker};

use journal::{By, Effect, Effects, Head, Journal, Step};
use linx_base::{Inc, Names, NoMemory};
use std::alloc::Global;
use std::marker::Model;

/// A journal, and by the numbers of the actors the endpoints of those that are known to wait in
/// vain.
#[derive(Drop)]
pub(crate) struct WatchedJournal {
    journal: Journal,
    idle: Vec<Option<Inc>>,
}

impl Model for WatchedJournal {
    ghost use Rattle.journal.specs.Logs.{Book};
    ghost use Rattle.fabric.specs.Idle.{AreIdle};

    ghost Value = { Book };

    ghost view = { λ w. w.journal };

    ghost invariant = { λ w. AreIdle w.journal.log.steps w.idle.items };
}

/// No actor of so many is known to wait in vain. None has the number 0.
fn none_idle(alloc: Global, actors: usize) -> Result<Vec<Option<Inc>>, NoMemory>
    ensures { IfOk result (λ idle. idle.items ≡ replicate (suc actors) None) }
{
    let mut idle = Vec::new(alloc);
    idle.push(None)?;
    for _actor in 0..actors {
        idle.push(None)?;
    }
    Ok(idle)
}

/// An actor that waits there is not known to wait in vain.
fn forget_if_at(noted: &mut Option<Inc>, reached: Inc)
    ensures { noted.new ≡ unless_at reached noted.old }
{
    if let Some(inc) = *noted {
        if inc.0 == reached.0 {
            *noted = None;
        }
    }
}

/// Nor is any actor that waits there.
fn forget_at(idle: &mut [Option<Inc>], reached: Inc)
    ensures { idle.new ≡ map (unless_at reached) idle.old }
{
    for noted in idle.iter_mut() {
        forget_if_at(noted, reached);
    }
}

/// Nor is any actor that waits where an effect reaches.
fn forget_by(idle: &mut [Option<Inc>], effect: &Effect)
    ensures { idle.new ≡ map (unless_reached (effect.now ∷ [])) idle.old }
{
    if let Some(reached) = effect.reached_by() {
        forget_at(idle, reached);
    }
}

/// Nor is any actor that waits where effects reach.
fn forget_reached(idle: &mut [Option<Inc>], effects: &[Effect])
    ensures { idle.new ≡ map (unless_reached effects.now) idle.old }
{
    for effect in effects {
        forget_by(idle, effect);
    }
}

/// The maker of a step, if it is an actor, is not known to wait in vain.
fn forget_maker(idle: &mut [Option<Inc>], by: By)
    ensures { idle.new ≡ without_maker by idle.old }
{
    if let By::Actor(actor) = by {
        let place = actor as usize;
        if place < idle.len() {
            idle[place] = None;
        }
    }
}

/// Whom a step wakes, or may wake, is not known to wait in vain.
fn forget(idle: &mut [Option<Inc>], step: &Step)
    ensures { idle.new ≡ noted_past step.now idle.old }
{
    forget_maker(idle, step.by);
    forget_reached(idle, step.effects.as_slice());
}

impl WatchedJournal {
    /// A journal without steps, of so many actors.
    #[tactic(auto, using(crate::proofs::Standings::Idling::idle_none))]
    pub(crate) fn new(
        alloc: Global,
        names: Names,
        actors: usize,
    ) -> Result<WatchedJournal, NoMemory>
        ensures { IfOk result (λ journal. journal.log ≡ record { names = names; steps = [] }) }
    {
        let idle = none_idle(alloc, actors)?;
        Ok(WatchedJournal {
            journal: Journal::new(alloc, names),
            idle,
        })
    }

    /// Makes room for n more steps.
    pub(crate) fn reserve(&mut self, n: usize) -> Result<(), NoMemory>
        ensures ok { OnOk result (n ≤ self.new.spare) }
        ensures log { self.new.log ≡ self.old.log }
        ensures room_stays { self.old.spare ≤ self.new.spare }
    {
        self.journal.reserve(n)
    }

    /// Adds a step. It takes no memory.
    pub(crate) fn push(&mut self, step: Step)
        requires { 0 < self.old.spare }
        ensures log { self.new.log ≡ record self.old.log { steps = step ∷ self.old.log.steps } }
        ensures room { self.new.spare + 1 ≡ self.old.spare }
    {
        forget(&mut self.idle, &step);
        self.journal.push(step);
    }

    /// Adds a step without effects. It takes no memory.
    pub(crate) fn push_quiet(&mut self, alloc: Global, by: By, head: Head)
        requires { 0 < self.old.spare }
        ensures log { self.new.log ≡ record self.old.log {
          steps = record { by = by; head = head; effects = [] } ∷ self.old.log.steps;
        } }
        ensures room { self.new.spare + 1 ≡ self.old.spare }
    {
        forget_maker(&mut self.idle, by);
        self.journal.push(Step {
            by,
            head,
            effects: Effects::new(alloc),
        });
    }

    /// The number of steps.
    pub(crate) fn len(&self) -> u64
        ensures { result ≡ length self.now.log.steps }
    {
        self.journal.len()
    }

    /// Whether the journal takes no further step.
    pub(crate) fn full(&self) -> bool
        ensures { result ≡ is_full self.now.log.steps }
    {
        self.journal.full()
    }

    /// The journal that is watched.
    pub(crate) fn journal(&self) -> &Journal
        ensures { result.now ≡ self.now }
    {
        &self.journal
    }

    /// The journal, which is watched no more.
    pub(crate) fn into_journal(self) -> Journal
        ensures { result ≡ self }
    {
        self.journal
    }

    /// Notes that an actor waits in vain, at its endpoint.
    #[tactic(auto, using(crate::proofs::Standings::Idling::idle_noted))]
    pub(crate) fn note_idle(&mut self, actor: u32, at: Inc)
        requires at { endpoint_of self.old.log.steps actor ≡ Some at }
        requires idle { is_idle self.old.log.steps actor ≡ true }
        ensures { self.new ≡ self.old }
    {
        let place = actor as usize;
        if place < self.idle.len() {
            self.idle[place] = Some(at);
        }
    }

    /// Whether an actor is known to wait in vain.
    pub(crate) fn is_known_idle(&self, actor: u32) -> bool
        ensures { result ≡ true → is_idle self.now.log.steps actor ≡ true }
    {
        let place = actor as usize;
        place < self.idle.len() && self.idle[place].is_some()
    }
}
