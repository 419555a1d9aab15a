ghost use Rattle.std.specs.Prelude.{◌≡◌, ◌+◌, ◌-◌, ◌≤◌, ◌<◌, ◌^◌, ◌↔◌, [], ◌∷◌, min, length};
ghost use Rattle.std.specs.Prelude.{OnOk, IsTrue, Some, slice_get};
ghost use Rattle.std.specs.Option.{option_copied};
ghost use Rattle.linx_base.specs.Content.{size_of};
ghost use Rattle.journal.specs.Logs.{head_bytes, effect_bytes, nth_effect, step_bytes};
ghost use Rattle.journal.specs.Histories.{first_steps};

use crate::effect::{Effect, Step};
use crate::head::Head;
use linx_base::{ItemAt, Names, NoMemory, SigNote};
use std::alloc::Global;
use std::marker::Model;

/// The steps that fill a journal.
const STEPS_MOST: u64 = 200_000;

/// The bytes of noted signals that fill a journal.
const SIGNAL_BYTES_MOST: u64 = 67_108_864;

/// The steps that room is made for at first: more memory than an allocator copies to let it grow.
const FIRST_ROOM: usize = 2_048;

/// The names of the nodes and links, and the steps so far. Contracts see its log, and how many more
/// steps it has room for.
#[derive(Drop)]
pub struct Journal {
    names: Names,
    steps: Vec<Step>,
    signal_bytes: u64,
}

impl Model for Journal {
    ghost use Rattle.std.specs.Prelude.{◌≡◌, ◌-◌, ◌^◌, min, reverse, vec_len, vec_capacity};
    ghost use Rattle.journal.specs.Logs.{Book, signal_bytes_of};

    ghost Value = { Book };

    ghost view = { λ j. record {
      log = record { names = j.names; steps = reverse j.steps.items };
      spare = vec_capacity j.steps - vec_len j.steps;
    } };

    ghost invariant = { λ j. j.signal_bytes
        ≡ min (signal_bytes_of (reverse j.steps.items)) (2 ^ 64 - 1) };
}

/// The size of a noted signal.
fn note_bytes(note: &SigNote) -> u64
    ensures { result ≡ size_of note.now }
{
    note.data().len() as u64 + 4
}

fn bytes_in_head(head: &Head) -> u64
    ensures { result ≡ head_bytes head.now }
{
    match head {
        Head::Send(_, note, _) | Head::Hunt(_, note) | Head::Attach(_, note) => note_bytes(note),
        _ => 0,
    }
}

fn bytes_in_effect(effect: &Effect) -> u64
    ensures { result ≡ effect_bytes effect.now }
{
    match effect {
        Effect::Arrived(_, _, note)
        | Effect::Found(_, _, note, _)
        | Effect::Notified(_, _, note, _, _) => note_bytes(note),
        _ => 0,
    }
}

/// The sizes of the signals that a step notes, as far as a u64 counts.
fn bytes_in_step(step: &Step) -> u64
    ensures { result ≡ min (step_bytes step.now) (2 ^ 64 - 1) }
{
    let mut total = bytes_in_head(&step.head);
    for effect in step.effects.as_slice() {
        total = total.saturating_add(bytes_in_effect(effect));
    }
    total
}

/// The effect at a place of a step, from 1.
fn nth_effect(step: &Step, place: u64) -> Option<&Effect>
    ensures { option_copied result ≡ nth_effect place (Some step.now) }
{
    match place {
        0 => None,
        _ => step.effects.get((place - 1) as usize),
    }
}

/// The step at a place from 0, in the order of making.
fn nth_made(steps: &[Step], place: usize) -> Option<&Step>
    ensures { option_copied result ≡ slice_get steps.now place }
{
    steps.get(place)
}

impl Journal {
    ghost use Rattle.journal.specs.Logs.{signal_bytes_of, is_full, effect_at, step_at};

    /// A journal without steps.
    pub fn new(alloc: Global, names: Names) -> Journal
        ensures log { result.log ≡ record { names = names; steps = [] } }
    {
        Journal {
            names,
            steps: Vec::new(alloc),
            signal_bytes: 0,
        }
    }

    /// Makes room for n more steps.
    pub fn reserve(&mut self, n: usize) -> Result<(), NoMemory>
        ensures ok { OnOk result (n ≤ self.new.spare) }
        ensures log { self.new.log ≡ self.old.log }
        ensures room_stays { self.old.spare ≤ self.new.spare }
    {
        let room = if self.steps.is_empty() {
            n.max(FIRST_ROOM)
        } else {
            n
        };
        self.steps.reserve(room)?;
        Ok(())
    }

    /// Adds a step. It takes no memory.
    pub fn push(&mut self, step: Step)
        requires { 0 < self.old.spare }
        ensures log { self.new.log ≡ record self.old.log { steps = step ∷ self.old.log.steps } }
        ensures room { self.new.spare + 1 ≡ self.old.spare }
    {
        self.signal_bytes = self.signal_bytes.saturating_add(bytes_in_step(&step));
        self.steps.push_reserved(step);
    }

    /// The number of steps.
    pub fn len(&self) -> u64
        ensures { result ≡ length self.now.log.steps }
    {
        self.steps.len() as u64
    }

    /// Whether no step was made yet.
    pub fn is_empty(&self) -> bool
        ensures { IsTrue result ↔ (self.now.log.steps ≡ []) }
    {
        self.steps.is_empty()
    }

    /// The sizes of all noted signals, as far as a u64 counts.
    pub fn signal_bytes(&self) -> u64
        ensures { result ≡ min (signal_bytes_of self.now.log.steps) (2 ^ 64 - 1) }
    {
        self.signal_bytes
    }

    /// Whether the journal takes no further step: it has 200,000 steps, or its noted signals have
    /// 67,108,864 bytes.
    pub fn full(&self) -> bool
        ensures { result ≡ is_full self.now.log.steps }
    {
        self.len() >= STEPS_MOST || self.signal_bytes >= SIGNAL_BYTES_MOST
    }

    /// The names of the nodes and the links, by their numbers.
    pub fn names(&self) -> &Names
        ensures { result.now ≡ self.now.log.names }
    {
        &self.names
    }

    /// The step at position k from 1, `None` exactly where k is 0 or above the length.
    pub fn step(&self, k: u64) -> Option<&Step>
        ensures { option_copied result ≡ step_at self.now.log.steps k }
    {
        if k == 0 {
            return None;
        }
        nth_made(&self.steps, (k - 1) as usize)
    }

    /// The effect at the position of an item, `None` exactly where no effect has it.
    pub fn effect_at(&self, at: ItemAt) -> Option<&Effect>
        ensures { option_copied result ≡ effect_at self.now.log.steps at }
    {
        match self.step(at.step) {
            Some(step) => nth_effect(step, at.place),
            None => None,
        }
    }

    /// The step after the first ones, so many.
    pub fn step_after(&self, done: u64) -> &Step
        requires { done < length self.now.log.steps }
        ensures next { first_steps (done + 1) self.now.log.steps
            ≡ result.now ∷ first_steps done self.now.log.steps }
        ensures position { length (first_steps done self.now.log.steps) ≡ done }
    {
        let total = self.len();
        prove!(done < total);
        match self.step(done + 1) {
            Some(step) => step,
            None => unreachable!(),
        }
    }
}
