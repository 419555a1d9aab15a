//! Whose step is whose: the open endpoint of each actor, while a journal is read in order.
ghost use Rattle.std.specs.Prelude.{◌≡◌, ℕ, ◌∷◌, [], List, ◌==◌, ◌||◌, OnOk, nat_eq, if◌then◌else◌};
ghost use Rattle.std.specs.List.{list_any};
ghost use Rattle.std.specs.HashMap.{get};
ghost use Rattle.std.specs.HashSet.{contains};
ghost use Rattle.journal.specs.declared.effect.Step.{Step};
ghost use Rattle.journal.specs.History.{last_opened, closes};
ghost use Rattle.journal_text.specs.Makers.{owner_by};
ghost use Rattle.journal_text.specs.Owners.{Tracks};

use journal::{By, Effect, Step};
use linx_base::{Inc, NoMemory};
use std::alloc::Global;
use std::collections::{HashMap, HashSet};

/// The incarnation that each actor opened last, and all that were closed.
#[derive(Drop)]
pub(crate) struct Owners {
    last: HashMap<u32, Inc>,
    closed: HashSet<u64>,
}

fn note_opening(last: &mut HashMap<u32, Inc>, actor: u32, effect: &Effect) -> Result<(), NoMemory>
    ensures { OnOk result ((q : ℕ) → get nat_eq last.new q
        ≡ (if actor == q then last_opened (get nat_eq last.old q) (effect.now ∷ [])
        else get nat_eq last.old q)) }
{
    match effect {
        Effect::Opened(inc) => {
            last.insert(actor, *inc)?;
            Ok(())
        }
        _ => Ok(()),
    }
}

fn note_openings(
    last: &mut HashMap<u32, Inc>,
    actor: u32,
    effects: &[Effect],
) -> Result<(), NoMemory>
    ensures { OnOk result ((q : ℕ) → get nat_eq last.new q
        ≡ (if actor == q then last_opened (get nat_eq last.old q) effects.now
        else get nat_eq last.old q)) }
{
    for effect in effects {
        note_opening(last, actor, effect)?;
    }
    Ok(())
}

fn note_closing(closed: &mut HashSet<u64>, effect: &Effect) -> Result<(), NoMemory>
    ensures { OnOk result ((q : ℕ) → contains nat_eq closed.new q
        ≡ (contains nat_eq closed.old q || closes (record { 0 = q }) effect.now)) }
{
    match effect {
        Effect::Closed(inc) => {
            closed.insert(inc.0)?;
            Ok(())
        }
        _ => Ok(()),
    }
}

fn note_closings(closed: &mut HashSet<u64>, effects: &[Effect]) -> Result<(), NoMemory>
    ensures { OnOk result ((q : ℕ) → contains nat_eq closed.new q
        ≡ (contains nat_eq closed.old q || list_any (closes (record { 0 = q })) effects.now)) }
{
    for effect in effects {
        note_closing(closed, effect)?;
    }
    Ok(())
}

impl Owners {
    /// Those before any step.
    pub(crate) fn new(alloc: Global) -> Owners
        ensures { Tracks [] result }
    {
        Owners {
            last: HashMap::new(alloc),
            closed: HashSet::new(alloc),
        }
    }

    /// Takes in the next step.
    pub(crate) fn note(&mut self, step: &Step) -> Result<(), NoMemory>
        ensures { (P : List Step) → Tracks P self.old
            → OnOk result (Tracks (step.now ∷ P) self.new) }
    {
        let effects = step.effects.as_slice();
        if let By::Actor(actor) = step.by {
            note_openings(&mut self.last, actor, effects)?;
        }
        note_closings(&mut self.closed, effects)
    }

    /// The open endpoint of a maker.
    pub(crate) fn endpoint(&self, by: By) -> Option<Inc>
        ensures { (P : List Step) → Tracks P self.now → result ≡ owner_by P by }
    {
        let By::Actor(actor) = by else {
            return None;
        };
        match self.last.get(&actor) {
            Some(inc) if !self.closed.contains(&inc.0) => Some(*inc),
            _ => None,
        }
    }
}
