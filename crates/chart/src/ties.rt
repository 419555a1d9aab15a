//! The ties of a journal.
ghost use Rattle.std.specs.Prelude.{◌≡◌, ◌++◌, [], ◌∷◌, OnOk, IfOk};
ghost use Rattle.chart.specs.Ties.{tie, detach_ties, head_ties, signal_ties, effect_tie};
ghost use Rattle.chart.specs.Ties.{effect_ties, ties_of};
ghost use Rattle.chart.specs.Carried.{over_links};
ghost use Rattle.chart.specs.AllTies.{all_ties};
ghost use Rattle.chart.specs.Opened.{Opens};

use crate::carried::Carried;
use crate::openers::Openers;
use crate::tie::{Tie, TieKind};
use journal::{Detached, Effect, Head, Journal, Step};
use linx_base::{ItemAt, NoMemory, Sequence};
use std::alloc::Global;

/// The line of a step, at a position.
fn line(position: u64) -> ItemAt
    ensures { result ≡ record { step = position; place = 0 } }
{
    ItemAt {
        step: position,
        place: 0,
    }
}

fn put(ties: &mut Vec<Tie>, kind: TieKind, from: ItemAt, to: ItemAt) -> Result<(), NoMemory>
    ensures { OnOk result (ties.new.items ≡ ties.old.items ++ tie kind from to ∷ []) }
{
    ties.push(Tie { kind, from, to })?;
    Ok(())
}

fn put_detach(
    ties: &mut Vec<Tie>,
    position: u64,
    reference: u64,
    answer: Detached,
) -> Result<(), NoMemory>
    ensures { OnOk result (ties.new.items
        ≡ ties.old.items ++ detach_ties position reference answer) }
{
    match answer {
        Detached::Pending | Detached::Queued => {
            put(ties, TieKind::Detach, line(reference), line(position))
        }
        Detached::None => Ok(()),
    }
}

fn put_head(ties: &mut Vec<Tie>, position: u64, head: &Head) -> Result<(), NoMemory>
    ensures { OnOk result (ties.new.items ≡ ties.old.items ++ head_ties position head.now) }
{
    match head {
        Head::Take(_, at) => put(ties, TieKind::Taken, *at, line(position)),
        Head::Detach(reference, answer) => put_detach(ties, position, reference.0, *answer),
        _ => Ok(()),
    }
}

fn put_signal(ties: &mut Vec<Tie>, position: u64, place: u64, head: &Head) -> Result<(), NoMemory>
    ensures { OnOk result (ties.new.items
        ≡ ties.old.items ++ signal_ties position place head.now) }
{
    let to = ItemAt {
        step: position,
        place,
    };
    match head {
        Head::Send(..) => put(ties, TieKind::Signal, line(position), to),
        _ => Ok(()),
    }
}

fn put_effect(
    ties: &mut Vec<Tie>,
    position: u64,
    place: u64,
    head: &Head,
    effect: &Effect,
) -> Result<(), NoMemory>
    ensures { OnOk result (ties.new.items
        ≡ ties.old.items ++ effect_tie position place head.now effect.now) }
{
    let to = ItemAt {
        step: position,
        place,
    };
    match effect {
        Effect::Arrived(..) => put_signal(ties, position, place, head),
        Effect::Found(_, _, _, hunt) => put(ties, TieKind::Hunt, line(*hunt), to),
        Effect::Notified(_, _, _, reference, _) => {
            put(ties, TieKind::Attach, line(reference.0), to)
        }
        _ => Ok(()),
    }
}

fn put_effects(
    ties: &mut Vec<Tie>,
    position: u64,
    head: &Head,
    effects: &[Effect],
) -> Result<(), NoMemory>
    ensures { OnOk result (ties.new.items
        ≡ ties.old.items ++ effect_ties position 1 head.now effects.now) }
{
    for (index, effect) in effects.iter().enumerate() {
        put_effect(ties, position, index as u64 + 1, head, effect)?;
    }
    Ok(())
}

fn put_step(ties: &mut Vec<Tie>, position: u64, step: &Step) -> Result<(), NoMemory>
    ensures { OnOk result (ties.new.items ≡ ties.old.items
        ++ (head_ties position step.now.head
        ++ effect_ties position 1 step.now.head step.now.effects)) }
{
    put_head(ties, position, &step.head)?;
    put_effects(ties, position, &step.head, step.effects.as_slice())
}

fn put_steps(alloc: Global, journal: &Journal) -> Result<Vec<Tie>, NoMemory>
    ensures { IfOk result (λ ties. ties.items ≡ ties_of journal.now.log.steps) }
{
    let mut ties = Vec::new(alloc);
    for done in 0..journal.len() {
        let step = journal.step_after(done);
        put_step(&mut ties, done + 1, step)?;
    }
    Ok(ties)
}

/// What the steps did over links.
fn over_links(alloc: Global, journal: &Journal) -> Result<Carried, NoMemory>
    ensures { IfOk result (λ carried. carried ≡ over_links journal.now.log.steps) }
{
    let mut carried = Carried::new(alloc);
    let mut openers = Openers::new(alloc);
    for done in 0..journal.len() {
        let step = journal.step_after(done);
        openers.note(step)?;
        carried.step(&openers, done + 1, step)?;
    }
    Ok(carried)
}

/// The ties of a journal: those on nodes in the order of the lines where they end, and behind them
/// those over links.
pub fn all_ties(alloc: Global, journal: &Journal) -> Result<Sequence<Tie>, NoMemory>
    ensures { IfOk result (λ ties. ties ≡ all_ties journal.now.log.steps) }
{
    let mut ties = put_steps(alloc, journal)?;
    let carried = over_links(alloc, journal)?;
    carried.add_ties(&mut ties)?;
    Ok(Sequence::of(ties))
}
