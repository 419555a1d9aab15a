//! Who opened the endpoints of a run.

ghost use Rattle.std.specs.Prelude.{◌≡◌, ◌≤◌, ◌==◌, find, length, IfOk, OnOk};
ghost use Rattle.std.specs.List.{count_by};
ghost use Rattle.std.specs.Option.{option_copied};
ghost use Rattle.run_outcomes.specs.Openers.{opening_of, openers, with_opening};

use journal::{By, Effect, Journal, Step};
use linx_base::{Inc, NoMemory};
use std::alloc::Global;

/// An endpoint, the actor that opened it, and which of this actor's endpoints it is, from 1.
#[derive(Clone, Copy, Debug, PartialEq, Eq, Hash)]
pub struct Opener {
    pub inc: Inc,
    pub actor: u32,
    pub nth: u64,
}

/// The endpoint that a step opens.
fn opening_of(effects: &[Effect]) -> Option<Inc>
    ensures { result ≡ opening_of effects.now }
{
    match effects {
        [Effect::Opened(inc), ..] => Some(*inc),
        _ => None,
    }
}

/// How many of these endpoints an actor opened.
fn count_of(table: &[Opener], actor: u32) -> usize
    ensures value { result ≡ count_by (λ o. o.actor == actor) table.now }
    ensures few { result ≤ length table.now }
{
    let mut count = 0;
    for opener in table {
        if opener.actor == actor {
            count += 1;
        }
    }
    count
}

/// Adds the endpoint that a step opens.
fn note(table: &mut Vec<Opener>, step: &Step) -> Result<(), NoMemory>
    ensures { OnOk result (table.new.items ≡ with_opening table.old.items step.now) }
{
    match (step.by, opening_of(step.effects.as_slice())) {
        (By::Actor(actor), Some(inc)) => {
            let nth = count_of(table, actor) as u64 + 1;
            table.push(Opener { inc, actor, nth })?;
            Ok(())
        }
        _ => Ok(()),
    }
}

/// The endpoints that a run opened, in order.
pub(crate) fn openers(alloc: Global, journal: &Journal) -> Result<Vec<Opener>, NoMemory>
    ensures { IfOk result (λ table. table.items ≡ openers journal.now.log.steps) }
{
    let mut table = Vec::new(alloc);
    for done in 0..journal.len() {
        let step = journal.step_after(done);
        note(&mut table, step)?;
    }
    Ok(table)
}

/// Who opened an endpoint.
pub(crate) fn opener_of(table: &[Opener], inc: Inc) -> Option<&Opener>
    ensures { option_copied result ≡ find (λ o. o.inc.0 == inc.0) table.now }
{
    table.iter().find(|opener| opener.inc.0 == inc.0)
}
