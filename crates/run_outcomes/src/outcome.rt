//! The outcome of a run: a line for each answer, actor by actor.

ghost use Rattle.std.specs.Prelude.{◌≡◌, ◌++◌, IfOk, OnOk};
ghost use Rattle.run_outcomes.specs.Outcomes.{answer_line, is_told, name_of, outcome_of, told, told_by};

use crate::answers::{is_answer, write_answer};
use crate::openers::{Opener, openers};
use crate::values::{write_number, write_text};
use journal::{By, Head, Journal, Step};
use linx_base::NoMemory;
use std::alloc::Global;

/// The room that an outcome begins with.
const ROOM: usize = 512;

/// What stands at the beginning of an actor's lines.
#[tactic(auto, unfolding(crate::specs::Outcomes::name_of))]
pub(crate) fn write_name(out: &mut Vec<u8>, actor: u32) -> Result<(), NoMemory>
    ensures { OnOk result (out.new.items ≡ out.old.items ++ name_of actor) }
{
    write_text(out, "A")?;
    write_number(out, u64::from(actor))?;
    write_text(out, " ")
}

/// The line of an answer.
#[tactic(auto, unfolding(crate::specs::Outcomes::answer_line))]
fn write_line(
    out: &mut Vec<u8>,
    table: &[Opener],
    journal: &Journal,
    actor: u32,
    head: &Head,
) -> Result<(), NoMemory>
    ensures { OnOk result (out.new.items
        ≡ out.old.items ++ answer_line table.now journal.now.log.steps actor head.now) }
{
    write_name(out, actor)?;
    write_answer(out, table, journal, head)?;
    write_text(out, "\n")
}

/// Whether a step answers an actor.
fn is_told(step: &Step, actor: u32) -> bool
    ensures { result ≡ is_told actor step.now }
{
    match step.by {
        By::Actor(by) => by == actor && is_answer(&step.head),
        By::Pump(_) => false,
    }
}

/// What a step tells an actor.
fn write_told_by(
    out: &mut Vec<u8>,
    table: &[Opener],
    journal: &Journal,
    actor: u32,
    step: &Step,
) -> Result<(), NoMemory>
    ensures { OnOk result (out.new.items
        ≡ out.old.items ++ told_by table.now journal.now.log.steps actor step.now) }
{
    if is_told(step, actor) {
        write_line(out, table, journal, actor, &step.head)
    } else {
        Ok(())
    }
}

/// What an actor was told.
fn write_told(
    out: &mut Vec<u8>,
    table: &[Opener],
    journal: &Journal,
    actor: u32,
) -> Result<(), NoMemory>
    ensures { OnOk result (out.new.items ≡ out.old.items
        ++ told table.now journal.now.log.steps actor journal.now.log.steps) }
{
    for done in 0..journal.len() {
        let step = journal.step_after(done);
        write_told_by(out, table, journal, actor, step)?;
    }
    Ok(())
}

/// The outcome of a run with so many actors.
#[tactic(auto, unfolding(crate::specs::Outcomes::outcome_of))]
pub(crate) fn outcome(alloc: Global, actors: u32, journal: &Journal) -> Result<Vec<u8>, NoMemory>
    ensures { IfOk result (λ text. text.items ≡ outcome_of actors journal.now.log.steps) }
{
    let table = openers(alloc, journal)?;
    let mut text = Vec::with_capacity(alloc, ROOM)?;
    for before in 0..actors {
        write_told(&mut text, table.as_slice(), journal, before + 1)?;
    }
    Ok(text)
}
