//! The lines of the report.

ghost use Rattle.std.specs.Prelude.{◌≡◌, ◌++◌, OnOk};
ghost use Rattle.outcome_tally.specs.Report.{first_of, full_text, heads_text, listed_text};
ghost use Rattle.outcome_tally.specs.Report.{others_text, outcome_text, outcomes_text, rares_text};
ghost use Rattle.outcome_tally.specs.Report.{steps_text};

use crate::outcomes::{Outcome, Outcomes};
use crate::ranking::most_of;
use crate::rare_times::RareTimes;
use crate::span::Span;
use crate::times::Times;
use crate::writing::{write_count, write_number, write_text, write_times, write_times_of};
use linx_base::NoMemory;
use run_outcomes::{Rare, write_differences};
use std::alloc::Global;

/// Of how many runs the journal was full, if there are some.
fn write_full(out: &mut Vec<u8>, full: Times) -> Result<(), NoMemory>
    ensures { OnOk result (out.new.items ≡ out.old.items ++ full_text full) }
{
    match full.first {
        None => Ok(()),
        Some(_) => write_times_of(out, "full", full),
    }
}

/// Between which numbers of steps the runs lie, if there are some.
fn write_steps(out: &mut Vec<u8>, steps: Option<Span>) -> Result<(), NoMemory>
    ensures { OnOk result (out.new.items ≡ out.old.items ++ steps_text steps) }
{
    match steps {
        None => Ok(()),
        Some(span) => {
            write_text(out, "steps ")?;
            write_number(out, span.least)?;
            write_text(out, " ")?;
            write_number(out, span.most)?;
            write_text(out, "\n")
        }
    }
}

/// What stands before the outcomes.
#[tactic(auto, unfolding(crate::specs::Report::heads_text))]
pub(crate) fn write_heads(
    out: &mut Vec<u8>,
    runs: u64,
    full: Times,
    steps: Option<Span>,
) -> Result<(), NoMemory>
    ensures { OnOk result (out.new.items ≡ out.old.items ++ heads_text runs full steps) }
{
    write_count(out, "runs", runs)?;
    write_full(out, full)?;
    write_steps(out, steps)
}

/// An outcome's line, and where it differs from the first one.
#[tactic(auto, unfolding(crate::specs::Report::outcome_text))]
fn write_outcome(
    alloc: Global,
    out: &mut Vec<u8>,
    actors: u32,
    rank: usize,
    first: &[u8],
    outcome: &Outcome,
) -> Result<(), NoMemory>
    ensures { OnOk result (out.new.items
        ≡ out.old.items ++ outcome_text actors rank first.now outcome.now) }
{
    write_text(out, "outcome ")?;
    write_number(out, rank as u64)?;
    write_text(out, " ")?;
    write_times(out, outcome.times)?;
    write_differences(alloc, out, actors, outcome.text, first)
}

/// The outcomes that are listed.
fn write_listed(
    alloc: Global,
    out: &mut Vec<u8>,
    actors: u32,
    first: &[u8],
    listed: &[Outcome],
) -> Result<(), NoMemory>
    ensures { OnOk result (out.new.items ≡ out.old.items
        ++ listed_text actors 1 first.now listed.now) }
{
    for (place, outcome) in listed.iter().enumerate() {
        write_outcome(alloc, out, actors, place + 1, first, outcome)?;
    }
    Ok(())
}

/// How many outcomes aren't listed, if there are some.
fn write_others(out: &mut Vec<u8>, others: usize) -> Result<(), NoMemory>
    ensures { OnOk result (out.new.items ≡ out.old.items ++ others_text others) }
{
    if others == 0 {
        Ok(())
    } else {
        write_count(out, "others", others as u64)
    }
}

/// The text of the first of some outcomes.
fn first_of<'a>(listed: &[Outcome<'a>]) -> &'a [u8]
    ensures { result.now ≡ first_of listed.now }
{
    match listed {
        [first, ..] => first.text,
        [] => &[],
    }
}

/// How many outcomes came, those that came most often, and how many others.
#[tactic(auto, unfolding(crate::specs::Report::outcomes_text))]
pub(crate) fn write_outcomes(
    alloc: Global,
    out: &mut Vec<u8>,
    actors: u32,
    came: &Outcomes,
) -> Result<(), NoMemory>
    ensures { OnOk result (out.new.items ≡ out.old.items ++ outcomes_text actors came.now) }
{
    write_count(out, "outcomes", came.len() as u64)?;
    let listed = most_of(alloc, came)?;
    let first = first_of(listed.as_slice());
    write_listed(alloc, out, actors, first, listed.as_slice())?;
    write_others(out, came.len().saturating_sub(listed.len()))
}

/// In how many runs each of the rare things came.
#[tactic(auto, unfolding(crate::specs::Report::rares_text))]
pub(crate) fn write_rares(out: &mut Vec<u8>, rares: &RareTimes) -> Result<(), NoMemory>
    ensures { OnOk result (out.new.items ≡ out.old.items ++ rares_text rares.now) }
{
    write_times_of(out, Rare::Refused.word(), rares.refused)?;
    write_times_of(out, Rare::FoundNone.word(), rares.found_none)?;
    write_times_of(out, Rare::Dead.word(), rares.dead)?;
    write_times_of(out, Rare::Closed.word(), rares.closed)?;
    write_times_of(out, Rare::Lost.word(), rares.lost)?;
    write_times_of(out, Rare::Down.word(), rares.down)
}
