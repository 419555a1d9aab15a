//! The report.

ghost use Rattle.std.specs.Prelude.{◌≡◌, ◌+◌, IfErr, IfOk};
ghost use Rattle.order_lines.specs.Faults.{IsBadOf};
ghost use Rattle.order_lines.specs.Fronts.{ordered_of};
ghost use Rattle.seed_report.specs.Reports.{HasActors, IsReport, IsTallied};

use crate::seen::seen_of_seed;
use linx_base::NoMemory;
use outcome_tally::Tally;
use script_lang::ScriptError;
use std::alloc::Global;

/// How many actors the script has that bytes spell.
#[tactic(auto, using(crate::proofs::Counted::counted))]
pub fn actors_in(alloc: Global, bytes: &[u8]) -> Result<u32, ScriptError>
    ensures actors { IfOk result (HasActors bytes.now) }
    ensures bad { IfErr result (λ e. IsBadOf (ordered_of bytes.now) e) }
{
    let ordered = order_lines::read(alloc, bytes)?;
    Ok(ordered.script.actors().len() as u32)
}

/// THE TALLY of the runs of this seed and so many behind it, of a script with so many actors.
#[tactic(auto, using(crate::proofs::Tallies::none_tallied, crate::proofs::Tallies::few_tallied, crate::proofs::Tallies::more_tallied))]
pub fn tally(
    alloc: Global,
    bytes: &[u8],
    actors: u32,
    first: u32,
    more: u32,
) -> Result<Tally, ScriptError>
    ensures tallied { IfOk result (IsTallied bytes.now actors first (first + more + 1)) }
    ensures bad { IfErr result (λ e. IsBadOf (ordered_of bytes.now) e) }
{
    let from = u64::from(first);
    let behind = from + u64::from(more) + 1;
    let mut tally = Tally::new(alloc);
    'seeds: for seed in from..behind {
        let seen = seen_of_seed(alloc, bytes, actors, seed)?;
        if tally.add(seed, seen).is_err() {
            return Err(ScriptError::NoMemory);
        }
    }
    Ok(tally)
}

/// THE REPORT of the runs of this seed and so many behind it.
#[tactic(auto, using(crate::proofs::Tallies::reported))]
pub fn report(alloc: Global, bytes: &[u8], first: u32, more: u32) -> Result<Vec<u8>, ScriptError>
    ensures report { IfOk result (λ text. IsReport bytes.now first more text.items) }
    ensures bad { IfErr result (λ e. IsBadOf (ordered_of bytes.now) e) }
{
    let actors = actors_in(alloc, bytes)?;
    let tally = tally(alloc, bytes, actors, first, more)?;
    match tally.report(alloc, actors) {
        Ok(text) => Ok(text),
        Err(NoMemory) => Err(ScriptError::NoMemory),
    }
}
