//! The report of a range.

ghost use Rattle.std.specs.Prelude.{◌+◌, ◌<◌, ◌^◌, IfErr, IfOk};
ghost use Rattle.order_lines.specs.Faults.{IsBadOf};
ghost use Rattle.order_lines.specs.Fronts.{ordered_of};
ghost use Rattle.seed_report.specs.Reports.{IsReport};

use crate::totals::tally_in_waves;
use linx_base::NoMemory;
use run_progress::Progress;
use script_lang::ScriptError;
use std::alloc::Global;
use std::thread::Threads;

/// The report of a range, by its tally in waves.
#[tactic(auto, using(seed_report::proofs::Tallies::reported))]
fn report_in_waves<R: Threads + Sync, P: Progress>(
    rt: &R,
    alloc: Global,
    bytes: &[u8],
    first: u32,
    more: u32,
    progress: &mut P,
) -> Result<Vec<u8>, ScriptError>
    requires { first + more < 2 ^ 32 }
    ensures report { IfOk result (λ text. IsReport bytes.now first more text.items) }
    ensures bad { IfErr result (λ e. IsBadOf (ordered_of bytes.now) e) }
{
    let actors = seed_report::actors_in(alloc, bytes)?;
    let tally = tally_in_waves(rt, alloc, bytes, actors, first, more, progress)?;
    match tally.report(alloc, actors) {
        Ok(text) => Ok(text),
        Err(NoMemory) => Err(ScriptError::NoMemory),
    }
}

/// THE REPORT of the runs of this seed and so many behind it. Where the seeds go past 4,294,967,295
/// they are run one after another, and no progress is told.
pub fn report<R: Threads + Sync, P: Progress>(
    rt: &R,
    alloc: Global,
    bytes: &[u8],
    first: u32,
    more: u32,
    progress: &mut P,
) -> Result<Vec<u8>, ScriptError>
    ensures report { IfOk result (λ text. IsReport bytes.now first more text.items) }
    ensures bad { IfErr result (λ e. IsBadOf (ordered_of bytes.now) e) }
{
    match first.checked_add(more) {
        Some(_) => report_in_waves(rt, alloc, bytes, first, more, progress),
        None => seed_report::report(alloc, bytes, first, more),
    }
}
