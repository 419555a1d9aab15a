//! What is seen of the run of a seed.

ghost use Rattle.std.specs.Prelude.{◌≡◌, IfErr, IfOk};
ghost use Rattle.order_lines.specs.Faults.{IsBadOf};
ghost use Rattle.order_lines.specs.Fronts.{ordered_of};
ghost use Rattle.run_outcomes.specs.Seen.{seen_of};
ghost use Rattle.seed_report.specs.Reports.{IsSeen};
ghost use Rattle.seed_report.specs.Stops.{seen_of_cause, seen_of_stop};

use fabric::StopCause;
use journal::Journal;
use linx_base::NoMemory;
use run_outcomes::Seen;
use script_lang::ScriptError;
use seed_runs::{RunStop, run_of_seed};
use std::alloc::Global;

/// What is seen of a journal, which is let go here.
fn seen_in(alloc: Global, actors: u32, journal: Journal) -> Result<Seen, NoMemory>
    ensures { IfOk result (λ seen. seen ≡ seen_of actors journal.log.steps) }
{
    Seen::of(alloc, actors, &journal)
}

/// What is seen of a run that stopped for this cause. Its journal is let go here.
fn seen_of_stopped(cause: StopCause, _journal: Journal) -> Result<Option<Seen>, ScriptError>
    ensures { result ≡ seen_of_cause cause }
{
    match cause {
        StopCause::JournalFull => Ok(None),
        StopCause::NoMemory => Err(ScriptError::NoMemory),
    }
}

/// What is seen of a run that isn't whole.
fn seen_of_stop(stop: RunStop) -> Result<Option<Seen>, ScriptError>
    ensures { result ≡ seen_of_stop stop }
{
    match stop {
        RunStop::Bad { line, fault } => Err(ScriptError::Bad { line, fault }),
        RunStop::Stopped { cause, journal } => seen_of_stopped(cause, journal),
        RunStop::NoMemory => Err(ScriptError::NoMemory),
    }
}

/// What is seen of the run of a seed, of a script with so many actors; nothing where its journal was
/// full before its end.
#[tactic(auto, using(crate::proofs::Stopped::whole_seen, crate::proofs::Stopped::stopped_seen, crate::proofs::Stopped::stopped_bad))]
pub fn seen_of_seed(
    alloc: Global,
    bytes: &[u8],
    actors: u32,
    seed: u64,
) -> Result<Option<Seen>, ScriptError>
    ensures seen { IfOk result (IsSeen bytes.now actors seed) }
    ensures bad { IfErr result (λ e. IsBadOf (ordered_of bytes.now) e) }
{
    match run_of_seed(alloc, bytes, seed) {
        Ok(journal) => match seen_in(alloc, actors, journal) {
            Ok(seen) => Ok(Some(seen)),
            Err(NoMemory) => Err(ScriptError::NoMemory),
        },
        Err(stop) => seen_of_stop(stop),
    }
}
