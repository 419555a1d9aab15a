//! The run of a seed.

ghost use Rattle.std.specs.Prelude.{◌≡◌, ℕ, Ok, IfErr, IfOk};
ghost use Rattle.order_lines.specs.Fronts.{ordered_of};
ghost use Rattle.seed_runs.specs.Runs.{IsRunOf, IsSeedRun, IsStopIn, IsStopOf, parts_of};

use fabric::StopCause;
use journal::Journal;
use linx_base::NoMemory;
use order_lines::Ordered;
use orders::{play_in_order, rule_of_seed};
use script_lang::{Fault, ScriptError};
use stage::Stage;
use std::alloc::Global;

/// Why there is no whole run of a seed.
#[derive(Drop)]
pub enum RunStop {
    /// The bytes are no script: the first bad line, from 1, and what is wrong with it.
    Bad { line: u32, fault: Fault },
    /// The run stopped: why, and its journal so far.
    Stopped { cause: StopCause, journal: Journal },
    /// Memory was refused outside of a run.
    NoMemory,
}

impl From<NoMemory> for RunStop {
    ghost use Rattle.std.specs.Prelude.{◌≡◌};
    ghost use Rattle.seed_runs.specs.declared.runs.RunStop.TheVariants.{NoMemory};

    ghost from_gives = { λ _ stop. stop ≡ NoMemory };

    fn from(_refusal: NoMemory) -> RunStop {
        RunStop::NoMemory
    }
}

/// The script that bytes spell, with the makers that come first.
fn script_in(alloc: Global, bytes: &[u8]) -> Result<Ordered, RunStop>
    ensures spelled { IfOk result (λ ordered. ordered_of bytes.now ≡ Ok (parts_of ordered)) }
    ensures unspelled { IfErr result (λ stop. (seed : ℕ) → IsStopOf bytes.now seed stop) }
{
    match order_lines::read(alloc, bytes) {
        Ok(ordered) => Ok(ordered),
        Err(ScriptError::Bad { line, fault }) => Err(RunStop::Bad { line, fault }),
        Err(ScriptError::NoMemory) => Err(RunStop::NoMemory),
    }
}

/// The journal of a script's run in the order of a seed.
fn play(alloc: Global, ordered: Ordered, seed: u64) -> Result<Journal, RunStop>
    ensures whole { IfOk result (λ journal. IsSeedRun (parts_of ordered) seed journal.log) }
    ensures stopped { IfErr result (λ stop. IsStopIn (parts_of ordered) seed stop) }
{
    let Ordered { script, front } = ordered;
    let mut rule = rule_of_seed(&script, seed);
    let mut stage = Stage::new(alloc, script)?;
    let played = play_in_order(alloc, &mut stage, front.as_slice(), &mut rule);
    let journal = stage.into_journal();
    match played {
        Ok(()) => Ok(journal),
        Err(cause) => Err(RunStop::Stopped { cause, journal }),
    }
}

/// THE RUN OF A SEED: the journal of the whole run, in the order that the number decides, of the
/// script that these bytes spell, behind the turns that its lines `order` list; or why there is none.
pub fn run_of_seed(alloc: Global, bytes: &[u8], seed: u64) -> Result<Journal, RunStop>
    ensures whole { IfOk result (λ journal. IsRunOf bytes.now seed journal.log) }
    ensures stopped { IfErr result (λ stop. IsStopOf bytes.now seed stop) }
{
    match script_in(alloc, bytes) {
        Ok(ordered) => play(alloc, ordered, seed),
        Err(stop) => Err(stop),
    }
}
