//! `seeds`: the report of the runs of some seeds.

ghost use Rattle.std.specs.Prelude.{◌≡◌, false, IfErr, IfOk};
ghost use Rattle.order_lines.specs.Faults.{IsBadOf};
ghost use Rattle.order_lines.specs.Fronts.{ordered_of};
ghost use Rattle.seed_report.specs.Reports.{IsReport};
ghost use Rattle.linx_commands.specs.Printed.{IsTextDone};
ghost use Rattle.linx_commands.specs.Searches.{IsSeedsEnd};
ghost use Rattle.linx_commands.specs.Streams.{Writes};
ghost use Rattle.linx_commands.specs.Works.{Ends};

use crate::outcome::Outcome;
use crate::serving::{status_of_script, unstarted, write_text};
use command_words::Report;
use linx_outside::Sink;
use run_progress::{Progress, Untold};
use script_lang::ScriptError;
use std::alloc::Global;
use std::thread::Threads;

/// The report of the runs of the script that bytes spell, as many at a time as there are processors. How
/// far they have come is told where it is asked for.
fn reported<R: Threads + Sync, P: Progress>(
    rt: &R,
    alloc: Global,
    asked: Report,
    bytes: &[u8],
    progress: &mut P,
) -> Result<Vec<u8>, ScriptError>
    ensures report { IfOk result (λ text.
        IsReport bytes.now asked.range.first asked.range.more text.items) }
    ensures bad { IfErr result (λ e. IsBadOf (ordered_of bytes.now) e) }
    ensures untold { asked.progress ≡ false → progress.new ≡ progress.old }
{
    let Report {
        range,
        progress: tells,
    } = asked;
    if tells {
        seed_threads::report(rt, alloc, bytes, range.first, range.more, progress)
    } else {
        seed_threads::report(rt, alloc, bytes, range.first, range.more, &mut Untold)
    }
}

/// The report of the runs of the script that bytes spell goes to the sink.
pub(crate) fn report<R: Threads + Sync, K: Sink, P: Progress>(
    rt: &R,
    alloc: Global,
    asked: Report,
    bytes: &[u8],
    out: &mut K,
    progress: &mut P,
) -> Outcome
    ensures reported { Ends (IsTextDone (IsSeedsEnd asked.range bytes.now))
        (λ written. Writes K.held K.faults K.last_count K.can_take out.old out.new
        result.status written)
        result.status result.journal.log }
    ensures untold { asked.progress ≡ false → progress.new ≡ progress.old }
{
    match reported(rt, alloc, asked, bytes, progress) {
        Ok(text) => unstarted(alloc, write_text(text.as_slice(), out)),
        Err(error) => unstarted(alloc, status_of_script(error)),
    }
}
