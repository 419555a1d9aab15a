//! `check`: whether a printed text is that of a legal run of the script before it.

ghost use Rattle.std.specs.Prelude.{◌≡◌};
ghost use Rattle.linx_commands.specs.Checks.{IsCheckEnd, check_status};
ghost use Rattle.linx_commands.specs.Printed.{IsTextDone};
ghost use Rattle.linx_commands.specs.Streams.{Writes};
ghost use Rattle.linx_commands.specs.Works.{Ends};

use crate::outcome::{Outcome, Status, TextFault};
use crate::printed::TEXT_MOST;
use crate::serving::unstarted;
use crate::verdict::write_verdict;
use linx_outside::Sink;
use script_texts::{Parts, parted};
use std::alloc::Global;
use text_check::CheckStop;

/// How a check ends whose text isn't that of a legal run.
fn status_of_check(stop: CheckStop) -> Status
    ensures { result ≡ check_status stop }
{
    match stop {
        CheckStop::Bad { line, fault } => Status::Script { line, fault },
        CheckStop::Unread { line } => Status::Text(TextFault::Bad { line }),
        CheckStop::Full { line } => Status::Text(TextFault::Full { line }),
        CheckStop::Illegal(fault) => Status::Illegal(fault),
        CheckStop::Log { line } => Status::Text(TextFault::Log { line }),
        CheckStop::NoMemory => Status::NoMemory,
    }
}

/// What comes of the check of a text goes to the sink, behind whose script it stands.
pub(crate) fn check<K: Sink>(alloc: Global, bytes: &[u8], out: &mut K) -> Outcome
    ensures { Ends (IsTextDone (IsCheckEnd bytes.now))
        (λ written. Writes K.held K.faults K.last_count K.can_take out.old out.new
        result.status written)
        result.status result.journal.log }
{
    if bytes.len() > TEXT_MOST {
        return unstarted(alloc, Status::Text(TextFault::Long));
    }
    let Parts { script, text } = parted(bytes);
    let Some(text) = text else {
        return unstarted(alloc, Status::Text(TextFault::Missing));
    };
    match text_check::check(alloc, script, text) {
        Ok(steps) => unstarted(alloc, write_verdict(alloc, "legal", steps, out)),
        Err(stop) => unstarted(alloc, status_of_check(stop)),
    }
}
