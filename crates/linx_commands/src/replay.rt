//! `replay`: whether a printed text is that of a run of the script before it.

ghost use Rattle.std.specs.Prelude.{◌≡◌};
ghost use Rattle.linx_commands.specs.Printed.{IsTextDone};
ghost use Rattle.linx_commands.specs.Replays.{IsReplayEnd, replay_status};
ghost use Rattle.linx_commands.specs.Streams.{Writes};
ghost use Rattle.linx_commands.specs.Works.{Ends};

use crate::outcome::{Outcome, Status, TextFault, Unlike};
use crate::printed::TEXT_MOST;
use crate::serving::unstarted;
use crate::verdict::write_verdict;
use linx_outside::Sink;
use script_texts::{Parts, parted};
use std::alloc::Global;
use text_replay::ReplayStop;

/// How a replay ends that found no run.
fn status_of_replay(stop: ReplayStop) -> Status
    ensures { result ≡ replay_status stop }
{
    match stop {
        ReplayStop::Bad { line, fault } => Status::Script { line, fault },
        ReplayStop::Unread { line } => Status::Text(TextFault::Bad { line }),
        ReplayStop::Full { line } => Status::Text(TextFault::Full { line }),
        ReplayStop::Other { line } => Status::Unlike(Unlike::Line { line }),
        ReplayStop::JournalFull => Status::Unlike(Unlike::Filled),
        ReplayStop::NoMemory => Status::NoMemory,
    }
}

/// What comes of the replay of a text goes to the sink, behind whose script it stands.
pub(crate) fn replay<K: Sink>(alloc: Global, bytes: &[u8], out: &mut K) -> Outcome
    ensures { Ends (IsTextDone (IsReplayEnd bytes.now))
        (λ written. Writes K.held K.faults K.last_count K.can_take out.old out.new
        result.status written)
        result.status result.journal.log }
{
    if bytes.len() > TEXT_MOST {
        return unstarted(alloc, Status::Text(TextFault::Long));
    }
    let Parts { script, text } = parted(bytes);
    let Some(text) = text else {
        return unstarted(alloc, Status::Text(TextFault::Missing));
    };
    match text_replay::replay(alloc, script, text) {
        Ok(steps) => unstarted(alloc, write_verdict(alloc, "same", steps, out)),
        Err(stop) => unstarted(alloc, status_of_replay(stop)),
    }
}
