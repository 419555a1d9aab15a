//! A run over memory, which ends as the contract of a run says.
ghost use Rattle.std.specs.Prelude.{◌≡◌, ◌+◌, ◌≤◌, [], false, length, IsOk};
ghost use Rattle.journal.specs.Logs.{is_full};
ghost use Rattle.journal_text.specs.Text.{text_of};
ghost use Rattle.order_lines.specs.Fronts.{ordered_of};
ghost use Rattle.linx_commands.specs.Statuses.{IsDoneOrRefused};

use anyhow::{Result, ensure};
use command_words::TurnOrder;
use linx_commands::{Outcome, Status, in_order};
use linx_outside::{MemSink, PlainSource};
use std::alloc::Global;
use std::mem;

/// As many commands as an actor may have.
const MOST_COMMANDS: &str = "node n\nactor p n\nopen a\nrepeat 9999\nsend self 5\nrecv any\nend\n\
    close\nend\n";

/// A run over memory ends as it should, whatever the script.
fn run_in_memory(alloc: Global, source: &mut PlainSource, sink: &mut MemSink) -> Outcome
    ensures { IsOk (ordered_of source.old) → is_full result.journal.log.steps ≡ false
        → sink.old.plan.fails ≡ []
        → length sink.old.held + length (text_of result.journal.log) ≤ sink.old.room
        → IsDoneOrRefused result.status }
{
    in_order(alloc, TurnOrder::Fixed, source, sink)
}

/// What is told of the run of as many commands as an actor may have.
pub(crate) fn most_commands(alloc: Global) -> Result<String> {
    let mut source = PlainSource::new(Vec::from_slice(alloc, MOST_COMMANDS.as_bytes())?);
    let mut sink = MemSink::new(alloc, 4096, 4_194_304, Vec::new(alloc))?;
    let Outcome { status, journal } = run_in_memory(alloc, &mut source, &mut sink);
    let steps = journal.len();
    // The journal is never dropped: to prove the drops of all that is in it takes long.
    mem::forget(journal);
    ensure!(
        status == Status::Done,
        "a run of so many commands isn't done"
    );
    ensure!(
        sink.held()
            .starts_with(b"log 1.1 a n\nsent 1.1 5 - queued\n"),
        "its text begins otherwise"
    );
    Ok(format!(in alloc; "as many commands as an actor may have: {steps} steps")?)
}
