//! The end of the program: its line on standard error, and its exit status.

ghost use Rattle.std.specs.Prelude.{◌≡◌, []};
ghost use Rattle.linx_commands.specs.Lines.{line_of};
ghost use Rattle.linx_commands.specs.Statuses.{exit_of};
ghost use Rattle.linx_commands.specs.Streams.{WritesLine};

use crate::outcome::{Outcome, Status};
use crate::status_line::status_line;
use linx_outside::{Sink, write_all};
use std::marker::Model;
use std::process::{ExitCode, Termination};

/// The status that the program told, by which it ends. Only `program` gives one out. Contracts see
/// the status.
#[derive(Drop)]
pub struct Told {
    status: Status,
}

impl Model for Told {
    ghost use Rattle.linx_commands.specs.declared.outcome.Status.{Status};

    ghost Value = { Status };

    ghost view = { λ told. told.status };
}

impl Termination for Told {
    ghost use Rattle.std.specs.Process.{exit_status};

    fn report<R: Eprint>(self, _rt: &R) -> ExitCode
        ensures { exit_status result ≡ exit_of self }
    {
        ExitCode::from(exit_code(self.status))
    }
}

// The exit status of the program. Who wants it has to tell the status.
fn exit_code(status: Status) -> u8
    ensures { result ≡ exit_of status }
{
    match status {
        Status::Done => 0,
        Status::Usage(_) => 1,
        Status::Script { .. } => 2,
        Status::Unopened(_) | Status::ReadFault => 3,
        Status::Unmade(_) | Status::Unkept | Status::WriteFault => 4,
        Status::JournalFull => 5,
        Status::NoMemory => 6,
        Status::FoundNone | Status::Unlike(_) | Status::Illegal(_) => 7,
        Status::Text(_) => 8,
        Status::Torn { .. } => 9,
        Status::BadStream { .. } => 11,
    }
}

/// Writes the line of a status; what it answers is the same where the line can't be written.
#[tactic(auto, unfolding(crate::specs::Lines::line_by))]
pub(crate) fn tell<K: Sink>(words: &[String], outcome: &Outcome, errors: &mut K) -> Told
    ensures status { result ≡ outcome.now.status }
    ensures line { WritesLine K.held K.faults K.last_count K.can_take errors.old errors.new
        (line_of words.now outcome.now.status outcome.now.journal.log) }
    ensures silent { outcome.now.status ≡ Status.Done → errors.new ≡ errors.old }
{
    let line = status_line(words, outcome.status, &outcome.journal);
    write_line(line.bytes(), errors);
    Told {
        status: outcome.status,
    }
}

/// Writes a line. Nobody is told where it can't be written.
fn write_line<K: Sink>(line: &[u8], errors: &mut K)
    ensures line { WritesLine K.held K.faults K.last_count K.can_take errors.old errors.new line.now }
    ensures none { line.now ≡ [] → errors.new ≡ errors.old }
{
    let _ = write_all(errors, line);
}
