//! A gateway whose journal is kept in a file: the file is made before the first read, and the text
//! of the session's journal is written into it at the end, however the session ended.

ghost use Rattle.std.specs.Prelude.{◌≡◌, ◌<◌, ◌≤◌, None, option_map};
ghost use Rattle.journal_text.specs.Text.{text_of};
ghost use Rattle.linx_commands.specs.Keeping.{IsGatewayFrom, IsKept, IsKeptOrUnmade, kept_status};
ghost use Rattle.linx_commands.specs.Runs.{IsLegalSomehow};
ghost use Rattle.linx_commands.specs.Sessions.{IsGatewayOf};

use crate::outcome::{Outcome, Status};
use crate::serving::unstarted;
use crate::session::gateway;
use journal::Journal;
use linx_files::NewFile;
use linx_outside::{Sink, Source, WriteFault};
use report::{ReportError, write_report};
use std::alloc::Global;

/// Writes the text of a journal into a file that was made.
#[tactic(auto, using(crate::proofs::Kept::kept_front, crate::proofs::Kept::kept_unfinished, crate::proofs::Kept::kept_whole))]
fn keep<N: NewFile>(alloc: Global, journal: &Journal, file: &mut N) -> Result<(), ReportError>
    ensures { IsKept N.held N.faults N.last_count file.old file.new result
        (text_of journal.now.log) }
{
    match write_report(alloc, journal, file) {
        Ok(()) => match file.finish() {
            Ok(()) => Ok(()),
            Err(WriteFault) => Err(ReportError::WriteFault),
        },
        Err(error) => Err(error),
    }
}

/// The status of a session that ended with this one, and whose journal was kept, or wasn't.
fn status_of_kept(ended: Status, kept: Result<(), ReportError>) -> Status
    ensures { result ≡ kept_status ended kept }
{
    match kept {
        Ok(()) => ended,
        Err(ReportError::WriteFault) => Status::Unkept,
        Err(ReportError::NoMemory) => Status::NoMemory,
    }
}

/// Serves so many clients over the streams by a gateway, and keeps its journal in the file of a name.
fn kept_gateway<S: Source, K: Sink, N: NewFile>(
    alloc: Global,
    clients: u8,
    name: &str,
    source: &mut S,
    out: &mut K,
    file: &mut N,
) -> Outcome
    requires { (0 < clients) × (clients ≤ 16) }
    ensures served { IsKeptOrUnmade (IsGatewayOf clients S.left S.faults S.last_count S.is_faultless
        K.held K.faults K.last_count source.old source.new out.old out.new)
        ((source.new ≡ source.old) × (out.new ≡ out.old)) (N.refuses file.old name.now) N.held
        N.faults N.last_count N.at_first file.old file.new result.status result.journal.log }
    ensures legal { IsLegalSomehow result.journal.log.steps }
{
    match file.make(name) {
        Ok(()) => {
            let Outcome { status, journal } = gateway(alloc, clients, source, out);
            let kept = keep(alloc, &journal, file);
            Outcome {
                status: status_of_kept(status, kept),
                journal,
            }
        }
        Err(why) => unstarted(alloc, Status::Unmade(why)),
    }
}

/// Serves so many clients by a gateway, and keeps its journal in a file where one is named.
pub(crate) fn gateway_from<S: Source, K: Sink, N: NewFile>(
    alloc: Global,
    clients: u8,
    name: Option<&str>,
    source: &mut S,
    out: &mut K,
    file: &mut N,
) -> Outcome
    requires { (0 < clients) × (clients ≤ 16) }
    ensures served { IsGatewayFrom (option_map (λ name. name.now) name.entry)
        (IsGatewayOf clients S.left S.faults S.last_count S.is_faultless K.held K.faults
        K.last_count source.old source.new out.old out.new)
        ((source.new ≡ source.old) × (out.new ≡ out.old)) (N.refuses file.old) N.held N.faults
        N.last_count N.at_first file.old file.new result.status result.journal.log }
    ensures unmade { option_map (λ name. name.now) name.entry ≡ None → file.new ≡ file.old }
    ensures legal { IsLegalSomehow result.journal.log.steps }
{
    match name {
        Some(name) => kept_gateway(alloc, clients, name, source, out, file),
        None => gateway(alloc, clients, source, out),
    }
}
