//! An echo over the program's streams, and a gateway.

ghost use Rattle.std.specs.Prelude.{◌≡◌, ◌<◌, ◌≤◌};
ghost use Rattle.linx_commands.specs.Runs.{IsLegalSomehow};
ghost use Rattle.linx_commands.specs.Sessions.{IsGatewayOf, IsSession, gateway_status};
ghost use Rattle.linx_commands.specs.Sessions.{session_status};

use crate::outcome::{Outcome, Status};
use crate::serving::unstarted;
use gateway_session::Session;
use linx_outside::{Sink, Source};
use request_stream::ServeStop;
use std::alloc::Global;
use stream_echo::serve;

fn status_of_session(ended: Result<(), ServeStop>) -> Status
    ensures { result ≡ session_status ended }
{
    match ended {
        Ok(()) => Status::Done,
        Err(ServeStop::Torn { at }) => Status::Torn { at },
        Err(ServeStop::BadStream { at }) => Status::BadStream { at },
        Err(ServeStop::ReadFault) => Status::ReadFault,
        Err(ServeStop::WriteFault) => Status::WriteFault,
        Err(ServeStop::Full | ServeStop::NoMemory) => Status::NoMemory,
    }
}

/// Serves one peer over the streams by an echo. There is no run, so the journal is empty.
pub(crate) fn echo<S: Source, K: Sink>(alloc: Global, source: &mut S, out: &mut K) -> Outcome
    ensures session { IsSession S.left S.faults S.last_count S.is_faultless K.held K.faults
        K.last_count source.old source.new out.old out.new result.status result.journal.log }
    ensures legal { IsLegalSomehow result.journal.log.steps }
{
    let ended = serve(alloc, source, out);
    unstarted(alloc, status_of_session(ended))
}

fn status_of_gateway(ended: Result<(), ServeStop>) -> Status
    ensures { result ≡ gateway_status ended }
{
    match ended {
        Ok(()) => Status::Done,
        Err(ServeStop::Torn { at }) => Status::Torn { at },
        Err(ServeStop::BadStream { at }) => Status::BadStream { at },
        Err(ServeStop::Full) => Status::JournalFull,
        Err(ServeStop::ReadFault) => Status::ReadFault,
        Err(ServeStop::WriteFault) => Status::WriteFault,
        Err(ServeStop::NoMemory) => Status::NoMemory,
    }
}

/// Serves so many clients over the streams by a gateway.
pub(crate) fn gateway<S: Source, K: Sink>(
    alloc: Global,
    clients: u8,
    source: &mut S,
    out: &mut K,
) -> Outcome
    requires { (0 < clients) × (clients ≤ 16) }
    ensures session { IsGatewayOf clients S.left S.faults S.last_count S.is_faultless K.held
        K.faults K.last_count source.old source.new out.old out.new result.status
        result.journal.log }
    ensures legal { IsLegalSomehow result.journal.log.steps }
{
    let Ok(mut session) = Session::new(alloc, clients) else {
        return unstarted(alloc, Status::NoMemory);
    };
    let ended = session.serve(source, out);
    Outcome {
        status: status_of_gateway(ended),
        journal: session.into_journal(),
    }
}
