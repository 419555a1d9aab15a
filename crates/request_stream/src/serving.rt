ghost use Rattle.std.specs.Prelude.{◌≡◌, ◌≢◌, ◌+◌, ◌<◌, ◌≤◌, [], ℕ, List, Option, OnOk, IfOk};
ghost use Rattle.std.specs.Prelude.{IfErr, IfSome, length};
ghost use Rattle.std.specs.Io.KnownBytes.{Consumes, IsAtEnd, Keeps};
ghost use Rattle.linx_outside.specs.Counts.{HasFaulted};
ghost use Rattle.request_stream.specs.Answers.{Answered, EndsItself};
ghost use Rattle.request_stream.specs.Fronts.{BeginsWith};
ghost use Rattle.request_stream.specs.Serving.{Serves};
ghost use Rattle.request_stream.specs.Ending.{Done, HasReplied, Stopped, Stops, moment, room_at};
ghost use Rattle.request_stream.specs.Ending.{CountsReads, CountsWrites, first, read_limit};
ghost use Rattle.request_stream.specs.Ending.{stream_limit};
ghost use Rattle.request_stream.specs.Backlogs.{Comes};

use crate::backlog::Backlog;
use crate::front::Front;
use crate::server::{Refusal, Server};
use crate::stop::ServeStop;
use linx_base::NoMemory;
use linx_outside::{ReadAnswer, ReadStop, Sink, Source, write_all};
use std::alloc::Global;

/// The most bytes of requests on a stream.
const STREAM_LIMIT: u64 = 1_073_741_824;

/// The most bytes that are read of it.
const READ_MOST: u64 = STREAM_LIMIT + 1;

/// What one read asks for at most.
const PIECE: usize = 4096;

/// The request that stands first is replied to, and taken.
fn reply_to_next<V: Server, K: Sink>(
    server: &mut V,
    backlog: &mut Backlog,
    size: usize,
    out: &mut Vec<u8>,
    sink: &mut K,
) -> Result<(), ServeStop>
    requires begins { BeginsWith (V.asks server.old) (room_at backlog.old.at) backlog.old.rest size }
    requires within { backlog.old.at ≤ stream_limit }
    ensures ok { OnOk result ((left : Option (List ℕ)) → Serves V.asks V.replies
        (moment server.old backlog.old left (K.held sink.old))
        (moment server.new backlog.new left (K.held sink.new))) }
    ensures taken { OnOk result ((backlog.new.at ≡ backlog.old.at + size)
        × (length backlog.new.rest + size ≡ length backlog.old.rest)) }
    ensures stopped { IfErr result (λ stop. (left : Option (List ℕ)) → Stops V.asks V.replies
        V.refuses V.is_full V.leaves (moment server.old backlog.old left (K.held sink.old)) stop server.new
        (K.held sink.new)) }
    ensures writes { CountsWrites K.last_count result (K.faults sink.old) (K.faults sink.new) }
    ensures reads_nothing { IfErr result (λ stop. stop ≢ ServeStop.ReadFault) }
{
    out.clear();
    match server.reply(&backlog.rest()[..size], out) {
        Ok(()) => {}
        Err(Refusal::Refused) => return Err(ServeStop::BadStream { at: backlog.at() }),
        Err(Refusal::Full) => return Err(ServeStop::Full),
        Err(Refusal::NoMemory) => return Err(ServeStop::NoMemory),
    }
    match write_all(sink, out) {
        Ok(()) => {
            backlog.take(size);
            Ok(())
        }
        Err(_fault) => Err(ServeStop::WriteFault),
    }
}

/// How many bytes a request may have that begins behind those that were taken.
fn room_in(backlog: &Backlog) -> u64
    requires { backlog.now.at ≤ stream_limit }
    ensures { result ≡ room_at backlog.now.at }
{
    STREAM_LIMIT - backlog.at()
}

/// Each whole request that has come is replied to, and taken.
fn reply_to_all<V: Server, K: Sink>(
    server: &mut V,
    backlog: &mut Backlog,
    out: &mut Vec<u8>,
    sink: &mut K,
) -> Result<(), ServeStop>
    requires within { backlog.old.at ≤ stream_limit }
    requires few { backlog.old.at + length backlog.old.rest ≤ read_limit }
    ensures ok { OnOk result ((left : Option (List ℕ)) → Serves V.asks V.replies
        (moment server.old backlog.old left (K.held sink.old))
        (moment server.new backlog.new left (K.held sink.new))) }
    ensures replied { OnOk result ((left : Option (List ℕ)) → HasReplied V.asks
        (moment server.new backlog.new left (K.held sink.new))) }
    ensures counted { OnOk result (backlog.new.at + length backlog.new.rest
        ≡ backlog.old.at + length backlog.old.rest) }
    ensures within { OnOk result (backlog.new.at ≤ stream_limit) }
    ensures stopped { IfErr result (λ stop. (left : Option (List ℕ)) → Stopped V.asks V.replies
        V.refuses V.is_full V.leaves (moment server.old backlog.old left (K.held sink.old)) stop server.new
        left (K.held sink.new)) }
    ensures writes { CountsWrites K.last_count result (K.faults sink.old) (K.faults sink.new) }
    ensures reads_nothing { IfErr result (λ stop. stop ≢ ServeStop.ReadFault) }
{
    'requests: loop {
        match server.front(backlog.rest(), room_in(backlog)) {
            Front::More => return Ok(()),
            Front::Bad => return Err(ServeStop::BadStream { at: backlog.at() }),
            Front::Whole(size) => match reply_to_next(server, backlog, size, out, sink) {
                Ok(()) => {}
                Err(stop) => return Err(stop),
            },
        }
    }
}

/// One read, put behind what has come. No more is asked for than one byte past the limit.
fn read_piece<S: Source>(
    source: &mut S,
    backlog: &mut Backlog,
    chunk: &mut [u8],
) -> Result<usize, ReadStop>
    requires chunk { 0 < length chunk.old }
    requires within { backlog.old.at + length backlog.old.rest ≤ stream_limit }
    ensures came { OnOk result (Comes backlog.old backlog.new
        (S.left source.old) (S.left source.new)) }
    ensures count { IfOk result (λ n. backlog.old.at + length backlog.old.rest + n
        ≡ backlog.new.at + length backlog.new.rest) }
    ensures few { OnOk result (backlog.new.at + length backlog.new.rest ≤ read_limit) }
    ensures at { OnOk result (backlog.new.at ≡ backlog.old.at) }
    ensures end { IfOk result (λ n. n ≡ 0
        → IsAtEnd (S.left source.new) × (backlog.new ≡ backlog.old)) }
    ensures counts_nothing { OnOk result (S.faults source.new ≡ S.faults source.old) }
    ensures fault { IfErr result (λ stop. stop ≡ ReadStop.ReadFault
        → Keeps (S.left source.old) (S.left source.new)
        × HasFaulted S.last_count (S.faults source.old) (S.faults source.new)) }
    ensures refused { IfErr result (λ stop. stop ≡ ReadStop.NoMemory
        → (piece : List ℕ) × Consumes (S.left source.old) (S.left source.new) piece
        × (backlog.old.at + length backlog.old.rest + length piece ≤ read_limit)
        × (S.faults source.new ≡ S.faults source.old)) }
    ensures faultless { S.is_faultless source.old → S.is_faultless source.new
        × IfErr result (λ stop. stop ≢ ReadStop.ReadFault) }
{
    let most = READ_MOST - backlog.at() - backlog.rest().len() as u64;
    let asked = most.min(chunk.len() as u64) as usize;
    match source.read(&mut chunk[..asked]) {
        ReadAnswer::Got(count) => match backlog.add(&chunk[..count]) {
            Ok(()) => Ok(count),
            Err(NoMemory) => Err(ReadStop::NoMemory),
        },
        ReadAnswer::Failed => Err(ReadStop::ReadFault),
    }
}

/// Serves the requests that the source gives, in whatever pieces: each whole one is replied to
/// before the next read.
pub fn serve_stream<V: Server, S: Source, K: Sink>(
    alloc: Global,
    server: &mut V,
    source: &mut S,
    sink: &mut K,
) -> Result<(), ServeStop>
    ensures done { OnOk result (Done V.asks V.replies
        (first server.old (S.left source.old) (K.held sink.old))
        server.new (S.left source.new) (K.held sink.new)) }
    ensures stopped { IfErr result (λ stop. Stopped V.asks V.replies V.refuses V.is_full V.leaves
        (first server.old (S.left source.old) (K.held sink.old))
        stop server.new (S.left source.new) (K.held sink.new)) }
    // Where the source told its bytes and these ended the session, the answers are those to them,
    // which are one list.
    ensures answers { IfSome (S.left source.old) (λ bytes. EndsItself result
        → Answered V.asks V.replies V.refuses server.old bytes result
        (K.held sink.old) (K.held sink.new)) }
    ensures reads { CountsReads S.last_count result (S.faults source.old) (S.faults source.new) }
    ensures writes { CountsWrites K.last_count result (K.faults sink.old) (K.faults sink.new) }
    ensures faultless { S.is_faultless source.old → S.is_faultless source.new
        × IfErr result (λ stop. stop ≢ ServeStop.ReadFault) }
{
    let mut backlog = Backlog::new(alloc);
    let mut out = Vec::new(alloc);
    let mut chunk = [0; PIECE];
    'pieces: loop {
        match read_piece(source, &mut backlog, &mut chunk) {
            Ok(0) => {
                if backlog.rest().is_empty() {
                    return Ok(());
                }
                return Err(ServeStop::Torn { at: backlog.at() });
            }
            Ok(_count) => {}
            Err(ReadStop::ReadFault) => return Err(ServeStop::ReadFault),
            Err(ReadStop::NoMemory) => return Err(ServeStop::NoMemory),
        }
        match reply_to_all(server, &mut backlog, &mut out, sink) {
            Ok(()) => {}
            Err(stop) => return Err(stop),
        }
    }
}
