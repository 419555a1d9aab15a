//! `find`: a search of the runs of some seeds.

ghost use Rattle.std.specs.Prelude.{◌≡◌, true, false, IfErr, IfOk, ℕ, List, map, string_bytes};
ghost use Rattle.command_words.specs.declared.search.Search.{Search as Searched};
ghost use Rattle.seed_search.specs.Searches.{IsAnswer, IsStop, found_text};
ghost use Rattle.linx_commands.specs.Causes.{is_of_writing};
ghost use Rattle.linx_commands.specs.Runs.{IsLegalSomehow};
ghost use Rattle.linx_commands.specs.Searches.{IsHaltedBy, IsSearchEnd};
ghost use Rattle.linx_commands.specs.Statuses.{is_silent};
ghost use Rattle.linx_commands.specs.Streams.{Writes};
ghost use Rattle.linx_commands.specs.Works.{Ends};

use crate::outcome::{Outcome, Status};
use crate::serving::{status_of_stop, unstarted, write_text};
use command_words::Search;
use linx_base::NoMemory;
use linx_outside::Sink;
use run_progress::{Progress, Untold};
use seed_runs::RunStop;
use seed_search::Found;
use std::alloc::Global;
use std::thread::Threads;

/// What is written of a seed that was found goes to the sink.
fn write_found<K: Sink>(alloc: Global, found: &Found, out: &mut K) -> Status
    ensures kinds { is_of_writing result ≡ true }
    ensures sink { Writes K.held K.faults K.last_count K.can_take out.old out.new
        result (found_text found.now.seed found.now.line.items) }
{
    match found.text(alloc) {
        Ok(text) => write_text(text.as_slice(), out),
        Err(NoMemory) => Status::NoMemory,
    }
}

/// What a search of whole runs found goes to the sink, if it found something.
fn conclude<K: Sink>(alloc: Global, found: Option<Found>, out: &mut K) -> Outcome
    ensures { (search : Searched) → (wanted : List (List ℕ)) → (bytes : List ℕ)
        → IsAnswer bytes search.first search.more search.sought wanted found
        → Ends (IsSearchEnd search wanted bytes) (λ written. Writes K.held K.faults K.last_count
        K.can_take out.old out.new result.status written) result.status result.journal.log }
{
    match found {
        Some(found) => unstarted(alloc, write_found(alloc, &found, out)),
        None => unstarted(alloc, Status::FoundNone),
    }
}

/// How a search ends that came to a run which isn't whole. It hands back the journal of that run.
fn halt(alloc: Global, stop: RunStop) -> Outcome
    ensures ended { (search : Searched) → (wanted : List (List ℕ)) → (bytes : List ℕ)
        → IsStop bytes search.first search.more search.sought wanted stop
        → IsHaltedBy search wanted bytes result.status result.journal.log }
    ensures legal { (search : Searched) → (wanted : List (List ℕ)) → (bytes : List ℕ)
        → IsStop bytes search.first search.more search.sought wanted stop
        → IsLegalSomehow result.journal.log.steps }
    ensures silent { is_silent result.status ≡ true }
{
    match stop {
        RunStop::Bad { line, fault } => unstarted(alloc, Status::Script { line, fault }),
        RunStop::Stopped { cause, journal } => Outcome {
            status: status_of_stop(cause),
            journal,
        },
        RunStop::NoMemory => unstarted(alloc, Status::NoMemory),
    }
}

/// What the runs of a search show, as many at a time as there are processors. How far they have come is
/// told where the search asks for it.
fn searched<R: Threads + Sync, P: Progress>(
    rt: &R,
    alloc: Global,
    search: Search,
    wanted: &[String],
    bytes: &[u8],
    progress: &mut P,
) -> Result<Option<Found>, RunStop>
    ensures answer { IfOk result (λ found. IsAnswer bytes.now search.first search.more search.sought
        (map string_bytes wanted.now) found) }
    ensures stopped { IfErr result (λ stop. IsStop bytes.now search.first search.more search.sought
        (map string_bytes wanted.now) stop) }
    ensures untold { search.progress ≡ false → progress.new ≡ progress.old }
{
    let Search {
        first,
        more,
        sought,
        progress: tells,
        ..
    } = search;
    if tells {
        seed_threads::find(rt, alloc, bytes, first, more, sought, wanted, progress)
    } else {
        seed_threads::find(rt, alloc, bytes, first, more, sought, wanted, &mut Untold)
    }
}

/// What a search finds in the runs of the script that bytes spell goes to the sink.
pub(crate) fn find<R: Threads + Sync, K: Sink, P: Progress>(
    rt: &R,
    alloc: Global,
    search: Search,
    wanted: &[String],
    bytes: &[u8],
    out: &mut K,
    progress: &mut P,
) -> Outcome
    ensures found { Ends (IsSearchEnd search (map string_bytes wanted.now) bytes.now)
        (λ written. Writes K.held K.faults K.last_count K.can_take out.old out.new
        result.status written)
        result.status result.journal.log }
    ensures untold { search.progress ≡ false → progress.new ≡ progress.old }
{
    match searched(rt, alloc, search, wanted, bytes, progress) {
        Ok(found) => conclude(alloc, found, out),
        Err(stop) => halt(alloc, stop),
    }
}
