//! What is done with what is read: a source is read to its end, and a text is written.

ghost use Rattle.std.specs.Prelude.{◌≡◌, ◌≤◌, ◌<◌, true, false, IfErr, IfOk, IfSome, OnOk, length, map};
ghost use Rattle.std.specs.Prelude.{option_map, string_bytes, take};
ghost use Rattle.std.specs.Io.KnownBytes.{IsAtEnd};
ghost use Rattle.command_words.specs.Requests.{tells_progress, wanted_of};
ghost use Rattle.linx_commands.specs.Opened.{IsReadOfFile};
ghost use Rattle.linx_commands.specs.Runs.{IsLegalSomehow};
ghost use Rattle.linx_commands.specs.Streams.{IsScanned, ReadsUpTo, TakesAtMost, Writes};
ghost use Rattle.linx_commands.specs.Works.{Ends, IsEndOf, IsReadStop, IsWorked, IsWorkedFrom};
ghost use Rattle.linx_commands.specs.Works.{IsWorkedOfFile, most_of};

use crate::charts::chart;
use crate::checking::check;
use crate::outcome::{Outcome, Status};
use crate::printed::order;
use crate::replay::replay;
use crate::search::find;
use crate::seeds::report;
use crate::serving::{READ_MOST, status_of_read, unstarted};
use command_words::Work;
use linx_outside::{Files, Sink, Source, read_up_to};
use run_progress::Progress;
use std::alloc::Global;
use std::thread::Threads;

/// One byte more than a printed text may have.
const TEXT_MOST: usize = 268_435_457;

/// The most bytes that are read.
fn most_of(work: Work) -> usize
    ensures { result ≡ most_of work }
{
    match work {
        Work::Find(_) | Work::Seeds(_) => READ_MOST,
        Work::Order | Work::Replay | Work::Check | Work::Chart(_) => TEXT_MOST,
    }
}

/// Reads the bytes of a source, so many at most.
#[tactic(auto, using(crate::proofs::Scanning::scanned))]
fn read_bytes<S: Source>(alloc: Global, source: &mut S, most: usize) -> Result<Vec<u8>, Status>
    ensures told { IfOk result (λ bytes.
        IfSome (S.left source.old) (λ told. take most told ≡ bytes.items)) }
    ensures whole { IfOk result (λ bytes.
        length bytes.items < most → IsAtEnd (S.left source.new)) }
    ensures scanned { OnOk result (IsScanned most (S.left source.old) (S.left source.new)) }
    ensures taken { TakesAtMost most (S.left source.old) (S.left source.new) }
    ensures counts_nothing { OnOk result (S.faults source.new ≡ S.faults source.old) }
    ensures faultless { S.is_faultless source.old → S.is_faultless source.new }
    ensures unread { IfErr result (λ status. IsReadStop status) }
    ensures source { IfErr result (λ status.
        ReadsUpTo most S.left S.faults S.last_count S.is_faultless source.old source.new status) }
{
    let mut bytes = Vec::new(alloc);
    if let Err(stop) = read_up_to(source, &mut bytes, most) {
        return Err(status_of_read(stop));
    }
    bytes.shrink_to_fit();
    Ok(bytes)
}

/// Does what is asked for with these bytes.
fn look<R: Threads + Sync, K: Sink, P: Progress>(
    rt: &R,
    alloc: Global,
    work: Work,
    words: &[String],
    bytes: &[u8],
    out: &mut K,
    progress: &mut P,
) -> Outcome
    ensures looked { Ends (IsEndOf work (map string_bytes words.now) bytes.now)
        (λ written. Writes K.held K.faults K.last_count K.can_take out.old out.new
        result.status written)
        result.status result.journal.log }
    ensures untold { tells_progress work ≡ false → progress.new ≡ progress.old }
{
    match work {
        Work::Find(search) => {
            find(
                rt,
                alloc,
                search,
                search.wanted(words),
                bytes,
                out,
                progress,
            )
        }
        Work::Seeds(asked) => report(rt, alloc, asked, bytes, out, progress),
        Work::Order => order(alloc, bytes, out),
        Work::Replay => replay(alloc, bytes, out),
        Work::Check => check(alloc, bytes, out),
        Work::Chart(drawn) => chart(alloc, drawn, drawn.makers(words), bytes, out),
    }
}

/// Does what is asked for with what a source holds.
fn work_on<R: Threads + Sync, S: Source, K: Sink, P: Progress>(
    rt: &R,
    alloc: Global,
    work: Work,
    words: &[String],
    source: &mut S,
    out: &mut K,
    progress: &mut P,
) -> Outcome
    ensures worked { IsWorked work (map string_bytes words.now) (S.left source.old)
        (ReadsUpTo (most_of work) S.left S.faults S.last_count S.is_faultless source.old source.new
        result.status)
        (λ written. Writes K.held K.faults K.last_count K.can_take out.old out.new
        result.status written)
        result.status result.journal.log }
    ensures legal { IsLegalSomehow result.journal.log.steps }
    ensures untold { tells_progress work ≡ false → progress.new ≡ progress.old }
{
    match read_bytes(alloc, source, most_of(work)) {
        Ok(bytes) => look(rt, alloc, work, words, bytes.as_slice(), out, progress),
        Err(status) => unstarted(alloc, status),
    }
}

/// Does what is asked for with what a file holds.
fn work_of_file<R: Threads + Sync, F: Files, K: Sink, P: Progress>(
    rt: &R,
    alloc: Global,
    work: Work,
    words: &[String],
    files: &F,
    name: &str,
    out: &mut K,
    progress: &mut P,
) -> Outcome
    ensures worked { IsWorkedOfFile work (map string_bytes words.now) (F.told files.now name.now)
        (F.refuses files.now name.now) (out.new ≡ out.old)
        (IsReadOfFile F.File.left (F.told files.now name.now) (λ opened rest.
        ReadsUpTo (most_of work) F.File.left F.File.faults F.File.last_count F.File.is_faultless
        opened rest result.status))
        (λ written. Writes K.held K.faults K.last_count K.can_take out.old out.new
        result.status written)
        result.status result.journal.log }
    ensures legal { IsLegalSomehow result.journal.log.steps }
    ensures untold { tells_progress work ≡ false → progress.new ≡ progress.old }
{
    match files.open(name) {
        Ok(mut file) => work_on(rt, alloc, work, words, &mut file, out, progress),
        Err(why) => unstarted(alloc, Status::Unopened(why)),
    }
}

/// Does what is asked for with what a file holds, or standard input where none is named.
pub(crate) fn work_from<R: Threads + Sync, F: Files, S: Source, K: Sink, P: Progress>(
    rt: &R,
    alloc: Global,
    work: Work,
    words: &[String],
    file: Option<&str>,
    files: &F,
    source: &mut S,
    out: &mut K,
    progress: &mut P,
) -> Outcome
    ensures worked { IsWorkedFrom work (map string_bytes words.now)
        (option_map (λ name. name.now) file.entry) (S.left source.old) (source.new ≡ source.old)
        (ReadsUpTo (most_of work) S.left S.faults S.last_count S.is_faultless source.old source.new
        result.status)
        (F.told files.now) (F.refuses files.now) (out.new ≡ out.old)
        (λ name. IsReadOfFile F.File.left (F.told files.now name) (λ opened rest.
        ReadsUpTo (most_of work) F.File.left F.File.faults F.File.last_count F.File.is_faultless
        opened rest result.status))
        (λ written. Writes K.held K.faults K.last_count K.can_take out.old out.new
        result.status written)
        result.status result.journal.log }
    ensures legal { IsLegalSomehow result.journal.log.steps }
    ensures untold { tells_progress work ≡ false → progress.new ≡ progress.old }
{
    match file {
        Some(name) => work_of_file(rt, alloc, work, words, files, name, out, progress),
        None => work_on(rt, alloc, work, words, source, out, progress),
    }
}
