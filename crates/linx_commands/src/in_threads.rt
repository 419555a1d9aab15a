//! What takes threads: a run with a thread for each actor and each link, and a work with what is
//! read. What doesn't is `alone`'s.

ghost use Rattle.std.specs.Prelude.{◌≡◌, false, IfOk, IfSome, IfNone, None, map, option_map, string_bytes};
ghost use Rattle.journal_text.specs.Text.{text_of};
ghost use Rattle.work_gen.specs.Generated.{generated};
ghost use Rattle.command_words.specs.Requests.{file_of, journal_of, request_of};
ghost use Rattle.linx_commands.specs.Statuses.{IsUsageOrRefused};
ghost use Rattle.linx_commands.specs.Opened.{IsReadOfFile};
ghost use Rattle.linx_commands.specs.Streams.{Reads, ReadsUpTo, Writes};
ghost use Rattle.linx_commands.specs.Runs.{Completes, IsCaused, IsEmptyLog, IsLegalSomehow};
ghost use Rattle.linx_commands.specs.Runs.{IsOutcomeOf, IsRan, parts_of, unordered};
ghost use Rattle.linx_commands.specs.Commands.{IsCausedUnder, CompletesUnder, ReadsUnder};
ghost use Rattle.linx_commands.specs.Commands.{written_under};
ghost use Rattle.linx_commands.specs.Headline.{HeadlineUnder};
ghost use Rattle.linx_commands.specs.Programs.{IfEcho, IfPlay, IfServe, IfShow, IsPlayedFrom};
ghost use Rattle.linx_commands.specs.Programs.{IsPlayedOfFile, IsShown, ReadsFile, asked_in};
ghost use Rattle.linx_commands.specs.Keeping.{IsGatewayFrom};
ghost use Rattle.linx_commands.specs.Sessions.{IsGatewayOf, IsSession};
ghost use Rattle.linx_commands.specs.Works.{IfWork, IsWorkedFrom, asks_progress, most_of};

use crate::outcome::{Outcome, Status};
use crate::serving::{InThreads, Left, alone, conclude, read_script, unstarted};
use crate::works::work_from;
use command_words::{Asked, file_named};
use linx_base::NoMemory;
use linx_files::NewFile;
use linx_outside::{Files, Gate, Sink, Source};
use order_lines::Ordered;
use run_progress::Progress;
use script_lang::Script;
use std::alloc::Global;
use std::sync::Wait;
use std::thread::Threads;
use workers::Ran;

/// A script of which no maker comes first.
fn unordered(alloc: Global, script: Script) -> Ordered
    ensures { parts_of result ≡ unordered script }
{
    Ordered {
        script,
        front: Vec::new(alloc),
    }
}

/// Plays a script with a thread for each actor and each link. Whose turns come first means nothing
/// here.
fn play_in_threads<R: Threads + Wait + Sync, G: Gate + Sync>(
    rt: &R,
    alloc: Global,
    ordered: Ordered,
    gate: &G,
) -> Result<Ran, NoMemory>
    ensures { IfOk result (IsRan Asked.Run (parts_of ordered)) }
{
    Ok(workers::run(rt, alloc, ordered.script, gate)?.ran)
}

/// Reads a script, runs it with a thread for each actor and each link, and writes the text of the
/// whole run.
fn threaded<R: Threads + Wait + Sync, G: Gate + Sync, S: Source, K: Sink>(
    rt: &R,
    alloc: Global,
    script: &mut S,
    out: &mut K,
    gate: &G,
) -> Outcome
    ensures cause { IsCaused Asked.Run result.status (S.left script.old) result.journal.log }
    ensures legal { IsLegalSomehow result.journal.log.steps }
    ensures complete { IfSome (S.left script.old) (λ told.
        Completes told result.status result.journal.log) }
    ensures source { Reads S.left S.faults S.last_count S.is_faultless script.old script.new
        result.status }
    ensures sink { Writes K.held K.faults K.last_count K.can_take out.old out.new
        result.status (text_of result.journal.log) }
{
    match read_script(alloc, script) {
        Ok(ordered) => {
            let played = play_in_threads(rt, alloc, ordered, gate);
            conclude(alloc, Asked::Run, played, out)
        }
        Err(status) => unstarted(alloc, status),
    }
}

/// Runs the generated script of a number with a thread for each actor and each link, and writes the
/// summary of the whole run.
fn generate<R: Threads + Wait + Sync, G: Gate + Sync, K: Sink>(
    rt: &R,
    alloc: Global,
    number: u32,
    out: &mut K,
    gate: &G,
) -> Outcome
    ensures cause { IsOutcomeOf (Asked.Gen number) result.status (unordered (generated number))
        result.journal.log }
    ensures legal { IsLegalSomehow result.journal.log.steps }
    ensures sink { Writes K.held K.faults K.last_count K.can_take out.old out.new
        result.status (written_under (Asked.Gen number) result.journal.log) }
{
    match work_gen::script(alloc, number) {
        Ok(script) => {
            let played = play_in_threads(rt, alloc, unordered(alloc, script), gate);
            conclude(alloc, Asked::Gen(number), played, out)
        }
        Err(NoMemory) => unstarted(alloc, Status::NoMemory),
    }
}

/// A run in threads.
fn serve<R: Threads + Wait + Sync, G: Gate + Sync, S: Source, K: Sink>(
    rt: &R,
    alloc: Global,
    threads: InThreads,
    script: &mut S,
    out: &mut K,
    gate: &G,
) -> Outcome
    ensures cause { IsCausedUnder (asked_in threads) result.status (S.left script.old) result.journal.log }
    ensures legal { IsLegalSomehow result.journal.log.steps }
    ensures headline { HeadlineUnder (asked_in threads) (S.left script.old) result.journal.log }
    ensures complete { CompletesUnder (asked_in threads) (S.left script.old) result.status
        result.journal.log }
    ensures source { ReadsUnder (asked_in threads) S.left S.faults S.last_count S.is_faultless
        script.old script.new result.status }
    ensures sink { Writes K.held K.faults K.last_count K.can_take out.old out.new
        result.status (written_under (asked_in threads) result.journal.log) }
{
    match threads {
        InThreads::Run => threaded(rt, alloc, script, out, gate),
        InThreads::Gen(number) => generate(rt, alloc, number, out, gate),
    }
}

/// A run in threads, with the script of a file.
fn serve_file<R: Threads + Wait + Sync, G: Gate + Sync, F: Files, K: Sink>(
    rt: &R,
    alloc: Global,
    threads: InThreads,
    files: &F,
    name: &str,
    out: &mut K,
    gate: &G,
) -> Outcome
    ensures played { IsPlayedOfFile (asked_in threads) (F.told files.now name.now)
        (F.refuses files.now name.now) (out.new ≡ out.old)
        (ReadsFile F.File.left F.File.faults F.File.last_count F.File.is_faultless
        (asked_in threads) (F.told files.now name.now) result.status)
        (λ written. Writes K.held K.faults K.last_count K.can_take out.old out.new
        result.status written)
        result.status result.journal.log }
    ensures legal { IsLegalSomehow result.journal.log.steps }
{
    match files.open(name) {
        Ok(mut file) => serve(rt, alloc, threads, &mut file, out, gate),
        Err(why) => unstarted(alloc, Status::Unopened(why)),
    }
}

/// A run in threads, with the script of a file, or of standard input where none is named.
fn play<R: Threads + Wait + Sync, G: Gate + Sync, F: Files, S: Source, K: Sink>(
    rt: &R,
    alloc: Global,
    threads: InThreads,
    file: Option<&str>,
    files: &F,
    script: &mut S,
    out: &mut K,
    gate: &G,
) -> Outcome
    ensures played { IsPlayedFrom (asked_in threads) (option_map (λ name. name.now) file.entry)
        (S.left script.old) (script.new ≡ script.old)
        (ReadsUnder (asked_in threads) S.left S.faults S.last_count S.is_faultless script.old
        script.new result.status)
        (F.told files.now) (F.refuses files.now) (out.new ≡ out.old)
        (λ name. ReadsFile F.File.left F.File.faults F.File.last_count F.File.is_faultless
        (asked_in threads) (F.told files.now name) result.status)
        (λ written. Writes K.held K.faults K.last_count K.can_take out.old out.new
        result.status written)
        result.status result.journal.log }
    ensures legal { IsLegalSomehow result.journal.log.steps }
{
    match file {
        Some(name) => serve_file(rt, alloc, threads, files, name, out, gate),
        None => serve(rt, alloc, threads, script, out, gate),
    }
}

/// Does what the words of the command line ask for.
pub fn run<
    R: Threads + Wait + Sync,
    G: Gate + Sync,
    F: Files,
    N: NewFile,
    S: Source,
    K: Sink,
    P: Progress,
>(
    rt: &R,
    alloc: Global,
    words: &[String],
    files: &F,
    new_file: &mut N,
    script: &mut S,
    out: &mut K,
    progress: &mut P,
    gate: &G,
) -> Outcome
    // Of words that ask for nothing.
    ensures other_words { IfNone (request_of words.now)
        (IsUsageOrRefused (map string_bytes words.now) result.status
        × IsEmptyLog result.journal.log) }
    ensures untouched { IfNone (request_of words.now)
        ((script.new ≡ script.old) × (out.new ≡ out.old)) }

    // Of a page of the help.
    ensures shown { IfShow (request_of words.now) (λ page. IsShown page (script.new ≡ script.old)
        (λ written. Writes K.held K.faults K.last_count K.can_take out.old out.new
        result.status written)
        result.status result.journal.log) }

    // Of the run that is asked for, of what it reads and of what it writes.
    ensures played { IfPlay (request_of words.now) (λ asked.
        IsPlayedFrom asked (file_of words.now) (S.left script.old) (script.new ≡ script.old)
        (ReadsUnder asked S.left S.faults S.last_count S.is_faultless script.old script.new
        result.status)
        (F.told files.now) (F.refuses files.now) (out.new ≡ out.old)
        (λ name. ReadsFile F.File.left F.File.faults F.File.last_count F.File.is_faultless asked
        (F.told files.now name) result.status)
        (λ written. Writes K.held K.faults K.last_count K.can_take out.old out.new
        result.status written)
        result.status result.journal.log) }

    // Of a work with what is read.
    ensures worked { IfWork (request_of words.now) (λ work.
        IsWorkedFrom work (map string_bytes words.now) (file_of words.now) (S.left script.old)
        (script.new ≡ script.old)
        (ReadsUpTo (most_of work) S.left S.faults S.last_count S.is_faultless script.old script.new
        result.status)
        (F.told files.now) (F.refuses files.now) (out.new ≡ out.old)
        (λ name. IsReadOfFile F.File.left (F.told files.now name) (λ opened rest.
        ReadsUpTo (most_of work) F.File.left F.File.faults F.File.last_count F.File.is_faultless
        opened rest result.status))
        (λ written. Writes K.held K.faults K.last_count K.can_take out.old out.new
        result.status written)
        result.status result.journal.log) }

    // How far many runs have come is told nowhere but where the words ask for it.
    ensures untold { asks_progress (request_of words.now) ≡ false → progress.new ≡ progress.old }

    // Of an echo over the streams.
    ensures echoed { IfEcho (request_of words.now) (IsSession S.left S.faults S.last_count
        S.is_faultless K.held K.faults K.last_count script.old script.new out.old out.new
        result.status result.journal.log) }

    // Of a gateway over the streams.
    ensures served { IfServe (request_of words.now) (λ clients. IsGatewayFrom (journal_of words.now)
        (IsGatewayOf clients S.left S.faults S.last_count S.is_faultless K.held K.faults
        K.last_count script.old script.new out.old out.new)
        ((script.new ≡ script.old) × (out.new ≡ out.old)) (N.refuses new_file.old) N.held N.faults
        N.last_count N.at_first new_file.old new_file.new result.status result.journal.log) }
    ensures unmade { journal_of words.now ≡ None → new_file.new ≡ new_file.old }
    ensures legal { IsLegalSomehow result.journal.log.steps }
{
    match alone(alloc, words, files, new_file, script, out) {
        Ok(outcome) => outcome,
        Err(Left::Work(work)) => work_from(
            rt,
            alloc,
            work,
            words,
            file_named(words),
            files,
            script,
            out,
            progress,
        ),
        Err(Left::Play(threads)) => play(
            rt,
            alloc,
            threads,
            file_named(words),
            files,
            script,
            out,
            gate,
        ),
    }
}
