//! The whole program, over what a process is given: its command line, files and streams.

ghost use Rattle.std.specs.Prelude.{◌≡◌, false};
ghost use Rattle.command_words.specs.Requests.{file_by, journal_by, request_by};
ghost use Rattle.linx_commands.specs.Commands.{ReadsUnder};
ghost use Rattle.linx_commands.specs.Programs.{IsPlayedFrom, IsServed, IsToldUnread, ReadsFile};
ghost use Rattle.linx_commands.specs.Programs.{texts_of};
ghost use Rattle.linx_commands.specs.Keeping.{IsGatewayFrom};
ghost use Rattle.linx_commands.specs.Sessions.{IsGatewayOf, IsSession};
ghost use Rattle.linx_commands.specs.Opened.{IsReadOfFile};
ghost use Rattle.linx_commands.specs.Streams.{ReadsUpTo, Writes, WritesLine};
ghost use Rattle.linx_commands.specs.Works.{IsWorkedFrom, asks_progress, most_of};
ghost use Rattle.linx_commands.specs.declared.outcome.Status.TheVariants.{Done};

use crate::in_threads::run;
use crate::serving::unstarted;
use crate::told::{Told, tell};
use crate::words::Words;
use linx_files::NewFile;
use linx_outside::{Files, OpenGate, Sink, Source};
use run_progress::Progress;
use std::alloc::Global;
use std::sync::Wait;
use std::thread::Threads;

/// Does what a command line asks for, and tells how it ended. It is all that a program does whose
/// result is a `Told`.
pub fn program<
    R: Threads + Wait + Sync,
    F: Files,
    N: NewFile,
    S: Source,
    K: Sink,
    L: Sink,
    P: Progress,
>(
    rt: &R,
    alloc: Global,
    words: Words,
    files: &F,
    new_file: &mut N,
    script: &mut S,
    text: &mut K,
    errors: &mut L,
    progress: &mut P,
) -> Told
    // Of what the words ask for, what it reads and writes, and the line that says how it ended.
    ensures served { IsServed (texts_of words) (script.new ≡ script.old) (text.new ≡ text.old)
        (new_file.new ≡ new_file.old)
        (λ written. Writes K.held K.faults K.last_count K.can_take text.old text.new result written)
        (λ asked log. IsPlayedFrom asked (file_by (texts_of words))
        (S.left script.old) (script.new ≡ script.old)
        (ReadsUnder asked S.left S.faults S.last_count S.is_faultless script.old script.new result)
        (F.told files.now) (F.refuses files.now) (text.new ≡ text.old)
        (λ name. ReadsFile F.File.left F.File.faults F.File.last_count F.File.is_faultless asked
        (F.told files.now name) result)
        (λ written. Writes K.held K.faults K.last_count K.can_take text.old text.new result written)
        result log)
        (λ work log. IsWorkedFrom work (texts_of words) (file_by (texts_of words))
        (S.left script.old) (script.new ≡ script.old)
        (ReadsUpTo (most_of work) S.left S.faults S.last_count S.is_faultless script.old script.new
        result)
        (F.told files.now) (F.refuses files.now) (text.new ≡ text.old)
        (λ name. IsReadOfFile F.File.left (F.told files.now name) (λ opened rest.
        ReadsUpTo (most_of work) F.File.left F.File.faults F.File.last_count F.File.is_faultless
        opened rest result))
        (λ written. Writes K.held K.faults K.last_count K.can_take text.old text.new result written)
        result log)
        (λ log. IsSession S.left S.faults S.last_count S.is_faultless K.held K.faults K.last_count
        script.old script.new text.old text.new result log)
        (λ clients log. IsGatewayFrom (journal_by (texts_of words))
        (IsGatewayOf clients S.left S.faults S.last_count S.is_faultless K.held K.faults
        K.last_count script.old script.new text.old text.new)
        ((script.new ≡ script.old) × (text.new ≡ text.old)) (N.refuses new_file.old) N.held
        N.faults N.last_count N.at_first new_file.old new_file.new result log)
        (λ line. WritesLine L.held L.faults L.last_count L.can_take errors.old errors.new line)
        result }

    // How far many runs have come is told nowhere but where the words ask for it.
    ensures untold { asks_progress (request_by (texts_of words)) ≡ false
        → progress.new ≡ progress.old }

    // Of words that can't be had.
    ensures unread { IsToldUnread words result }

    // Of a run that is done.
    ensures silent { result ≡ Done → errors.new ≡ errors.old }
{
    match words {
        Words::Read(words) => {
            let outcome = run(
                rt, alloc, &words, files, new_file, script, text, progress, &OpenGate,
            );
            tell(&words, &outcome, errors)
        }
        Words::Unread(why) => tell(&[], &unstarted(alloc, why.status()), errors),
    }
}
