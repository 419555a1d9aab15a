//! What is done without threads: a page of the help, a run in an order, and an echo or a gateway
//! over the streams. It returns where each read and each write does.

ghost use Rattle.std.specs.Prelude.{◌≡◌, true, Ok, IfOk, IfErr, OnOk, IfSome, IfNone, None, map};
ghost use Rattle.std.specs.Prelude.{option_map, string_bytes};
ghost use Rattle.std.specs.Io.KnownBytes.{IsAtEnd};
ghost use Rattle.journal_text.specs.Text.{text_of};
ghost use Rattle.order_lines.specs.Fronts.{OrderedParts, ordered_of};
ghost use Rattle.command_words.specs.Pages.{page_of};
ghost use Rattle.command_words.specs.Requests.{file_of, journal_of, request_of};
ghost use Rattle.linx_commands.specs.Statuses.{IsUsageOrRefused};
ghost use Rattle.linx_commands.specs.Streams.{Reads, Writes, TakesAtMost, read_most};
ghost use Rattle.linx_commands.specs.Runs.{Completes, IsCaused, IsEmptyLog, IsLegalSomehow};
ghost use Rattle.linx_commands.specs.Runs.{IsOutcomeOf, IsRan, IsRanBy, parts_of, unordered};
ghost use Rattle.linx_commands.specs.Commands.{ReadsUnder, written_under};
ghost use Rattle.linx_commands.specs.Headline.{HeadlineUnder};
ghost use Rattle.linx_commands.specs.Causes.{IsUnread, is_of_writing, read_status, script_status};
ghost use Rattle.linx_commands.specs.Causes.{stop_status, report_status};
ghost use Rattle.linx_commands.specs.Programs.{IfEcho, IfPlay, IfServe, IfShow, IsLeft};
ghost use Rattle.linx_commands.specs.Programs.{IsPlayedFrom, IsPlayedOfFile, IsShown, ReadsFile};
ghost use Rattle.linx_commands.specs.Keeping.{IsGatewayFrom};
ghost use Rattle.linx_commands.specs.Sessions.{IsGatewayOf, IsSession};
ghost use Rattle.linx_commands.specs.Works.{IfWork};

use crate::keeping::gateway_from;
use crate::outcome::{Outcome, Status};
use crate::session::echo;
use command_words::{Asked, Misuse, Page, Request, TurnOrder, Work, file_named, journal_named};
use fabric::StopCause;
use journal::Journal;
use linx_base::{NameList, Names, NoMemory};
use linx_files::NewFile;
use linx_outside::{Files, ReadStop, Sink, Source, WriteFault, read_up_to, write_all};
use order_lines::Ordered;
use order_rules::Rule;
use orders::rule_of_seed;
use report::{ReportError, write_report, write_summary};
use script_lang::{Script, ScriptError};
use stage::Stage;
use std::alloc::Global;
use workers::Ran;

/// One byte more than a script may have.
pub(crate) const READ_MOST: usize = 1_048_577;

/// A run that made no step, and why.
pub(crate) fn unstarted(alloc: Global, status: Status) -> Outcome
    ensures status { result.status ≡ status }
    ensures empty { IsEmptyLog result.journal.log }
    ensures legal { IsLegalSomehow result.journal.log.steps }
{
    let names = Names {
        nodes: NameList::new(alloc),
        links: NameList::new(alloc),
    };
    let journal = Journal::new(alloc, names);
    Outcome { status, journal }
}

/// The status of a read that stopped.
pub(crate) fn status_of_read(stop: ReadStop) -> Status
    ensures { result ≡ read_status stop }
{
    match stop {
        ReadStop::ReadFault => Status::ReadFault,
        ReadStop::NoMemory => Status::NoMemory,
    }
}

/// The status of bytes that spell no script.
pub(crate) fn status_of_script(error: ScriptError) -> Status
    ensures { result ≡ script_status error }
{
    match error {
        ScriptError::Bad { line, fault } => Status::Script { line, fault },
        ScriptError::NoMemory => Status::NoMemory,
    }
}

/// The status of a run that stopped.
pub(crate) fn status_of_stop(cause: StopCause) -> Status
    ensures { result ≡ stop_status cause }
{
    match cause {
        StopCause::JournalFull => Status::JournalFull,
        StopCause::NoMemory => Status::NoMemory,
    }
}

fn status_of_report(written: Result<(), ReportError>) -> Status
    ensures { result ≡ report_status written }
{
    match written {
        Ok(()) => Status::Done,
        Err(ReportError::WriteFault) => Status::WriteFault,
        Err(ReportError::NoMemory) => Status::NoMemory,
    }
}

/// What is asked for of a whole run goes to the sink: its text, or its summary.
fn write_run<K: Sink>(alloc: Global, asked: Asked, journal: &Journal, out: &mut K) -> Status
    ensures kinds { is_of_writing result ≡ true }
    ensures sink { Writes K.held K.faults K.last_count K.can_take out.old out.new
        result (written_under asked journal.now.log) }
{
    match asked {
        Asked::Run | Asked::InOrder(_) => status_of_report(write_report(alloc, journal, out)),
        Asked::Gen(_) => status_of_report(write_summary(alloc, journal, out)),
    }
}

/// Plays a script whose makers that come first take their turns, and behind them those whom a rule
/// names.
fn play_by(alloc: Global, ordered: Ordered, rule: Rule) -> Result<Ran, NoMemory>
    ensures { IfOk result (IsRanBy (record { left = ordered.front.items; rule = rule })
        ordered.script) }
{
    let Ordered { script, front } = ordered;
    let mut rule = rule;
    let mut stage = Stage::new(alloc, script)?;
    let stop = match orders::play_in_order(alloc, &mut stage, front.as_slice(), &mut rule) {
        Ok(()) => None,
        Err(cause) => Some(cause),
    };
    Ok(Ran { stage, stop })
}

/// Plays a script by rounds.
fn play_rounds(alloc: Global, script: Script) -> Result<Ran, NoMemory>
    ensures { IfOk result (IsRan (Asked.InOrder TurnOrder.Fixed) (unordered script)) }
{
    let mut stage = Stage::new(alloc, script)?;
    let stop = match stage.play() {
        Ok(()) => None,
        Err(cause) => Some(cause),
    };
    Ok(Ran { stage, stop })
}

/// Plays a script in the fixed order, behind the makers that come first.
fn play_fixed(alloc: Global, ordered: Ordered) -> Result<Ran, NoMemory>
    ensures { IfOk result (IsRan (Asked.InOrder TurnOrder.Fixed) (parts_of ordered)) }
{
    if ordered.front.is_empty() {
        // Nobody has to be asked whether it is ready: rounds are quicker.
        play_rounds(alloc, ordered.script)
    } else {
        play_by(alloc, ordered, Rule::Rounds(0))
    }
}

/// Plays a script in an order.
fn play_in_order(alloc: Global, order: TurnOrder, ordered: Ordered) -> Result<Ran, NoMemory>
    ensures { IfOk result (IsRan (Asked.InOrder order) (parts_of ordered)) }
{
    match order {
        TurnOrder::Fixed => play_fixed(alloc, ordered),
        TurnOrder::Seed(seed) => {
            let rule = rule_of_seed(&ordered.script, u64::from(seed));
            play_by(alloc, ordered, rule)
        }
    }
}

/// What is asked for of a run that came to its end goes to the sink.
pub(crate) fn conclude<K: Sink>(
    alloc: Global,
    asked: Asked,
    played: Result<Ran, NoMemory>,
    out: &mut K,
) -> Outcome
    ensures answer { (ordered : OrderedParts) → IfOk played (IsRan asked ordered)
        → IsOutcomeOf asked result.status ordered result.journal.log }
    ensures legal { IsLegalSomehow result.journal.log.steps }
    ensures sink { Writes K.held K.faults K.last_count K.can_take out.old out.new
        result.status (written_under asked result.journal.log) }
{
    let Ok(Ran { stage, stop }) = played else {
        return unstarted(alloc, Status::NoMemory);
    };
    let journal = stage.into_journal();
    match stop {
        None => Outcome {
            status: write_run(alloc, asked, &journal, out),
            journal,
        },
        Some(cause) => Outcome {
            status: status_of_stop(cause),
            journal,
        },
    }
}

/// Reads a source to its end, and gives the script that its bytes spell, with the makers whose turns
/// come first, or the status that says why there is none.
#[tactic(auto, using(crate::proofs::Scanning::scanned))]
pub(crate) fn read_script<S: Source>(alloc: Global, source: &mut S) -> Result<Ordered, Status>
    ensures spelled { IfOk result (λ ordered.
        IfSome (S.left source.old) (λ told. ordered_of told ≡ Ok (parts_of ordered))) }
    ensures whole { OnOk result (IsAtEnd (S.left source.new)) }
    ensures taken { TakesAtMost read_most (S.left source.old) (S.left source.new) }
    ensures counts_nothing { OnOk result (S.faults source.new ≡ S.faults source.old) }
    ensures faultless { S.is_faultless source.old → S.is_faultless source.new }

    ensures unread { IfErr result (λ status. IsUnread status (S.left source.old)) }
    ensures source { IfErr result (λ status.
        Reads S.left S.faults S.last_count S.is_faultless source.old source.new status) }
{
    let mut bytes = Vec::new(alloc);
    if let Err(stop) = read_up_to(source, &mut bytes, READ_MOST) {
        return Err(status_of_read(stop));
    }
    // A large buffer that is freed would let the C library copy what grows, up to that size.
    bytes.shrink_to_fit();
    match order_lines::read(alloc, bytes.as_slice()) {
        Ok(ordered) => Ok(ordered),
        Err(error) => Err(status_of_script(error)),
    }
}

/// Reads a script, runs it in an order, and writes the text of the whole run.
pub fn in_order<S: Source, K: Sink>(
    alloc: Global,
    order: TurnOrder,
    script: &mut S,
    out: &mut K,
) -> Outcome
    ensures cause { IsCaused (Asked.InOrder order) result.status (S.left script.old)
        result.journal.log }
    ensures legal { IsLegalSomehow result.journal.log.steps }
    ensures headline { HeadlineUnder (Asked.InOrder order) (S.left script.old) result.journal.log }
    ensures complete { IfSome (S.left script.old) (λ told.
        Completes told result.status result.journal.log) }
    ensures source { Reads S.left S.faults S.last_count S.is_faultless script.old script.new
        result.status }
    ensures sink { Writes K.held K.faults K.last_count K.can_take out.old out.new
        result.status (text_of result.journal.log) }
{
    match read_script(alloc, script) {
        Ok(ordered) => conclude(
            alloc,
            Asked::InOrder(order),
            play_in_order(alloc, order, ordered),
            out,
        ),
        Err(status) => unstarted(alloc, status),
    }
}

/// The run of a file's script in an order.
fn in_order_of_file<F: Files, K: Sink>(
    alloc: Global,
    order: TurnOrder,
    files: &F,
    name: &str,
    out: &mut K,
) -> Outcome
    ensures played { IsPlayedOfFile (Asked.InOrder order) (F.told files.now name.now)
        (F.refuses files.now name.now) (out.new ≡ out.old)
        (ReadsFile F.File.left F.File.faults F.File.last_count F.File.is_faultless
        (Asked.InOrder order) (F.told files.now name.now) result.status)
        (λ written. Writes K.held K.faults K.last_count K.can_take out.old out.new
        result.status written)
        result.status result.journal.log }
    ensures legal { IsLegalSomehow result.journal.log.steps }
{
    match files.open(name) {
        Ok(mut file) => in_order(alloc, order, &mut file, out),
        Err(why) => unstarted(alloc, Status::Unopened(why)),
    }
}

/// The run in an order of a file's script, or of that of standard input where none is named.
fn in_order_from<F: Files, S: Source, K: Sink>(
    alloc: Global,
    order: TurnOrder,
    file: Option<&str>,
    files: &F,
    script: &mut S,
    out: &mut K,
) -> Outcome
    ensures played { IsPlayedFrom (Asked.InOrder order) (option_map (λ name. name.now) file.entry)
        (S.left script.old) (script.new ≡ script.old)
        (ReadsUnder (Asked.InOrder order) S.left S.faults S.last_count S.is_faultless script.old script.new
        result.status)
        (F.told files.now) (F.refuses files.now) (out.new ≡ out.old)
        (λ name. ReadsFile F.File.left F.File.faults F.File.last_count F.File.is_faultless
        (Asked.InOrder order) (F.told files.now name) result.status)
        (λ written. Writes K.held K.faults K.last_count K.can_take out.old out.new
        result.status written)
        result.status result.journal.log }
    ensures legal { IsLegalSomehow result.journal.log.steps }
{
    match file {
        Some(name) => in_order_of_file(alloc, order, files, name, out),
        None => in_order(alloc, order, script, out),
    }
}

/// Writes a text.
pub(crate) fn write_text<K: Sink>(text: &[u8], out: &mut K) -> Status
    ensures kinds { is_of_writing result ≡ true }
    ensures sink { Writes K.held K.faults K.last_count K.can_take out.old out.new result text.now }
{
    match write_all(out, text) {
        Ok(()) => Status::Done,
        Err(WriteFault) => Status::WriteFault,
    }
}

/// Writes a page of the help.
fn show<K: Sink>(alloc: Global, page: Page, out: &mut K) -> Outcome
    ensures kinds { is_of_writing result.status ≡ true }
    ensures empty { IsEmptyLog result.journal.log }
    ensures legal { IsLegalSomehow result.journal.log.steps }
    ensures sink { Writes K.held K.faults K.last_count K.can_take out.old out.new
        result.status (page_of page) }
{
    match page.text(alloc) {
        Ok(text) => unstarted(alloc, write_text(text.as_slice(), out)),
        Err(NoMemory) => unstarted(alloc, Status::NoMemory),
    }
}

/// What is wrong with words that ask for nothing.
fn refuse(alloc: Global, words: &[String]) -> Outcome
    ensures usage { IsUsageOrRefused (map string_bytes words.now) result.status }
    ensures empty { IsEmptyLog result.journal.log }
    ensures legal { IsLegalSomehow result.journal.log.steps }
{
    match Misuse::of(alloc, words) {
        Ok(wrong) => unstarted(alloc, Status::Usage(wrong)),
        Err(NoMemory) => unstarted(alloc, Status::NoMemory),
    }
}

/// A run in threads that is asked for.
#[derive(Clone, Copy, Debug, PartialEq, Eq, Hash)]
pub enum InThreads {
    /// `run`: that of the script that is read.
    Run,
    /// `gen N`: that of the generated script of a number.
    Gen(u32),
}

/// What is left to be done with threads.
#[derive(Clone, Copy, Debug, PartialEq, Eq, Hash)]
pub enum Left {
    /// A run.
    Play(InThreads),
    /// A work with what is read, which may take many threads.
    Work(Work),
}

/// Does what the words of the command line ask for, but a run in threads or a work, which is told
/// and left. It takes neither `Threads` nor `Wait`, and so returns where each read and each write
/// does.
pub fn alone<F: Files, N: NewFile, S: Source, K: Sink>(
    alloc: Global,
    words: &[String],
    files: &F,
    new_file: &mut N,
    script: &mut S,
    out: &mut K,
) -> Result<Outcome, Left>
    // Of a run in threads, or a work.
    ensures left { IfErr result (λ left. IsLeft (request_of words.now) left
        (script.new ≡ script.old) (out.new ≡ out.old)) }

    ensures no_work { OnOk result (IfWork (request_of words.now) (λ work. ⊥)) }

    // Of words that ask for nothing.
    ensures other_words { IfOk result (λ outcome. IfNone (request_of words.now)
        (IsUsageOrRefused (map string_bytes words.now) outcome.status
        × IsEmptyLog outcome.journal.log)) }
    ensures untouched { OnOk result (IfNone (request_of words.now)
        ((script.new ≡ script.old) × (out.new ≡ out.old))) }

    // Of a page of the help.
    ensures shown { IfOk result (λ outcome. IfShow (request_of words.now) (λ page.
        IsShown page (script.new ≡ script.old)
        (λ written. Writes K.held K.faults K.last_count K.can_take out.old out.new
        outcome.status written)
        outcome.status outcome.journal.log)) }

    // Of the run that is asked for, of what it reads and of what it writes.
    ensures played { IfOk result (λ outcome. IfPlay (request_of words.now) (λ asked.
        IsPlayedFrom asked (file_of words.now) (S.left script.old) (script.new ≡ script.old)
        (ReadsUnder asked S.left S.faults S.last_count S.is_faultless script.old script.new
        outcome.status)
        (F.told files.now) (F.refuses files.now) (out.new ≡ out.old)
        (λ name. ReadsFile F.File.left F.File.faults F.File.last_count F.File.is_faultless asked
        (F.told files.now name) outcome.status)
        (λ written. Writes K.held K.faults K.last_count K.can_take out.old out.new
        outcome.status written)
        outcome.status outcome.journal.log)) }

    // Of an echo over the streams.
    ensures echoed { IfOk result (λ outcome. IfEcho (request_of words.now)
        (IsSession S.left S.faults S.last_count S.is_faultless K.held K.faults K.last_count
        script.old script.new out.old out.new outcome.status outcome.journal.log)) }

    // Of a gateway over the streams.
    ensures served { IfOk result (λ outcome. IfServe (request_of words.now) (λ clients.
        IsGatewayFrom (journal_of words.now)
        (IsGatewayOf clients S.left S.faults S.last_count S.is_faultless K.held K.faults
        K.last_count script.old script.new out.old out.new)
        ((script.new ≡ script.old) × (out.new ≡ out.old)) (N.refuses new_file.old) N.held N.faults
        N.last_count N.at_first new_file.old new_file.new outcome.status outcome.journal.log)) }
    ensures unmade { journal_of words.now ≡ None → new_file.new ≡ new_file.old }
    ensures legal { IfOk result (λ outcome. IsLegalSomehow outcome.journal.log.steps) }
{
    match Request::of(alloc, words) {
        None => Ok(refuse(alloc, words)),
        Some(Request::Show(page)) => Ok(show(alloc, page, out)),
        Some(Request::Echo) => Ok(echo(alloc, script, out)),
        Some(Request::Serve(clients)) => Ok(gateway_from(
            alloc,
            clients,
            journal_named(words),
            script,
            out,
            new_file,
        )),
        Some(Request::Work(work)) => Err(Left::Work(work)),
        Some(Request::Play(Asked::InOrder(order))) => Ok(in_order_from(
            alloc,
            order,
            file_named(words),
            files,
            script,
            out,
        )),
        Some(Request::Play(Asked::Run)) => Err(Left::Play(InThreads::Run)),
        Some(Request::Play(Asked::Gen(number))) => Err(Left::Play(InThreads::Gen(number))),
    }
}
