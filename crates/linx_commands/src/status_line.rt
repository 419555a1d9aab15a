//! The program's line on standard error.
ghost use Rattle.std.specs.Prelude.{◌≡◌, ◌+◌, ◌≤◌, ◌++◌, decimal, length, map, option_map};
ghost use Rattle.std.specs.Prelude.{string_bytes};
ghost use Rattle.journal_text.specs.Values.{position_text};
ghost use Rattle.linx_commands.specs.Lines.{bad_text, earliest_text, full_text, hint_of};
ghost use Rattle.linx_commands.specs.Lines.{illegal_text, law_text, limit_of, line_of};
ghost use Rattle.linx_commands.specs.Lines.{misuse_text, phrase_of, phrase_of_fault};
ghost use Rattle.linx_commands.specs.Lines.{file_prefix, phrase_of_unmade, stop_text};
ghost use Rattle.linx_commands.specs.Lines.{text_at, text_by, text_fault_text, unlike_text};

use crate::outcome::{Status, TextFault, Unlike};
use crate::phrase::Phrase;
use command_words::{Line, Misuse, WORDS, Word, file_named, journal_named};
use journal::Journal;
use journal_check::Fault as LawFault;
use linx_base::ItemAt;
use linx_files::MakeFault;
use linx_outside::OpenFault;
use script_lang::Fault;

/// The steps that fill a journal.
const STEPS_MOST: u64 = 200_000;

/// A word that is near, or all words.
#[tactic(auto, unfolding(crate::specs::Lines::hint_of))]
fn push_hint(line: &mut Line, near: Option<Word>)
    requires room { length line.old ≤ 200 }
    ensures text { line.new ≡ line.old ++ hint_of near }
    ensures room { length line.new ≤ length line.old + 280 }
{
    match near {
        Some(near) => {
            line.push_between(
                Phrase::DidYouMean.text(),
                near.name(),
                Phrase::BehindNear.text(),
            );
        }
        None => {
            line.push_listed(Phrase::TheWordsAre.text(), &WORDS);
        }
    }
}

/// The word at a place, from 0.
fn word_at(words: &[String], place: usize) -> &str
    ensures { result.now ≡ text_at (map string_bytes words.now) place }
{
    match words.get(place) {
        Some(word) => word.as_str(),
        None => "",
    }
}

/// What is said of words that ask for nothing.
#[tactic(auto, unfolding(crate::specs::Lines::misuse_text))]
fn push_misuse(line: &mut Line, words: &[String], wrong: Misuse)
    requires room { length line.old ≤ 40 }
    ensures text { line.new ≡ line.old ++ misuse_text (map string_bytes words.now) wrong }
    ensures room { length line.new ≤ length line.old + 430 }
{
    match wrong {
        Misuse::Wordless => {
            line.push_listed(Phrase::UsageOfAll.text(), &WORDS);
        }
        Misuse::Unknown(place, near) => {
            line.push(Phrase::NoWord.text());
            line.push_shown(word_at(words, place));
            line.push(Phrase::BehindWord.text());
            push_hint(line, near);
        }
        Misuse::Arguments(word) => {
            line.push_pair(Phrase::Usage.text(), word.usage());
        }
    }
}

/// Why a file can't be opened.
fn phrase_of_fault(why: OpenFault) -> Phrase
    ensures { result ≡ phrase_of_fault why }
{
    match why {
        OpenFault::Missing => Phrase::NoSuchFile,
        OpenFault::Folder => Phrase::IsFolder,
        OpenFault::NotAllowed => Phrase::NotAllowed,
        OpenFault::Other => Phrase::NotOpened,
    }
}

/// Why a file can't be made.
fn phrase_of_unmade(why: MakeFault) -> Phrase
    ensures { result ≡ phrase_of_unmade why }
{
    match why {
        MakeFault::NoFolder => Phrase::NoSuchFolder,
        MakeFault::Folder => Phrase::IsFolder,
        MakeFault::NotAllowed => Phrase::NotAllowed,
        MakeFault::Other => Phrase::NotMade,
    }
}

/// What is said before a fault of a file that the words name.
fn push_file(line: &mut Line, file: Option<&str>)
    requires room { length line.old ≤ 40 }
    ensures text { line.new ≡ line.old ++ file_prefix (option_map (λ name. name.now) file.entry) }
    ensures room { length line.new ≤ length line.old + 110 }
{
    if let Some(name) = file {
        line.push_shown(name);
        line.push(Phrase::Colon.text());
    }
}

/// The limit of a journal that is full.
fn limit(journal: &Journal) -> Phrase
    ensures { result ≡ limit_of journal.now.log.steps }
{
    if journal.len() >= STEPS_MOST {
        Phrase::StepLimit
    } else {
        Phrase::ByteLimit
    }
}

/// After which step a journal was full, and by which limit.
#[tactic(auto, unfolding(crate::specs::Lines::full_text))]
fn push_full(line: &mut Line, journal: &Journal)
    requires room { length line.old ≤ 40 }
    ensures text { line.new ≡ line.old ++ full_text journal.now.log.steps }
    ensures room { length line.new ≤ length line.old + 430 }
{
    line.push_numbered(Phrase::JournalFull.text(), journal.len());
    line.push_pair(Phrase::ByTheLimit.text(), limit(journal).text());
}

/// Which line of a script is bad, and what is wrong with it.
#[tactic(auto, unfolding(crate::specs::Lines::bad_text))]
fn push_bad(line: &mut Line, number: u32, fault: Fault)
    requires room { length line.old ≤ 40 }
    ensures text { line.new ≡ line.old ++ bad_text number fault }
    ensures room { length line.new ≤ length line.old + 430 }
{
    line.push_numbered(Phrase::ScriptLine.text(), u64::from(number));
    let reason = fault.reason();
    line.push_pair(Phrase::Colon.text(), reason.as_str());
}

/// Which line of a printed text it is, and what is wrong with it.
fn push_text_line(line: &mut Line, number: u64, wrong: Phrase)
    requires room { length line.old ≤ 40 }
    ensures text { line.new
        ≡ line.old ++ phrase_of Phrase.TextLine ++ decimal number ++ phrase_of wrong }
    ensures room { length line.new ≤ length line.old + 430 }
{
    line.push_numbered(Phrase::TextLine.text(), number);
    line.push(wrong.text());
}

/// What is wrong with a printed text.
#[tactic(auto, unfolding(crate::specs::Lines::text_fault_text))]
fn push_text_fault(line: &mut Line, fault: TextFault)
    requires room { length line.old ≤ 40 }
    ensures text { line.new ≡ line.old ++ text_fault_text fault }
    ensures room { length line.new ≤ length line.old + 430 }
{
    match fault {
        TextFault::Bad { line: number } => push_text_line(line, number, Phrase::NoTextLine),
        TextFault::Full { line: number } => push_text_line(line, number, Phrase::TooMuchNoted),
        TextFault::Long => line.push(Phrase::TextTooLong.text()),
        TextFault::Rows => line.push(Phrase::TooManyRows.text()),
        TextFault::Lanes => line.push(Phrase::TooManyLanes.text()),
        TextFault::Missing => line.push(Phrase::NoTextBehind.text()),
        TextFault::Log { line: number } => push_text_line(line, number, Phrase::AnotherLog),
    }
}

/// How a printed text shows that no run has it.
#[tactic(auto, unfolding(crate::specs::Lines::unlike_text))]
fn push_unlike(line: &mut Line, unlike: Unlike)
    requires room { length line.old ≤ 40 }
    ensures text { line.new ≡ line.old ++ unlike_text unlike }
    ensures room { length line.new ≤ length line.old + 430 }
{
    match unlike {
        Unlike::Line { line: number } => push_text_line(line, number, Phrase::AnotherLine),
        Unlike::Filled => line.push(Phrase::TurnsFill.text()),
    }
}

/// Which step isn't legal, and what the law asks that it breaks.
#[tactic(auto, unfolding(crate::specs::Lines::law_text))]
fn push_law(line: &mut Line, fault: LawFault)
    requires room { length line.old ≤ 40 }
    ensures text { line.new ≡ line.old ++ law_text fault }
    ensures room { length line.new ≤ length line.old + 320 }
{
    line.push_numbered(Phrase::StepAt.text(), fault.step);
    line.push_pair(Phrase::BreaksLaw.text(), fault.law.word());
    line.push_pair(Phrase::Colon.text(), fault.law.rule());
}

/// Where an item came from: its step, and its place in that.
#[tactic(auto, unfolding(journal_text::specs::Values::position_text))]
fn push_position(line: &mut Line, at: ItemAt)
    requires room { length line.old ≤ 440 }
    ensures text { line.new ≡ line.old ++ position_text at }
    ensures room { length line.new ≤ length line.old + 41 }
{
    line.push_number(at.step);
    line.push_numbered(".", at.place);
}

/// Which item a receive was to take.
#[tactic(auto, unfolding(crate::specs::Lines::earliest_text))]
fn push_earliest(line: &mut Line, earliest: Option<ItemAt>)
    requires room { length line.old ≤ 400 }
    ensures text { line.new ≡ line.old ++ earliest_text earliest }
    ensures room { length line.new ≤ length line.old + 81 }
{
    if let Some(at) = earliest {
        line.push(Phrase::EarliestIs.text());
        push_position(line, at);
    }
}

/// The law that a step breaks, and the item that it was to take.
#[tactic(auto, unfolding(crate::specs::Lines::illegal_text))]
fn push_illegal(line: &mut Line, fault: LawFault)
    requires room { length line.old ≤ 40 }
    ensures text { line.new ≡ line.old ++ illegal_text fault }
    ensures room { length line.new ≤ length line.old + 430 }
{
    push_law(line, fault);
    push_earliest(line, fault.earliest);
}

/// Where a run stopped for want of memory.
#[tactic(auto, unfolding(crate::specs::Lines::stop_text))]
fn push_stop(line: &mut Line, journal: &Journal)
    requires room { length line.old ≤ 80 }
    ensures text { line.new ≡ line.old ++ stop_text journal.now.log.steps }
    ensures room { length line.new ≤ length line.old + 60 }
{
    let steps = journal.len();
    if steps > 0 {
        line.push_numbered(Phrase::AfterStep.text(), steps);
    }
}

/// What is said of a status.
#[tactic(auto, unfolding(crate::specs::Lines::text_by))]
fn push_text(line: &mut Line, words: &[String], status: Status, journal: &Journal)
    requires room { length line.old ≤ 40 }
    ensures text { line.new ≡ line.old ++ text_by (map string_bytes words.now) status journal.now.log }
    ensures room { length line.new ≤ length line.old + 430 }
{
    match status {
        Status::Done => {}
        Status::Usage(wrong) => push_misuse(line, words, wrong),
        Status::Script {
            line: number,
            fault,
        } => push_bad(line, number, fault),
        Status::Unopened(why) => {
            push_file(line, file_named(words));
            line.push(phrase_of_fault(why).text());
        }
        Status::Unmade(why) => {
            push_file(line, journal_named(words));
            line.push(phrase_of_unmade(why).text());
        }
        Status::Unkept => {
            push_file(line, journal_named(words));
            line.push(Phrase::WriteFault.text());
        }
        Status::ReadFault => {
            push_file(line, file_named(words));
            line.push(Phrase::ReadFault.text());
        }
        Status::WriteFault => line.push(Phrase::WriteFault.text()),
        Status::JournalFull => push_full(line, journal),
        Status::NoMemory => {
            line.push(Phrase::OutOfMemory.text());
            push_stop(line, journal);
        }
        Status::Torn { at } => line.push_numbered(Phrase::TornAt.text(), at),
        Status::BadStream { at } => line.push_numbered(Phrase::BadStreamAt.text(), at),
        Status::FoundNone => line.push(Phrase::FoundNone.text()),
        Status::Text(fault) => push_text_fault(line, fault),
        Status::Unlike(unlike) => push_unlike(line, unlike),
        Status::Illegal(fault) => push_illegal(line, fault),
    }
}

/// The program's line on standard error, with the newline at its end; empty at `Done`.
#[tactic(auto, unfolding(crate::specs::Lines::line_by))]
pub(crate) fn status_line(words: &[String], status: Status, journal: &Journal) -> Line
    ensures { result ≡ line_of words.now status journal.now.log }
{
    let mut line = Line::new();
    if status == Status::Done {
        return line;
    }
    line.push(Phrase::Program.text());
    push_text(&mut line, words, status, journal);
    line.push(Phrase::LineEnd.text());
    line
}
