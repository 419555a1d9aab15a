//! What the words ask for.
ghost use Rattle.std.specs.Prelude.{◌≡◌, map, option_map, string_bytes};
ghost use Rattle.command_words.specs.Files.{is_file_name, is_no_name};
ghost use Rattle.command_words.specs.Requests.{asked_alone, asked_behind, asked_with};
ghost use Rattle.command_words.specs.Requests.{asked_with_file, asked_with_more, clients_in};
ghost use Rattle.command_words.specs.Requests.{clients_spelled, file_at, file_of, file_place};
ghost use Rattle.command_words.specs.Requests.{find_by, gateway_by, journal_of, kept, of_file};
ghost use Rattle.command_words.specs.Requests.{report_behind, reported, reported_of, request_of};
ghost use Rattle.command_words.specs.Requests.{seeded, seeds_by};

use crate::charting::{chart_of, chart_of_one, chart_of_two};
use crate::drawn::Drawn;
use crate::page::Page;
use crate::range::ranged;
use crate::search::searched;
use crate::word::{Word, called, is_help_flag};
use crate::work::{Report, Work, is_progress};
use maker_words::number;

/// The most clients of a gateway, and the most digits that their number has.
const CLIENTS_MOST: u32 = 16;

const CLIENTS_DIGITS: usize = 2;

/// The word before the file in which the journal of a gateway is kept, and the place of that file
/// among the words, from 0.
const JOURNAL_FLAG: &str = "--journal";

const JOURNAL_PLACE: usize = 3;

/// The order in which a script is played on one thread.
#[derive(Clone, Copy, Debug, PartialEq, Eq, Hash)]
pub enum TurnOrder {
    /// `serial`: the fixed order of rounds.
    Fixed,
    /// `seed S`: the order that a number decides.
    Seed(u32),
}

/// What a run is asked for.
#[derive(Clone, Copy, Debug, PartialEq, Eq, Hash)]
pub enum Asked {
    /// `run`: the run of the script that is read, and its text.
    Run,
    /// `serial` or `seed S`: the same, on one thread and in an order.
    InOrder(TurnOrder),
    /// `gen N`: the run of the generated script of a number, and its summary.
    Gen(u32),
}

/// What the words of a command line ask for.
#[derive(Clone, Copy, Debug, PartialEq, Eq, Hash)]
pub enum Request {
    /// A page of the help.
    Show(Page),
    /// A run.
    Play(Asked),
    /// What is done with what is read.
    Work(Work),
    /// An echo over the program's streams.
    Echo,
    /// A gateway for so many clients over the program's streams. `journal_named` says where its
    /// journal is kept.
    Serve(u8),
}

/// Whether a text is no name of a file: it is empty, or begins with `-`.
fn is_no_name(text: &str) -> bool
    ensures { result ≡ is_no_name text.now }
{
    text.is_empty() || text.starts_with('-')
}

/// Whether a text names a file, or standard input by `-`.
pub(crate) fn is_file_name(text: &str) -> bool
    ensures { result ≡ is_file_name text.now }
{
    text == "-" || !is_no_name(text)
}

/// What is asked for of a file.
fn of_file(request: Request, file: &str) -> Option<Request>
    ensures { result ≡ of_file request file.now }
{
    if is_file_name(file) {
        Some(request)
    } else {
        None
    }
}

/// The clients of a gateway, of which there are 1 to 16.
fn clients_in(number: Option<u32>) -> Option<u8>
    ensures { result ≡ clients_in number }
{
    match number {
        Some(n) if 1 <= n && n <= CLIENTS_MOST => Some(n as u8),
        _ => None,
    }
}

/// The clients of a gateway that a word of one or two digits spells.
fn clients(word: &str) -> Option<u8>
    ensures { result ≡ clients_spelled word.now }
{
    if word.len() > CLIENTS_DIGITS {
        return None;
    }
    clients_in(number(word))
}

/// The run in the order of a number.
fn seeded(argument: &str) -> Option<Asked>
    ensures { result ≡ seeded argument.now }
{
    Some(Asked::InOrder(TurnOrder::Seed(number(argument)?)))
}

/// What a word alone asks for.
pub(crate) fn asked_alone(word: Word) -> Option<Request>
    ensures { result ≡ asked_alone word }
{
    match word {
        Word::Run => Some(Request::Play(Asked::Run)),
        Word::Serial => Some(Request::Play(Asked::InOrder(TurnOrder::Fixed))),
        Word::Order => Some(Request::Work(Work::Order)),
        Word::Replay => Some(Request::Work(Work::Replay)),
        Word::Check => Some(Request::Work(Work::Check)),
        Word::Chart => Some(Request::Work(Work::Chart(Drawn::whole()))),
        Word::Seed | Word::Find | Word::Seeds | Word::Gen => None,
        Word::Stream => Some(Request::Echo),
        Word::Gateway => None,
        Word::Help => Some(Request::Show(Page::All)),
        Word::Version => Some(Request::Show(Page::Version)),
    }
}

/// What a word and one argument ask for.
pub(crate) fn asked_with(word: Word, argument: &str) -> Option<Request>
    ensures { result ≡ asked_with word argument.now }
{
    if is_help_flag(argument) {
        return Some(Request::Show(Page::Of(word)));
    }
    match word {
        Word::Run => of_file(Request::Play(Asked::Run), argument),
        Word::Serial => of_file(Request::Play(Asked::InOrder(TurnOrder::Fixed)), argument),
        Word::Seed => Some(Request::Play(seeded(argument)?)),
        Word::Order => of_file(Request::Work(Work::Order), argument),
        Word::Replay => of_file(Request::Work(Work::Replay), argument),
        Word::Check => of_file(Request::Work(Work::Check), argument),
        Word::Chart => Some(Request::Work(Work::Chart(chart_of_one(argument)?))),
        Word::Gen => Some(Request::Play(Asked::Gen(number(argument)?))),
        Word::Gateway => Some(Request::Serve(clients(argument)?)),
        Word::Help => Some(Request::Show(Page::Of(called(argument)?))),
        Word::Find | Word::Seeds | Word::Stream | Word::Version => None,
    }
}

/// The report of a range, with or without its progress.
fn reported(progress: bool, from: &str, to: &str) -> Option<Request>
    ensures { result ≡ reported progress from.now to.now }
{
    let range = ranged(from, to)?;
    Some(Request::Work(Work::Seeds(Report { range, progress })))
}

/// The same of a file.
fn reported_of(progress: bool, from: &str, to: &str, file: &str) -> Option<Request>
    ensures { result ≡ reported_of progress from.now to.now file.now }
{
    of_file(reported(progress, from, to)?, file)
}

/// The report of a range, by the words behind it: `progress`, and a file.
fn report_behind(from: &str, to: &str, behind: &[String]) -> Option<Request>
    ensures { result ≡ report_behind from.now to.now (map string_bytes behind.now) }
{
    match behind {
        [] => reported(false, from, to),
        [word] if is_progress(word.as_str()) => reported(true, from, to),
        [file] => reported_of(false, from, to, file.as_str()),
        [word, file] if is_progress(word.as_str()) => reported_of(true, from, to, file.as_str()),
        _ => None,
    }
}

/// What a word, an argument and a file ask for, or a word and two arguments.
pub(crate) fn asked_with_file(word: Word, argument: &str, file: &str) -> Option<Request>
    ensures { result ≡ asked_with_file word argument.now file.now }
{
    match word {
        Word::Seed => of_file(Request::Play(seeded(argument)?), file),
        Word::Seeds => reported(false, argument, file),
        Word::Chart => Some(Request::Work(Work::Chart(chart_of_two(argument, file)?))),
        _ => None,
    }
}

/// A gateway whose journal is kept in a file.
fn kept(number: &str, flag: &str, file: &str) -> Option<Request>
    ensures { result ≡ kept number.now flag.now file.now }
{
    if flag != JOURNAL_FLAG || is_no_name(file) {
        return None;
    }
    Some(Request::Serve(clients(number)?))
}

/// What the words behind `find` ask for.
fn find_by(words: &[String]) -> Option<Request>
    ensures { result ≡ find_by (map string_bytes words.now) }
{
    match words {
        [from, to, behind @ ..] => {
            let search = searched(from.as_str(), to.as_str(), behind)?;
            Some(Request::Work(Work::Find(search)))
        }
        _ => None,
    }
}

/// What the words behind `seeds` ask for.
fn seeds_by(words: &[String]) -> Option<Request>
    ensures { result ≡ seeds_by (map string_bytes words.now) }
{
    match words {
        [from, to, behind @ ..] => report_behind(from.as_str(), to.as_str(), behind),
        _ => None,
    }
}

/// What the words behind `gateway` ask for, which keeps its journal.
fn gateway_by(words: &[String]) -> Option<Request>
    ensures { result ≡ gateway_by (map string_bytes words.now) }
{
    match words {
        [number, flag, file] => kept(number.as_str(), flag.as_str(), file.as_str()),
        _ => None,
    }
}

/// What a word asks for with three words behind it, or more.
fn asked_with_more(word: Word, words: &[String]) -> Option<Request>
    ensures { result ≡ asked_with_more word (map string_bytes words.now) }
{
    match word {
        Word::Find => find_by(words),
        Word::Seeds => seeds_by(words),
        Word::Gateway => gateway_by(words),
        Word::Chart => Some(Request::Work(Work::Chart(chart_of(words)?))),
        _ => None,
    }
}

/// What a word asks for with the words behind it.
fn asked_behind(word: Word, words: &[String]) -> Option<Request>
    ensures { result ≡ asked_behind word (map string_bytes words.now) }
{
    match words {
        [] => asked_alone(word),
        [argument] => asked_with(word, argument.as_str()),
        [argument, file] => asked_with_file(word, argument.as_str(), file.as_str()),
        [_, _, _, ..] => asked_with_more(word, words),
    }
}

/// What the words ask for, read off the table; `None` where they ask for nothing.
pub(crate) fn request_by(words: &[String]) -> Option<Request>
    ensures { result ≡ request_of words.now }
{
    match words {
        [word, behind @ ..] => asked_behind(called(word.as_str())?, behind),
        [] => None,
    }
}

/// The place, from 0, of the file among the words of what reads one.
fn file_place(request: Option<Request>) -> Option<usize>
    ensures { result ≡ file_place request }
{
    match request {
        Some(Request::Play(Asked::Run | Asked::InOrder(TurnOrder::Fixed))) => Some(1),
        Some(Request::Play(Asked::InOrder(TurnOrder::Seed(_)))) => Some(2),
        Some(Request::Work(Work::Find(search))) => search.file_place(),
        Some(Request::Work(Work::Seeds(report))) => Some(report.file_place()),
        Some(Request::Work(Work::Chart(drawn))) => drawn.file,
        Some(Request::Work(Work::Order | Work::Replay | Work::Check)) => Some(1),
        _ => None,
    }
}

/// The file that is named at a place of the words; `None` where there is none, or `-`.
fn file_at(words: &[String], place: usize) -> Option<&str>
    ensures { option_map (λ name. name.now) result ≡ file_at (map string_bytes words.now) place }
{
    match words.get(place) {
        Some(file) if file.as_str() != "-" => Some(file.as_str()),
        _ => None,
    }
}

/// The file that the words name; `None` where standard input is read.
pub fn file_named(words: &[String]) -> Option<&str>
    ensures { option_map (λ name. name.now) result ≡ file_of words.now }
{
    file_at(words, file_place(request_by(words))?)
}

/// The file in which the journal of a gateway is kept; `None` where the words name none.
pub fn journal_named(words: &[String]) -> Option<&str>
    ensures { option_map (λ name. name.now) result ≡ journal_of words.now }
{
    match request_by(words)? {
        Request::Serve(_) => Some(words.get(JOURNAL_PLACE)?.as_str()),
        _ => None,
    }
}
