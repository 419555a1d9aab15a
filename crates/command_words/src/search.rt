//! What a search is asked for.
ghost use Rattle.std.specs.Prelude.{◌≡◌, map, string_bytes};
ghost use Rattle.command_words.specs.Requests.{fitting, search_behind, search_file_place};
ghost use Rattle.command_words.specs.Requests.{search_told, searched, sought_by, wanted_of};
ghost use Rattle.command_words.specs.Requests.{wanted_place, with_file};

use crate::range::{Range, ranged};
use crate::request::is_file_name;
use crate::work::is_progress;
use line_search::Sought;

/// The most words that are wanted of a line.
const WANTED_MOST: usize = 8;

/// A search of the runs in the orders of some numbers: of the first, and so many behind it.
#[derive(Clone, Copy, Debug, PartialEq, Eq, Hash)]
pub struct Search {
    pub first: u32,
    pub more: u32,
    /// Whether a line says each second how many runs were made.
    pub progress: bool,
    /// Whether the words name the file of the script.
    pub in_file: bool,
    pub sought: Sought,
}

/// A search for so many words.
fn fitting(search: Search, wanted: &[String]) -> Option<Search>
    ensures { result ≡ fitting search (map string_bytes wanted.now) }
{
    if 1 <= wanted.len() && wanted.len() <= WANTED_MOST {
        Some(search)
    } else {
        None
    }
}

/// A search for the words behind its range and its file: for a line that says them, or behind `not`
/// for none that does.
fn sought_by(search: Search, behind: &[String]) -> Option<Search>
    ensures { result ≡ sought_by search (map string_bytes behind.now) }
{
    match behind {
        [first, wanted @ ..] if first.as_str() == "not" => {
            let sought = Sought::NoLine;
            fitting(Search { sought, ..search }, wanted)
        }
        _ => fitting(search, behind),
    }
}

/// A search in the script of the file that the first word names.
fn with_file(search: Search, behind: &[String]) -> Option<Search>
    ensures { result ≡ with_file search (map string_bytes behind.now) }
{
    match behind {
        [file, behind @ ..] if is_file_name(file.as_str()) => {
            let in_file = true;
            sought_by(Search { in_file, ..search }, behind)
        }
        _ => None,
    }
}

/// A search by the words behind its range and `progress`: in the script of a file behind `in`, or in
/// that of standard input.
fn search_behind(search: Search, behind: &[String]) -> Option<Search>
    ensures { result ≡ search_behind search (map string_bytes behind.now) }
{
    match behind {
        [first, behind @ ..] if first.as_str() == "in" => with_file(search, behind),
        _ => sought_by(search, behind),
    }
}

/// A search by the words behind its range, of which `progress` may be the first.
fn search_told(search: Search, behind: &[String]) -> Option<Search>
    ensures { result ≡ search_told search (map string_bytes behind.now) }
{
    match behind {
        [first, behind @ ..] if is_progress(first.as_str()) => {
            let progress = true;
            search_behind(Search { progress, ..search }, behind)
        }
        _ => search_behind(search, behind),
    }
}

/// The search of a range, by the words behind it.
pub(crate) fn searched(from: &str, to: &str, behind: &[String]) -> Option<Search>
    ensures { result ≡ searched from.now to.now (map string_bytes behind.now) }
{
    let Range { first, more } = ranged(from, to)?;
    let search = Search {
        first,
        more,
        progress: false,
        in_file: false,
        sought: Sought::Line,
    };
    search_told(search, behind)
}

impl Search {
    /// The place, from 0, of the file among the words.
    pub(crate) fn file_place(self) -> Option<usize>
        ensures { result ≡ search_file_place self }
    {
        if self.in_file {
            Some(4 + usize::from(self.progress))
        } else {
            None
        }
    }

    /// The place, from 0, of the first word that is wanted.
    fn wanted_place(self) -> usize
        ensures { result ≡ wanted_place self }
    {
        let behind_file = if self.in_file { 5 } else { 3 };
        let behind_progress = behind_file + usize::from(self.progress);
        match self.sought {
            Sought::Line => behind_progress,
            Sought::NoLine => behind_progress + 1,
        }
    }

    /// The words that are wanted of a line, among those of the command line.
    pub fn wanted(self, words: &[String]) -> &[String]
        ensures { map string_bytes result.now ≡ wanted_of self (map string_bytes words.now) }
    {
        let place = self.wanted_place();
        if place <= words.len() {
            &words[place..]
        } else {
            &[]
        }
    }
}
