//! What is done with what is read.
ghost use Rattle.std.specs.Prelude.{◌≡◌};
ghost use Rattle.command_words.specs.Requests.{is_progress, report_file_place, tells_progress};

use crate::drawn::Drawn;
use crate::range::Range;
use crate::search::Search;

/// Whether a word asks for the progress of many runs.
pub(crate) fn is_progress(word: &str) -> bool
    ensures { result ≡ is_progress word.now }
{
    word == "progress"
}

/// A report of what comes of a script in the orders of some numbers.
#[derive(Clone, Copy, Debug, PartialEq, Eq, Hash)]
pub struct Report {
    pub range: Range,
    /// Whether a line says each second how many runs were made.
    pub progress: bool,
}

impl Report {
    /// The place, from 0, of the file among the words.
    pub(crate) fn file_place(self) -> usize
        ensures { result ≡ report_file_place self }
    {
        3 + usize::from(self.progress)
    }
}

/// What is done with what a source holds: all of it is read, and a text is written.
#[derive(Clone, Copy, Debug, PartialEq, Eq, Hash)]
pub enum Work {
    /// `find`: a search of the runs of a script.
    Find(Search),
    /// `seeds`: a report of the runs of a script.
    Seeds(Report),
    /// `order`: the order of a printed run, as lines of a script.
    Order,
    /// `replay`: whether a printed run is one of the script before it.
    Replay,
    /// `check`: whether a printed run is a legal one of the script before it.
    Check,
    /// `chart`: a picture of a printed run, a page with one, or a map.
    Chart(Drawn),
}

impl Work {
    /// Whether a line says each second how many runs were made.
    pub fn tells_progress(self) -> bool
        ensures { result ≡ tells_progress self }
    {
        match self {
            Work::Find(search) => search.progress,
            Work::Seeds(report) => report.progress,
            Work::Order | Work::Replay | Work::Check | Work::Chart(_) => false,
        }
    }
}
