//! How a printed run is drawn.
ghost use Rattle.std.specs.Prelude.{◌≡◌, map, option_map, string_bytes};
ghost use Rattle.command_words.specs.Charts.{makers_named, whole_chart};

use crate::range::Range;

/// What a printed run is drawn as.
#[derive(Clone, Copy, Debug, PartialEq, Eq, Hash)]
pub enum Kind {
    /// A picture.
    Picture,
    /// A page with a picture.
    Page,
    /// A map of a long run, on which a row is of many steps.
    Map,
}

/// How a printed run is drawn.
#[derive(Clone, Copy, Debug, PartialEq, Eq, Hash)]
pub struct Drawn {
    pub kind: Kind,
    /// Without the lines of the journal beside it.
    pub plain: bool,
    /// With one row for a run of steps of links that did nothing.
    pub fold: bool,
    /// The rows of some steps alone, or of all.
    pub steps: Option<Range>,
    /// The place, from 0 among all words, of the list of makers whose rows alone are drawn.
    pub of: Option<usize>,
    /// The place, from 0 among all words, of the name of the text's file.
    pub file: Option<usize>,
}

impl Drawn {
    /// A picture of all rows, of the text that standard input holds.
    pub(crate) fn whole() -> Drawn
        ensures { result ≡ whole_chart }
    {
        Drawn {
            kind: Kind::Picture,
            plain: false,
            fold: false,
            steps: None,
            of: None,
            file: None,
        }
    }

    /// The list of the makers whose rows alone are drawn, among the words of the command line.
    /// Where the words ask for this chart, `are_makers` of `maker_words` holds for it.
    pub fn makers<'a>(self, words: &'a [String]) -> Option<&'a str>
        ensures { option_map (λ list. list.now) result
            ≡ makers_named self (map string_bytes words.now) }
    {
        Some(words.get(self.of?)?.as_str())
    }
}
