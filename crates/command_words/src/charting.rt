//! What a chart is asked for, word by word.
ghost use Rattle.std.specs.Prelude.{◌≡◌, Some, [], ◌∷◌, map, option_and_then, string_bytes};
ghost use Rattle.script_words.specs.Numbers.{number_spelled};
ghost use Rattle.command_words.specs.Charts.{awaiting, chart_by, charted, charting_by};
ghost use Rattle.command_words.specs.Charts.{charting_with, choice_of, whole_chart, with_any};
ghost use Rattle.command_words.specs.Charts.{with_choice, drawn_of_file, drawn_of_makers, with_no_choice};
ghost use Rattle.command_words.specs.Charts.{drawn_over};
ghost use Rattle.command_words.specs.Ranges.{range_over};

use crate::drawn::{Drawn, Kind};
use crate::range::{Range, range_over};
use crate::request::is_file_name;
use maker_words::{are_makers, number};

/// A word of a chart that names no file.
#[derive(Clone, Copy, Debug, PartialEq, Eq, Hash)]
pub enum Choice {
    Map,
    Page,
    Plain,
    Fold,
    Steps,
    Of,
}

/// What may stand behind the words of a chart so far.
#[derive(Clone, Copy, Debug, PartialEq, Eq, Hash)]
pub enum Awaited {
    /// An option, or a file.
    Any,
    /// The first step.
    First,
    /// The last step, of those from this one.
    Last(u32),
    /// A list of makers.
    Makers,
    /// A file.
    File,
    /// Nothing.
    Nothing,
}

/// What a chart is asked for by its words so far.
#[derive(Clone, Copy, Debug, PartialEq, Eq, Hash)]
pub struct Charting {
    pub drawn: Drawn,
    pub awaited: Awaited,
}

/// What a word chooses; `None` where it names a file.
#[tactic(auto, unfolding(crate::specs::Charts::choice_of))]
fn choice_of(word: &str) -> Option<Choice>
    ensures { result ≡ choice_of word.now }
{
    if word == "map" {
        return Some(Choice::Map);
    }
    if word == "page" {
        return Some(Choice::Page);
    }
    if word == "plain" {
        return Some(Choice::Plain);
    }
    if word == "fold" {
        return Some(Choice::Fold);
    }
    if word == "steps" {
        return Some(Choice::Steps);
    }
    if word == "of" {
        return Some(Choice::Of);
    }
    None
}

impl Drawn {
    /// What its words so far ask for, behind which so much may stand.
    fn awaiting(self, awaited: Awaited) -> Option<Charting>
        ensures { result ≡ awaiting self awaited }
    {
        Some(Charting {
            drawn: self,
            awaited,
        })
    }

    /// With a choice at this place, from 0, among all words.
    fn with_choice(self, place: usize, choice: Choice) -> Option<Charting>
        ensures { result ≡ with_choice self place choice }
    {
        match choice {
            Choice::Map if place != 1 => None,
            Choice::Map => {
                let kind = Kind::Map;
                Drawn { kind, ..self }.awaiting(Awaited::File)
            }
            Choice::Page => {
                let kind = Kind::Page;
                Drawn { kind, ..self }.awaiting(Awaited::Any)
            }
            Choice::Plain => {
                let plain = true;
                Drawn { plain, ..self }.awaiting(Awaited::Any)
            }
            Choice::Fold => {
                let fold = true;
                Drawn { fold, ..self }.awaiting(Awaited::Any)
            }
            Choice::Steps => self.awaiting(Awaited::First),
            Choice::Of => self.awaiting(Awaited::Makers),
        }
    }

    /// Of the text of the file that the word at this place names.
    fn of_file(self, place: usize, word: &str) -> Option<Charting>
        ensures { result ≡ drawn_of_file self place word.now }
    {
        if !is_file_name(word) {
            return None;
        }
        let file = Some(place);
        Drawn { file, ..self }.awaiting(Awaited::Nothing)
    }

    /// Of the makers that the word at this place lists.
    fn of_makers(self, place: usize, word: &str) -> Option<Charting>
        ensures { result ≡ drawn_of_makers self place word.now }
    {
        if !are_makers(word) {
            return None;
        }
        let of = Some(place);
        Drawn { of, ..self }.awaiting(Awaited::Any)
    }

    /// Of a range of steps.
    fn over(self, steps: Option<Range>) -> Option<Charting>
        ensures { result ≡ drawn_over self steps }
    {
        match steps {
            Some(_) => Drawn { steps, ..self }.awaiting(Awaited::Any),
            None => None,
        }
    }

    /// With a word that may choose, or name a file.
    fn with_any(self, place: usize, word: &str) -> Option<Charting>
        ensures { result ≡ with_any (choice_of word.now) self place word.now }
    {
        match choice_of(word) {
            Some(choice) => self.with_choice(place, choice),
            None => self.of_file(place, word),
        }
    }

    /// With a word that may name a file, and not choose.
    fn with_no_choice(self, place: usize, word: &str) -> Option<Charting>
        ensures { result ≡ with_no_choice (choice_of word.now) self place word.now }
    {
        match choice_of(word) {
            Some(_) => None,
            None => self.of_file(place, word),
        }
    }
}

/// The last step is read: a range of them, if there is one.
fn last_step(first: u32, word: &str) -> Option<Range>
    ensures { result ≡ option_and_then (λ last. range_over first last) (number_spelled word.now) }
{
    range_over(first, number(word)?)
}

impl Charting {
    /// With the word at this place, from 0, among all words.
    fn with(self, place: usize, word: &str) -> Option<Charting>
        ensures { result ≡ charting_with self place word.now }
    {
        let drawn = self.drawn;
        match self.awaited {
            Awaited::Any => drawn.with_any(place, word),
            Awaited::First => drawn.awaiting(Awaited::Last(number(word)?)),
            Awaited::Last(first) => drawn.over(last_step(first, word)),
            Awaited::Makers => drawn.of_makers(place, word),
            Awaited::File => drawn.with_no_choice(place, word),
            Awaited::Nothing => None,
        }
    }

    /// The chart that is asked for, if no word is lacking.
    fn drawn(self) -> Option<Drawn>
        ensures { result ≡ charted self }
    {
        match self.awaited {
            Awaited::First | Awaited::Last(_) | Awaited::Makers => None,
            _ => Some(self.drawn),
        }
    }
}

/// What a chart is asked for before any word.
fn unasked() -> Option<Charting>
    ensures { result ≡ awaiting whole_chart Awaited.Any }
{
    Drawn::whole().awaiting(Awaited::Any)
}

/// With the word at this place.
fn further(charting: Option<Charting>, place: usize, word: &str) -> Option<Charting>
    ensures { result ≡ option_and_then (λ c. charting_with c place word.now) charting }
{
    charting?.with(place, word)
}

/// With all words behind `chart`.
fn with_all(charting: Option<Charting>, behind: &[String]) -> Option<Charting>
    ensures { result ≡ charting_by 1 charting (map string_bytes behind.now) }
{
    let mut charting = charting;
    for (before, word) in behind.iter().enumerate() {
        charting = further(charting, before + 1, word.as_str());
    }
    charting
}

/// The chart that is asked for, if no word is lacking.
fn ended(charting: Option<Charting>) -> Option<Drawn>
    ensures { result ≡ option_and_then (λ c. charted c) charting }
{
    charting?.drawn()
}

/// The chart that a word behind `chart` asks for.
pub(crate) fn chart_of_one(word: &str) -> Option<Drawn>
    ensures { result ≡ chart_by (word.now ∷ []) }
{
    ended(further(unasked(), 1, word))
}

/// The chart that two words behind `chart` ask for.
pub(crate) fn chart_of_two(one: &str, two: &str) -> Option<Drawn>
    ensures { result ≡ chart_by (one.now ∷ two.now ∷ []) }
{
    ended(further(further(unasked(), 1, one), 2, two))
}

/// The chart that the words behind `chart` ask for.
pub(crate) fn chart_of(behind: &[String]) -> Option<Drawn>
    ensures { result ≡ chart_by (map string_bytes behind.now) }
{
    ended(with_all(unasked(), behind))
}
