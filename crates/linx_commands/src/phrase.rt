//! The phrases that the lines on standard error are made of.
ghost use Rattle.std.specs.Prelude.{◌≡◌, ◌≤◌, length};
ghost use Rattle.linx_commands.specs.Lines.{phrase_of};

/// A phrase, by what it says.
#[derive(Clone, Copy, Debug, PartialEq, Eq, Hash)]
pub enum Phrase {
    /// The program speaks.
    Program,
    /// What ends a line.
    LineEnd,
    /// What stands between a file and what is said of it, or a line and what is wrong with it.
    Colon,
    /// There is no such word, which follows.
    NoWord,
    /// What stands behind that word.
    BehindWord,
    /// A word that is near follows.
    DidYouMean,
    /// What stands behind that one.
    BehindNear,
    /// All words follow.
    TheWordsAre,
    /// How the program is used, and all words follow.
    UsageOfAll,
    /// How a word is used follows.
    Usage,
    /// The number of a line follows.
    ScriptLine,
    /// There is no file.
    NoSuchFile,
    /// It is a folder.
    IsFolder,
    /// It may not be read, or written.
    NotAllowed,
    /// It can't be opened for another reason.
    NotOpened,
    /// There is no folder for it.
    NoSuchFolder,
    /// It can't be made for another reason.
    NotMade,
    /// The source failed.
    ReadFault,
    /// The sink failed.
    WriteFault,
    /// The journal is full, and the number of its last step follows.
    JournalFull,
    /// The limit follows.
    ByTheLimit,
    /// The limit of steps.
    StepLimit,
    /// The limit of bytes.
    ByteLimit,
    /// Memory was refused.
    OutOfMemory,
    /// The number of the last step follows.
    AfterStep,
    /// The place of a frame follows within which a stream ended.
    TornAt,
    /// The place follows from which on the bytes of a stream are bad.
    BadStreamAt,
    /// No run has what is sought.
    FoundNone,
    /// The number of a line of a printed text follows.
    TextLine,
    /// That line is none that stands there.
    NoTextLine,
    /// With that line there are too many bytes of signals.
    TooMuchNoted,
    /// A printed text has too many bytes.
    TextTooLong,
    /// A chart would have too many rows.
    TooManyRows,
    /// A chart would have too many lanes.
    TooManyLanes,
    /// There is no text behind a script.
    NoTextBehind,
    /// That line isn't the run's.
    AnotherLine,
    /// The turns of a text fill the journal.
    TurnsFill,
    /// That line isn't of the logs.
    AnotherLog,
    /// The number of a step follows.
    StepAt,
    /// The law follows that a step breaks.
    BreaksLaw,
    /// The position of the item follows that a receive was to take.
    EarliestIs,
}

impl Phrase {
    /// The phrase.
    #[tactic(auto, unfolding(crate::specs::Lines::phrase_of))]
    pub(crate) fn text(self) -> &'static str
        ensures text { result.now ≡ phrase_of self }
        ensures short { length result.now ≤ 40 }
    {
        match self {
            Phrase::Program => "linx_sim: ",
            Phrase::LineEnd => "\n",
            Phrase::Colon => ": ",
            Phrase::NoWord => "no word '",
            Phrase::BehindWord => "'",
            Phrase::DidYouMean => ": did you mean '",
            Phrase::BehindNear => "'?",
            Phrase::TheWordsAre => "; the words are:",
            Phrase::UsageOfAll => "usage: linx_sim WORD ..; the words are:",
            Phrase::Usage => "usage: linx_sim ",
            Phrase::ScriptLine => "script line ",
            Phrase::NoSuchFile => "no such file",
            Phrase::IsFolder => "is a folder",
            Phrase::NotAllowed => "not allowed",
            Phrase::NotOpened => "can't be opened",
            Phrase::NoSuchFolder => "no such folder",
            Phrase::NotMade => "can't be made",
            Phrase::ReadFault => "read fault",
            Phrase::WriteFault => "write fault",
            Phrase::JournalFull => "journal full after step ",
            Phrase::ByTheLimit => ", by the limit of ",
            Phrase::StepLimit => "200000 steps",
            Phrase::ByteLimit => "67108864 bytes of signals",
            Phrase::OutOfMemory => "out of memory",
            Phrase::AfterStep => " after step ",
            Phrase::TornAt => "torn at ",
            Phrase::BadStreamAt => "bad stream at ",
            Phrase::FoundNone => "found in none",
            Phrase::TextLine => "text line ",
            Phrase::NoTextLine => ": no line of a printed text",
            Phrase::TooMuchNoted => ": more signals than a journal holds",
            Phrase::TextTooLong => "text longer than 268435456 bytes",
            Phrase::TooManyRows => "more than 6000 rows: map, fold or steps",
            Phrase::TooManyLanes => "more than 64 nodes, links or actors",
            Phrase::NoTextBehind => "no line `text` behind the script",
            Phrase::AnotherLine => ": the run has another line here",
            Phrase::TurnsFill => "the turns of the text fill the journal",
            Phrase::AnotherLog => ": the steps tell another log",
            Phrase::StepAt => "step ",
            Phrase::BreaksLaw => " breaks the law ",
            Phrase::EarliestIs => "; here the earliest is ",
        }
    }
}
