ghost use Rattle.std.specs.Prelude.{◌≡◌, ◌≤◌, length};
ghost use Rattle.script_words.specs.Failures.{phrase_of};

use std::fmt;

/// What is wrong with a line. Where several hold, it is the first of these.
#[derive(Clone, Copy, Debug, PartialEq, Eq, Hash)]
pub enum BadKind {
    /// The line holds byte 1,048,577 of the script; a line holds its own line feed.
    ScriptTooLong,
    /// The line has more than 4,096 bytes, its line feed not counted.
    LineTooLong,
    /// The line has a byte that isn't printable, a tab, or a carriage return at the line's end.
    BadByte,
    /// The first word is no statement that is allowed here.
    UnknownWord,
    /// The number, the spelling or the range of the words isn't that of the statement.
    BadShape,
    /// No earlier line declares this node or link, or the link has no end on the actor's node.
    UnknownName,
    /// An earlier line gave this name to another of the kind, or a link's two nodes are one.
    TwiceNamed,
    /// The line passes a limit, or ends a repeated block that does.
    OverLimit,
    /// The last line of the script, and a block isn't ended.
    Unfinished,
}

impl BadKind {
    /// What is wrong, in words.
    pub fn phrase(self) -> &'static str
        ensures phrase { result.now ≡ phrase_of self }
        ensures short { length result.now ≤ 62 }
    {
        match self {
            BadKind::ScriptTooLong => "the script is longer than 1,048,576 bytes",
            BadKind::LineTooLong => "the line is longer than 4,096 bytes",
            BadKind::BadByte => "the line has a byte that is no printable character",
            BadKind::UnknownWord => "no statement begins with this word here",
            BadKind::BadShape => "a word is wrong, missing or one too many",
            BadKind::UnknownName => "no node or link has this name here",
            BadKind::TwiceNamed => "this name stands twice",
            BadKind::OverLimit => "this is more than a script may have",
            BadKind::Unfinished => "an `end` is missing behind this line",
        }
    }
}

impl fmt::Display for BadKind {
    ghost use Rattle.std.specs.Prelude.{Some};

    ghost output = { λ kind. Some (phrase_of kind) };

    fn fmt<W: fmt::Write>(&self, f: &mut fmt::Formatter<W>) -> fmt::Result {
        f.write_str(self.phrase())
    }
}
