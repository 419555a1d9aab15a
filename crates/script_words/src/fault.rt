ghost use Rattle.std.specs.Prelude.{◌≡◌, []};
ghost use Rattle.script_words.specs.Faults.{bad};
ghost use Rattle.script_words.specs.Failures.{reason_of};

use crate::bad_kind::BadKind;
use crate::word::Word;
use arrayvec::ArrayString;
use std::fmt;

/// What is wrong with a line, and the word that it is about; no byte of it where it is about none.
#[derive(Clone, Copy, Debug, PartialEq, Eq, Hash)]
pub struct Fault {
    pub kind: BadKind,
    pub word: Word,
}

impl Fault {
    /// What is wrong with a line, about no word.
    pub fn of(kind: BadKind) -> Fault
        ensures { result ≡ bad kind [] }
    {
        Fault::about(kind, b"")
    }

    /// What is wrong with a line, about this word.
    pub fn about(kind: BadKind, word: &[u8]) -> Fault
        ensures { result ≡ bad kind word.now }
    {
        Fault {
            kind,
            word: Word::of(word),
        }
    }

    /// What is wrong, in words, and behind a colon the word that it is about, if there is one.
    /// All is printable.
    pub fn reason(&self) -> ArrayString<128>
        ensures reason { result.bytes ≡ reason_of self.now }
    {
        let mut reason = ArrayString::new();
        reason.push_str(self.kind.phrase());
        if !self.word.is_empty() {
            reason.push_str(": ");
            reason.push_str(self.word.text().as_str());
        }
        reason
    }
}

impl fmt::Display for Fault {
    ghost use Rattle.std.specs.Prelude.{Some};

    ghost output = { λ fault. Some (reason_of fault) };

    fn fmt<W: fmt::Write>(&self, f: &mut fmt::Formatter<W>) -> fmt::Result {
        f.write_str(self.reason().as_str())
    }
}
