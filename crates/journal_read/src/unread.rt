ghost use Rattle.std.specs.Prelude.{◌≡◌};
ghost use Rattle.journal_read.specs.declared.unread.Unread.TheVariants as reasons;

use std::alloc::AllocError;
use std::error::Error;
use std::fmt;

/// Why a text gave no journal.
#[derive(Clone, Copy, Debug, PartialEq, Eq, Hash)]
pub enum Unread {
    /// The first line, from 1, that no printed text has there: a line that spells nothing or stands
    /// out of turn, or the line that a text lacks which ends too early.
    Bad { line: u64 },
    /// The first line, from 1, with which the steps note more bytes of signals than those of four
    /// full journals.
    Full { line: u64 },
    NoMemory,
}

impl fmt::Display for Unread {
    ghost use Rattle.std.specs.Prelude.{Some};
    ghost use Rattle.journal_read.specs.Failures.{unread_text};

    ghost output = { λ error. Some (unread_text error) };

    fn fmt<W: fmt::Write>(&self, f: &mut fmt::Formatter<W>) -> fmt::Result {
        match self {
            Unread::Bad { line } => write!(f, "line {line}: not the line of a journal's text"),
            Unread::Full { line } => write!(f, "line {line}: more than a journal holds"),
            Unread::NoMemory => f.write_str("out of memory"),
        }
    }
}

impl Error for Unread {}

impl From<AllocError> for Unread {
    ghost from_gives = { λ _ e. e ≡ reasons.NoMemory };

    fn from(_refusal: AllocError) -> Unread {
        Unread::NoMemory
    }
}
