ghost use Rattle.std.specs.Prelude.{◌≡◌};
ghost use Rattle.script_words.specs.Faults.{bad_shape, unknown_word};
ghost use Rattle.script_words.specs.declared.line_error.LineError.TheVariants as errors;

use crate::bad_kind::BadKind;
use crate::fault::Fault;
use linx_base::NoMemory;
use std::alloc::AllocError;
use std::error::Error;
use std::fmt;

/// Why a line wasn't taken.
#[derive(Clone, Copy, Debug, PartialEq, Eq, Hash)]
pub enum LineError {
    Bad(Fault),
    NoMemory,
}

/// The word isn't as the statement needs it.
pub(crate) fn bad_shape(word: &[u8]) -> LineError
    ensures { result ≡ errors.Bad (bad_shape word.now) }
{
    LineError::Bad(Fault::about(BadKind::BadShape, word))
}

/// The word begins no statement of this place.
pub(crate) fn unknown_word(word: &[u8]) -> LineError
    ensures { result ≡ errors.Bad (unknown_word word.now) }
{
    LineError::Bad(Fault::about(BadKind::UnknownWord, word))
}

impl fmt::Display for LineError {
    ghost use Rattle.std.specs.Prelude.{Some};
    ghost use Rattle.script_words.specs.Failures.{line_error_text};

    ghost output = { λ error. Some (line_error_text error) };

    fn fmt<W: fmt::Write>(&self, f: &mut fmt::Formatter<W>) -> fmt::Result {
        match self {
            LineError::Bad(fault) => write!(f, "{fault}"),
            LineError::NoMemory => f.write_str("out of memory"),
        }
    }
}

impl Error for LineError {}

impl From<NoMemory> for LineError {
    ghost from_gives = { λ _ e. e ≡ errors.NoMemory };

    fn from(_refusal: NoMemory) -> LineError {
        LineError::NoMemory
    }
}

impl From<AllocError> for LineError {
    ghost from_gives = { λ _ e. e ≡ errors.NoMemory };

    fn from(_refusal: AllocError) -> LineError {
        LineError::NoMemory
    }
}
