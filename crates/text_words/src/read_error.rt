ghost use Rattle.std.specs.Prelude.{◌≡◌};
ghost use Rattle.text_words.specs.declared.read_error.ReadError.TheVariants as errors;

use linx_base::NoMemory;
use std::alloc::AllocError;
use std::error::Error;
use std::fmt;

/// Why words gave no value.
#[derive(Clone, Copy, Debug, PartialEq, Eq, Hash)]
pub enum ReadError {
    /// They are no value's spelling.
    Bad,
    NoMemory,
}

impl fmt::Display for ReadError {
    ghost use Rattle.std.specs.Prelude.{Some};
    ghost use Rattle.text_words.specs.Failures.{error_text};

    ghost output = { λ error. Some (error_text error) };

    fn fmt<W: fmt::Write>(&self, f: &mut fmt::Formatter<W>) -> fmt::Result {
        f.write_str(match self {
            ReadError::Bad => "the words spell no value",
            ReadError::NoMemory => "out of memory",
        })
    }
}

impl Error for ReadError {}

impl From<NoMemory> for ReadError {
    ghost from_gives = { λ _ e. e ≡ errors.NoMemory };

    fn from(_refusal: NoMemory) -> ReadError {
        ReadError::NoMemory
    }
}

impl From<AllocError> for ReadError {
    ghost from_gives = { λ _ e. e ≡ errors.NoMemory };

    fn from(_refusal: AllocError) -> ReadError {
        ReadError::NoMemory
    }
}
