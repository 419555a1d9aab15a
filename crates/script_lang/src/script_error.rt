ghost use Rattle.std.specs.Prelude.{◌≡◌};
ghost use Rattle.script_lang.specs.Reading.{error_in};

use script_words::{Fault, LineError};
use std::error::Error;
use std::fmt;

/// Why bytes are no script.
#[derive(Clone, Copy, Debug, PartialEq, Eq, Hash)]
pub enum ScriptError {
    /// The first bad line, from 1, and what is wrong with it.
    Bad { line: u32, fault: Fault },
    NoMemory,
}

impl fmt::Display for ScriptError {
    ghost use Rattle.std.specs.Prelude.{Some};
    ghost use Rattle.script_lang.specs.Failures.{script_error_text};

    ghost output = { λ error. Some (script_error_text error) };

    fn fmt<W: fmt::Write>(&self, f: &mut fmt::Formatter<W>) -> fmt::Result {
        match self {
            ScriptError::Bad { line, fault } => write!(f, "line {line}: {fault}"),
            ScriptError::NoMemory => f.write_str("out of memory"),
        }
    }
}

impl Error for ScriptError {}

impl ScriptError {
    /// What is wrong with the line of this number.
    pub(crate) fn at(line: u32, error: LineError) -> ScriptError
        ensures { result ≡ error_in error line }
    {
        match error {
            LineError::Bad(fault) => ScriptError::Bad { line, fault },
            LineError::NoMemory => ScriptError::NoMemory,
        }
    }
}
