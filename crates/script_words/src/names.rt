//! Words as names.

ghost use Rattle.std.specs.Prelude.{map};
ghost use Rattle.script_words.specs.Gives.{Gives};
ghost use Rattle.script_words.specs.Words.{only};
ghost use Rattle.script_words.specs.Names.{name_in, name_of, kept_name_of, one_name_of};

use crate::line_error::{LineError, bad_shape};
use crate::words::{is_text, only};
use linx_base::{Name, NameError};
use std::alloc::Global;

/// A part of the word as a name.
pub(crate) fn name_in(alloc: Global, word: &[u8], part: &[u8]) -> Result<Name, LineError>
    ensures { Gives (λ n. n) result (name_in word.now part.now) }
{
    match Name::of(alloc, part) {
        Ok(name) => Ok(name),
        Err(NameError::BadName) => Err(bad_shape(word)),
        Err(NameError::NoMemory) => Err(LineError::NoMemory),
    }
}

/// The word as a name.
pub(crate) fn name(alloc: Global, word: &[u8]) -> Result<Name, LineError>
    ensures { Gives (λ n. n) result (name_of word.now) }
{
    name_in(alloc, word, word)
}

/// The only word as a name.
pub(crate) fn one_name(alloc: Global, statement: &[u8], words: &[&[u8]]) -> Result<Name, LineError>
    ensures { Gives (λ n. n) result
        (one_name_of statement.now (map (λ w. w.now) words.now)) }
{
    name(alloc, only(statement, words)?)
}

/// A name for a peer, which isn't `self` or `last`.
#[tactic(auto, unfolding(crate::specs::Names::kept_name_of))]
pub(crate) fn kept_name(alloc: Global, word: &[u8]) -> Result<Name, LineError>
    ensures { Gives (λ n. n) result (kept_name_of word.now) }
{
    if is_text(word, b"self") || is_text(word, b"last") {
        return Err(bad_shape(word));
    }
    name(alloc, word)
}
