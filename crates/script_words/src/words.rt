//! What a word is, where it is cut, and how many stand behind the first one of a line.

ghost use Rattle.std.specs.Prelude.{◌≡◌, ◌==◌, map, position, option_map};
ghost use Rattle.std.specs.Str.{bytes_eq};
ghost use Rattle.script_words.specs.Gives.{Gives};
ghost use Rattle.script_words.specs.Words.{cut_at, only, alone};

use crate::line_error::{LineError, bad_shape};

/// Whether the word is this text.
pub(crate) fn is_text(word: &[u8], text: &[u8]) -> bool
    ensures { result ≡ bytes_eq word.now text.now }
{
    word == text
}

/// The word, where it is the only one behind that statement.
pub(crate) fn only<'a>(statement: &[u8], words: &[&'a [u8]]) -> Result<&'a [u8], LineError>
    ensures { Gives (λ w. w.now) result (only statement.now (map (λ w. w.now) words.now)) }
{
    match words {
        [word] => Ok(*word),
        [_word, more, ..] => Err(bad_shape(more)),
        [] => Err(bad_shape(statement)),
    }
}

/// The value, where no words follow.
pub(crate) fn alone<T: Drop>(words: &[&[u8]], value: T) -> Result<T, LineError>
    ensures { Gives (λ v. v) result (alone (map (λ w. w.now) words.now) value) }
{
    match words {
        [] => Ok(value),
        [word, ..] => Err(bad_shape(word)),
    }
}

/// The place of the first such byte.
pub(crate) fn place_of_byte(word: &[u8], byte: u8) -> Option<usize>
    ensures { result ≡ position (λ b. b == byte) word.now }
{
    word.iter().position(|b| *b == byte)
}

/// What stands before the first such byte, and what behind it.
pub(crate) fn cut(word: &[u8], byte: u8) -> Option<(&[u8], &[u8])>
    ensures { option_map (λ x. (x.0.now, x.1.now)) result ≡ cut_at byte word.now }
{
    match place_of_byte(word, byte) {
        Some(place) => Some((&word[..place], &word[place + 1..])),
        None => None,
    }
}
