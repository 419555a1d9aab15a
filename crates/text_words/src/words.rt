//! What a word is, where it is cut, and the words of a line.
ghost use Rattle.std.specs.Prelude.{◌≡◌, ◌==◌, map, position, option_map, IfOk};
ghost use Rattle.std.specs.Str.{bytes_eq};
ghost use Rattle.text_words.specs.Words.{after, alone, but_last, cut_at, last_of, only, parts_at};
ghost use Rattle.text_words.specs.Words.{words_of};
ghost use Rattle.text_words.specs.Gives.{Gives};

use crate::read_error::ReadError;
use std::alloc::{AllocError, Global};

/// Whether the word is this text.
pub fn is_text(word: &[u8], text: &[u8]) -> bool
    ensures { result ≡ bytes_eq word.now text.now }
{
    word == text
}

/// The place of the first such byte.
fn place_of_byte(word: &[u8], byte: u8) -> Option<usize>
    ensures { result ≡ position (λ b. b == byte) word.now }
{
    word.iter().position(|b| *b == byte)
}

/// What stands before the first such byte, and what behind it; `None` exactly where there is no
/// such byte.
pub fn cut(word: &[u8], byte: u8) -> Option<(&[u8], &[u8])>
    ensures { option_map (λ x. (x.0.now, x.1.now)) result ≡ cut_at byte word.now }
{
    match place_of_byte(word, byte) {
        Some(place) => Some((&word[..place], &word[place + 1..])),
        None => None,
    }
}

/// The parts between such bytes: one more than there are such bytes.
pub fn split_at_byte(alloc: Global, text: &[u8], byte: u8) -> Result<Vec<&[u8]>, AllocError>
    ensures { IfOk result (λ parts. map (λ w. w.now) parts.items ≡ parts_at byte text.now) }
{
    text.split(|b| *b == byte).collect(alloc)
}

/// The words of a line: what stands between its spaces.
pub fn split_words(alloc: Global, line: &[u8]) -> Result<Vec<&[u8]>, AllocError>
    ensures { IfOk result (λ words. map (λ w. w.now) words.items ≡ words_of line.now) }
{
    split_at_byte(alloc, line, b' ')
}

/// Takes the last part off those before it; no bytes where there is no part.
#[tactic(auto, using(crate::proofs::Ends::but_last_ends, crate::proofs::Ends::last_of_ends))]
pub fn take_last<'a>(parts: &mut Vec<&'a [u8]>) -> &'a [u8]
    ensures before { map (λ p. p.now) parts.new.items
        ≡ but_last (map (λ p. p.now) parts.old.items) }
    ensures last { result.now ≡ last_of (map (λ p. p.now) parts.old.items) }
{
    match parts.pop() {
        Some(last) => last,
        None => &[],
    }
}

/// What follows this text at the word's front; `None` exactly where the word doesn't begin with it.
pub fn behind<'a>(word: &'a [u8], text: &[u8]) -> Option<&'a [u8]>
    ensures { option_map (λ x. x.now) result ≡ after text.now word.now }
{
    word.strip_prefix(text)
}

/// The word, where it is the only one; no word, and more than one, are `Bad`.
pub fn only<'a>(words: &[&'a [u8]]) -> Result<&'a [u8], ReadError>
    ensures { Gives (λ w. w.now) result (only (map (λ w. w.now) words.now)) }
{
    match words {
        [word] => Ok(*word),
        _ => Err(ReadError::Bad),
    }
}

/// The value, where no words follow; else they are `Bad`.
pub fn alone<T: Drop>(words: &[&[u8]], value: T) -> Result<T, ReadError>
    ensures { Gives (λ v. v) result (alone (map (λ w. w.now) words.now) value) }
{
    match words {
        [] => Ok(value),
        _ => Err(ReadError::Bad),
    }
}
