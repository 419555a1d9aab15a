//! The lines of a text, and the words of a line.

ghost use Rattle.std.specs.Prelude.{◌≡◌, ◌+◌, ◌∷◌, ◌<◌, length, map, IfOk};
ghost use Rattle.std.specs.List.{list_all};
ghost use Rattle.std.specs.Io.BufRead.{strip_last};
ghost use Rattle.script_words.specs.Gives.{Gives};
ghost use Rattle.script_words.specs.Lines.{lines_of, is_space, is_plain, is_comment, words_of};
ghost use Rattle.script_words.specs.Lines.{words_in};

use crate::bad_kind::BadKind;
use crate::fault::Fault;
use crate::line_error::LineError;
use crate::words::place_of_byte;
use std::alloc::{AllocError, Global};

/// The most bytes of a line, its line feed not counted.
const LINE_MOST: usize = 4096;

/// The first line, with its line feed where it has one, and the bytes behind it.
#[tactic(auto, using(crate::proofs::Cuts::lines_at, crate::proofs::Cuts::lines_none))]
pub fn first_line(bytes: &[u8]) -> (&[u8], &[u8])
    requires { 0 < length bytes.now }
    ensures lines { lines_of bytes.now ≡ result.0.now ∷ lines_of result.1.now }
    ensures advances { 0 < length result.0.now }
    ensures whole { length result.0.now + length result.1.now ≡ length bytes.now }
{
    match place_of_byte(bytes, b'\n') {
        Some(place) => bytes.split_at(place + 1),
        None => bytes.split_at(bytes.len()),
    }
}

/// A line without this byte at its end.
fn without_last(line: &[u8], byte: u8) -> &[u8]
    ensures { result.now ≡ strip_last byte line.now }
{
    match line {
        [text @ .., last] if *last == byte => text,
        _ => line,
    }
}

fn is_plain_byte(byte: u8) -> bool
    ensures { result ≡ is_plain byte }
{
    (b' ' <= byte && byte <= b'~') || byte == b'\t'
}

/// Whether all bytes are printable or tabs.
fn are_plain(text: &[u8]) -> bool
    ensures { result ≡ list_all is_plain text.now }
{
    text.iter().all(|byte| is_plain_byte(*byte))
}

fn is_blank(byte: u8) -> bool
    ensures { result ≡ is_space byte }
{
    byte == b' ' || byte == b'\t'
}

fn begins_comment(word: &[u8]) -> bool
    ensures { result ≡ is_comment word.now }
{
    match word {
        [first, ..] => *first == b'#',
        [] => false,
    }
}

/// The words of a plain text.
#[tactic(auto, unfolding(crate::specs::Lines::words_of))]
fn words(alloc: Global, text: &[u8]) -> Result<Vec<&[u8]>, AllocError>
    ensures { IfOk result (λ words. map (λ w. w.now) words.items ≡ words_of text.now) }
{
    text.split(|byte| is_blank(*byte))
        .filter(|word| !word.is_empty())
        .take_while(|word| !begins_comment(word))
        .collect(alloc)
}

/// The words of a line, which may end with a line feed.
#[tactic(auto, unfolding(crate::specs::Lines::words_in))]
pub fn words_of_line(alloc: Global, line: &[u8]) -> Result<Vec<&[u8]>, LineError>
    ensures { Gives (λ words. map (λ w. w.now) words.items) result (words_in line.now) }
{
    let text = without_last(line, b'\n');
    if text.len() > LINE_MOST {
        return Err(LineError::Bad(Fault::of(BadKind::LineTooLong)));
    }
    let text = without_last(text, b'\r');
    if !are_plain(text) {
        return Err(LineError::Bad(Fault::of(BadKind::BadByte)));
    }
    Ok(words(alloc, text)?)
}
