//! The first line of a text that has these words.

ghost use Rattle.std.specs.Prelude.{◌≡◌, drop, map, option_map, string_bytes, IfOk};
ghost use Rattle.std.specs.Char.{is_ascii_digit};
ghost use Rattle.std.specs.List.{list_all};
ghost use Rattle.line_search.specs.Search.{begins_with, find_in, has, is_gap, said, stands_for};
ghost use Rattle.line_search.specs.Search.{words_of};

use linx_base::NoMemory;
use script_words::first_line;
use std::alloc::{AllocError, Global};

fn is_gap(byte: u8) -> bool
    ensures { result ≡ is_gap byte }
{
    byte == b' ' || byte == b'\n'
}

/// The words of a line.
#[tactic(auto, unfolding(crate::specs::Search::words_of))]
fn words_of(alloc: Global, line: &[u8]) -> Result<Vec<&[u8]>, AllocError>
    ensures { IfOk result (λ words. map (λ w. w.now) words.items ≡ words_of line.now) }
{
    line.split(|byte| is_gap(*byte))
        .filter(|word| !word.is_empty())
        .collect(alloc)
}

fn is_number(word: &[u8]) -> bool
    ensures { result ≡ list_all is_ascii_digit word.now }
{
    word.iter().all(|byte| byte.is_ascii_digit())
}

/// The words behind the first one.
fn behind_first<'a, 'b>(words: &'a [&'b [u8]]) -> &'a [&'b [u8]]
    ensures { map (λ w. w.now) result.now ≡ drop 1 (map (λ w. w.now) words.now) }
{
    match words {
        [_, behind @ ..] => behind,
        [] => words,
    }
}

/// What a line says, by its words: what stands behind the number and the maker of a step, and behind
/// the `+` of an effect.
fn said<'a, 'b>(words: &'a [&'b [u8]]) -> &'a [&'b [u8]]
    ensures { map (λ w. w.now) result.now ≡ said (map (λ w. w.now) words.now) }
{
    match words {
        [] => words,
        [first, behind @ ..] => {
            if *first == b"+".as_slice() {
                behind
            } else if is_number(first) {
                behind_first(behind)
            } else {
                words
            }
        }
    }
}

/// Whether a wanted word stands for this one.
fn stands_for(wanted: &str, word: &[u8]) -> bool
    ensures { result ≡ stands_for wanted.now word.now }
{
    wanted == "_" || wanted.as_bytes() == word
}

/// Whether words begin with those wanted.
fn begins_with(wanted: &[String], words: &[&[u8]]) -> bool
    ensures { result ≡ begins_with (map string_bytes wanted.now) (map (λ w. w.now) words.now) }
{
    let mut rest = words;
    'wanted: for want in wanted {
        match rest {
            [word, behind @ ..] if stands_for(want.as_str(), word) => rest = behind,
            _ => return false,
        }
    }
    true
}

/// Whether what a line says begins with these words.
#[tactic(auto, unfolding(crate::specs::Search::has))]
fn has(alloc: Global, line: &[u8], wanted: &[String]) -> Result<bool, AllocError>
    ensures { IfOk result (λ found. found ≡ has (map string_bytes wanted.now) line.now) }
{
    let words = words_of(alloc, line)?;
    Ok(begins_with(wanted, said(words.as_slice())))
}

/// The first line of a text that says these words, with its line feed; `None` where there is none.
pub fn find<'a>(
    alloc: Global,
    text: &'a [u8],
    wanted: &[String],
) -> Result<Option<&'a [u8]>, NoMemory>
    ensures { IfOk result (λ found.
        option_map (λ line. line.now) found ≡ find_in (map string_bytes wanted.now) text.now) }
{
    let mut rest = text;
    'lines: while !rest.is_empty() {
        let (line, behind) = first_line(rest);
        if has(alloc, line, wanted)? {
            return Ok(Some(line));
        }
        rest = behind;
    }
    Ok(None)
}
