//! Words as filters.
ghost use Rattle.std.specs.Prelude.{◌≡◌, map};
ghost use Rattle.text_words.specs.Gives.{Gives};
ghost use Rattle.journal_words.specs.Filter.{numbers_of, listed_in, filter_by, filter_in};

use linx_base::Sequence;
use sigsel::{Numbers, Sigsel};
use std::alloc::Global;
use text_words::{ReadError, cut, is_text, split_at_byte, u32_of};

/// The words as numbers.
fn numbers(alloc: Global, words: &[&[u8]]) -> Result<Sequence<u32>, ReadError>
    ensures { Gives (λ v. v) result (numbers_of (map (λ w. w.now) words.now)) }
{
    let mut numbers = Sequence::new(alloc);
    for word in words {
        let number = u32_of(word)?;
        numbers.push(number)?;
    }
    Ok(numbers)
}

/// The numbers that a filter lists.
#[tactic(auto, unfolding(crate::specs::Filter::listed_in))]
fn listed(alloc: Global, word: &[u8]) -> Result<Numbers, ReadError>
    ensures { Gives (λ n. n) result (listed_in word.now) }
{
    if word.is_empty() {
        return Ok(Numbers::of(Vec::new(alloc))?);
    }
    let parts = split_at_byte(alloc, word, b',')?;
    let numbers = numbers(alloc, parts.as_slice())?;
    Ok(Numbers::of(numbers.into_vec())?)
}

/// The filter of a kind and of what it lists.
fn filter_by(alloc: Global, kind: &[u8], behind: &[u8]) -> Result<Sigsel, ReadError>
    ensures { Gives (λ f. f) result (filter_by (kind.now, behind.now)) }
{
    if is_text(kind, b"only") {
        return Ok(Sigsel::Only(listed(alloc, behind)?));
    }
    if is_text(kind, b"not") {
        return Ok(Sigsel::Not(listed(alloc, behind)?));
    }
    Err(ReadError::Bad)
}

/// The filter that a word spells.
#[tactic(auto, unfolding(crate::specs::Filter::filter_in))]
pub(crate) fn filter_of(alloc: Global, word: &[u8]) -> Result<Sigsel, ReadError>
    ensures { Gives (λ f. f) result (filter_in word.now) }
{
    if is_text(word, b"any") {
        return Ok(Sigsel::Any);
    }
    match cut(word, b':') {
        Some((kind, behind)) => filter_by(alloc, kind, behind),
        None => Err(ReadError::Bad),
    }
}
