//! Words as the filter of a receive.

ghost use Rattle.std.specs.Prelude.{◌≡◌, true, map, IfOk};
ghost use Rattle.script_words.specs.Gives.{Gives};
ghost use Rattle.script_words.specs.Filter.{fits_filter, listed_of, filter_of};

use crate::line_error::{LineError, bad_shape};
use crate::numbers::numbers;
use crate::words::{alone, is_text};
use sigsel::{Numbers, Sigsel};
use std::alloc::Global;

/// The most numbers of a filter.
const NUMBERS_MOST: usize = 64;

/// The numbers that a filter lists behind a word.
fn listed(alloc: Global, word: &[u8], words: &[&[u8]]) -> Result<Numbers, LineError>
    ensures { Gives (λ n. n) result (listed_of word.now (map (λ w. w.now) words.now)) }
{
    let numbers = numbers(alloc, words)?;
    if numbers.is_empty() || numbers.len() > NUMBERS_MOST {
        return Err(bad_shape(word));
    }
    Ok(Numbers::of(numbers.into_vec())?)
}

/// What a receive selects, by the words behind its statement.
#[tactic(auto, unfolding(crate::specs::Filter::filter_of))]
pub(crate) fn filter(alloc: Global, statement: &[u8], words: &[&[u8]]) -> Result<Sigsel, LineError>
    ensures gives { Gives (λ f. f) result
        (filter_of statement.now (map (λ w. w.now) words.now)) }
    ensures fits { IfOk result (λ f. fits_filter f ≡ true) }
{
    let [first, rest @ ..] = words else {
        return Err(bad_shape(statement));
    };
    if is_text(first, b"any") {
        return alone(rest, Sigsel::Any);
    }
    if is_text(first, b"not") {
        let listed = listed(alloc, first, rest)?;
        return Ok(Sigsel::Not(listed));
    }
    let listed = listed(alloc, statement, words)?;
    Ok(Sigsel::Only(listed))
}
