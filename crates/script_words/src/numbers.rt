//! Words as numbers.

ghost use Rattle.std.specs.Prelude.{◌≡◌, ◌≤◌, true, length, map, IfOk, IsTrue};
ghost use Rattle.std.specs.Char.{is_ascii_digit};
ghost use Rattle.std.specs.List.{list_all};
ghost use Rattle.script_words.specs.Limits.{digit_limit};
ghost use Rattle.script_words.specs.Gives.{Gives};
ghost use Rattle.script_words.specs.Numbers.{decimal_of, number_spelled, is_within, number_in};
ghost use Rattle.script_words.specs.Numbers.{within, any_number, numbers_of, number_or};

use crate::line_error::{LineError, bad_shape};
use linx_base::Sequence;
use std::alloc::Global;

/// The most digits of a number.
const DIGITS_MOST: usize = 10;

fn are_digits(word: &[u8]) -> bool
    ensures { result ≡ list_all is_ascii_digit word.now }
{
    word.iter().all(|byte| byte.is_ascii_digit())
}

/// The number that decimal digits spell.
fn decimal(digits: &[u8]) -> u64
    requires few { length digits.now ≤ digit_limit }
    requires digits { IsTrue (list_all is_ascii_digit digits.now) }
    ensures { result ≡ decimal_of digits.now }
{
    let mut value = 0;
    for digit in digits {
        value = value * 10 + u64::from(*digit - b'0');
    }
    value
}

/// The number of a word of one to ten digits, if it is below 2^32.
#[tactic(auto, unfolding(crate::specs::Numbers::number_spelled))]
pub(crate) fn number(word: &[u8]) -> Option<u32>
    ensures { result ≡ number_spelled word.now }
{
    let some = 1 <= word.len();
    let few = word.len() <= DIGITS_MOST;
    if !(some && few && are_digits(word)) {
        return None;
    }
    let value = decimal(word);
    if value <= u64::from(u32::MAX) {
        Some(value as u32)
    } else {
        None
    }
}

/// The number of a part of the word, in a range.
pub(crate) fn number_in(word: &[u8], part: &[u8], low: u32, high: u32) -> Result<u32, LineError>
    ensures gives { Gives (λ n. n) result (number_in word.now part.now low high) }
    ensures within { IfOk result (λ n. is_within low high n ≡ true) }
{
    match number(part) {
        Some(number) if low <= number && number <= high => Ok(number),
        _ => Err(bad_shape(word)),
    }
}

/// The word as a number in a range.
pub(crate) fn number_within(word: &[u8], low: u32, high: u32) -> Result<u32, LineError>
    ensures gives { Gives (λ n. n) result (within low high word.now) }
    ensures within { IfOk result (λ n. is_within low high n ≡ true) }
{
    number_in(word, word, low, high)
}

/// The word as a number.
pub(crate) fn any_number(word: &[u8]) -> Result<u32, LineError>
    ensures { Gives (λ n. n) result (any_number word.now) }
{
    number_within(word, 0, u32::MAX)
}

/// A number, where the first word is one, and the words behind it.
pub(crate) fn number_or<'a, 'b>(unsaid: u32, words: &'a [&'b [u8]]) -> (u32, &'a [&'b [u8]])
    ensures { (result.0, map (λ w. w.now) result.1.now)
        ≡ number_or unsaid (map (λ w. w.now) words.now) }
{
    match words {
        [word, rest @ ..] => match number(word) {
            Some(number) => (number, rest),
            None => (unsaid, words),
        },
        [] => (unsaid, words),
    }
}

/// The words as numbers.
pub(crate) fn numbers(alloc: Global, words: &[&[u8]]) -> Result<Sequence<u32>, LineError>
    ensures { Gives (λ n. n) result (numbers_of (map (λ w. w.now) words.now)) }
{
    let mut numbers = Sequence::new(alloc);
    for word in words {
        let number = any_number(word)?;
        numbers.push(number)?;
    }
    Ok(numbers)
}
