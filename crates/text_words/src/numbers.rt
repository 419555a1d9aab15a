//! Words as numbers.
ghost use Rattle.std.specs.Prelude.{◌≡◌, ◌≤◌, length, IsTrue, IfOk};
ghost use Rattle.std.specs.Char.{is_ascii_digit};
ghost use Rattle.std.specs.List.{list_all};
ghost use Rattle.text_words.specs.Gives.{Gives};
ghost use Rattle.text_words.specs.Numbers.{decimal_of, has_no_zero_in_front, are_digits};
ghost use Rattle.text_words.specs.Numbers.{number_in, u32_in, u64_in, halves_in};

use crate::read_error::ReadError;
use crate::words::cut;

/// The most digits of a number.
const DIGITS_MOST: usize = 20;

fn has_no_zero_in_front(word: &[u8]) -> bool
    ensures { result ≡ has_no_zero_in_front word.now }
{
    match word {
        [] => false,
        [_] => true,
        [first, ..] => *first != b'0',
    }
}

fn are_all_digits(word: &[u8]) -> bool
    ensures { result ≡ list_all is_ascii_digit word.now }
{
    word.iter().all(|byte| byte.is_ascii_digit())
}

fn are_digits(word: &[u8]) -> bool
    ensures { result ≡ are_digits word.now }
{
    let few = word.len() <= DIGITS_MOST;
    has_no_zero_in_front(word) && few && are_all_digits(word)
}

/// The number that decimal digits spell.
fn decimal(digits: &[u8]) -> u128
    requires few { length digits.now ≤ 20 }
    requires digits { IsTrue (list_all is_ascii_digit digits.now) }
    ensures { result ≡ decimal_of digits.now }
{
    let mut value = 0;
    for digit in digits {
        value = value * 10 + u128::from(*digit - b'0');
    }
    value
}

/// The number that a word spells in decimal digits, with no zero in front, if it is at most this
/// one; any other word is `Bad`.
#[tactic(auto, unfolding(crate::specs::Numbers::number_in))]
pub fn number(word: &[u8], most: u64) -> Result<u64, ReadError>
    ensures gives { Gives (λ n. n) result (number_in most word.now) }
    ensures within { IfOk result (λ n. n ≤ most) }
{
    if !are_digits(word) {
        return Err(ReadError::Bad);
    }
    let value = decimal(word);
    if value <= u128::from(most) {
        Ok(value as u64)
    } else {
        Err(ReadError::Bad)
    }
}

/// The word as a number of 64 bits in decimal digits; any other word is `Bad`.
pub fn u64_of(word: &[u8]) -> Result<u64, ReadError>
    ensures { Gives (λ n. n) result (u64_in word.now) }
{
    number(word, u64::MAX)
}

/// The word as a number of 32 bits in decimal digits; any other word is `Bad`.
pub fn u32_of(word: &[u8]) -> Result<u32, ReadError>
    ensures { Gives (λ n. n) result (u32_in word.now) }
{
    let value = number(word, u64::from(u32::MAX))?;
    Ok(value as u32)
}

/// The word as a number of 64 bits, spelled by its halves, as `2.1`; any other word is `Bad`.
#[tactic(auto, unfolding(crate::specs::Numbers::halves_in))]
pub fn halves_of(word: &[u8]) -> Result<u64, ReadError>
    ensures { Gives (λ n. n) result (halves_in word.now) }
{
    match cut(word, b'.') {
        Some((high, low)) => {
            let high = u32_of(high)?;
            let low = u32_of(low)?;
            Ok((u64::from(high) << 32) + u64::from(low))
        }
        None => Err(ReadError::Bad),
    }
}
