//! A word of an order: so many turns of a maker.

ghost use Rattle.std.specs.Prelude.{◌≡◌, ◌≤◌, ◌==◌, length, option_map, position, IfOk, IsTrue};
ghost use Rattle.std.specs.Char.{is_ascii_digit};
ghost use Rattle.std.specs.List.{list_all};
ghost use Rattle.order_lines.specs.Turns.{maker_named, number_spelled, numbered, times_in};
ghost use Rattle.order_lines.specs.Turns.{turns_spelled};
ghost use Rattle.script_words.specs.Faults.{bad};
ghost use Rattle.script_words.specs.Gives.{Gives};
ghost use Rattle.script_words.specs.Numbers.{decimal_of};
ghost use Rattle.script_words.specs.Words.{cut_at};
ghost use Rattle.script_words.specs.declared.line_error.LineError.TheVariants as errors;

use script_words::{BadKind, Fault, LineError};

/// The most digits of a number.
const DIGITS_MOST: usize = 6;

/// The most turns that come first.
pub(crate) const TURNS_MOST: u32 = 200_000;

/// The makers of a script: so many actors, and so many links.
#[derive(Clone, Copy, Debug, PartialEq, Eq, Hash)]
pub struct Makers {
    pub actors: u32,
    pub links: u32,
}

/// So many turns of a maker.
#[derive(Clone, Copy, Debug, PartialEq, Eq, Hash)]
pub struct Turns {
    pub maker: u32,
    pub times: u32,
}

/// What is wrong with a word.
pub(crate) fn wrong(kind: BadKind, word: &[u8]) -> LineError
    ensures { result ≡ errors.Bad (bad kind word.now) }
{
    LineError::Bad(Fault::about(kind, word))
}

fn are_digits(word: &[u8]) -> bool
    ensures { result ≡ list_all is_ascii_digit word.now }
{
    word.iter().all(|byte| byte.is_ascii_digit())
}

/// The number that a few decimal digits spell.
fn decimal(digits: &[u8]) -> u32
    requires few { length digits.now ≤ 6 }
    requires digits { IsTrue (list_all is_ascii_digit digits.now) }
    ensures { result ≡ decimal_of digits.now }
{
    let mut value = 0;
    'digits: for digit in digits {
        value = value * 10 + u32::from(*digit - b'0');
    }
    value
}

/// The number of a word of one to six digits.
fn number(word: &[u8]) -> Option<u32>
    ensures { result ≡ number_spelled word.now }
{
    let some = 1 <= word.len();
    let few = word.len() <= DIGITS_MOST;
    if some && few && are_digits(word) {
        Some(decimal(word))
    } else {
        None
    }
}

/// The maker of a number among so many, which have their numbers behind those before.
fn numbered(word: &[u8], before: u32, many: u32, digits: &[u8]) -> Result<u32, LineError>
    requires before { before ≤ 64 }
    requires many { many ≤ 64 }
    ensures { Gives (λ n. n) result (numbered word.now before many (number_spelled digits.now)) }
{
    match number(digits) {
        None => Err(wrong(BadKind::BadShape, word)),
        Some(number) if 1 <= number && number <= many => Ok(before + number),
        Some(_) => Err(wrong(BadKind::UnknownName, word)),
    }
}

/// The maker that a part of a word names.
fn maker_named(makers: Makers, word: &[u8], name: &[u8]) -> Result<u32, LineError>
    requires actors { makers.actors ≤ 64 }
    requires links { makers.links ≤ 64 }
    ensures { Gives (λ n. n) result (maker_named makers word.now name.now) }
{
    match name {
        [b'A', digits @ ..] => numbered(word, 0, makers.actors, digits),
        [b'P', digits @ ..] => numbered(word, makers.actors, makers.links, digits),
        _ => Err(wrong(BadKind::BadShape, word)),
    }
}

/// The place of the first star.
fn star_in(word: &[u8]) -> Option<usize>
    ensures { result ≡ position (λ b. b == 42) word.now }
{
    word.iter().position(|byte| *byte == b'*')
}

/// What stands before a star, and what behind it.
fn cut(word: &[u8]) -> Option<(&[u8], &[u8])>
    ensures { option_map (λ parts. (parts.0.now, parts.1.now)) result ≡ cut_at 42 word.now }
{
    match star_in(word) {
        Some(place) => Some((&word[..place], &word[place + 1..])),
        None => None,
    }
}

/// How often a maker has its turn, by what stands behind the star.
fn times_in(word: &[u8], digits: &[u8]) -> Result<u32, LineError>
    ensures gives { Gives (λ n. n) result (times_in word.now (number_spelled digits.now)) }
    ensures few { IfOk result (λ n. n ≤ 200000) }
{
    match number(digits) {
        Some(times) if 1 <= times && times <= TURNS_MOST => Ok(times),
        _ => Err(wrong(BadKind::BadShape, word)),
    }
}

/// The turns that a word spells.
pub(crate) fn turns_spelled(makers: Makers, word: &[u8]) -> Result<Turns, LineError>
    requires actors { makers.actors ≤ 64 }
    requires links { makers.links ≤ 64 }
    ensures gives { Gives (λ t. t) result (turns_spelled makers word.now) }
    ensures few { IfOk result (λ turns. turns.times ≤ 200000) }
{
    match cut(word) {
        None => Ok(Turns {
            maker: maker_named(makers, word, word)?,
            times: 1,
        }),
        Some((name, digits)) => {
            let maker = maker_named(makers, word, name)?;
            let times = times_in(word, digits)?;
            Ok(Turns { maker, times })
        }
    }
}
