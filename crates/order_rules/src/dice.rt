//! What a die throws.

ghost use Rattle.std.specs.Prelude.{◌≡◌, ◌<◌, length, slice_index_or, slice_set};
ghost use Rattle.order_rules.specs.Dice.{below, word, words};
ghost use Rattle.order_rules.specs.Rules.{thrown};

use rand_core::utils::NextWord;
use rand_xoshiro::SplitMix64;

/// A number below this one.
#[tactic(auto, unfolding(crate::specs::Dice::below))]
pub(crate) fn below(dice: &mut SplitMix64, bound: u64) -> u64
    requires { 0 < bound }
    ensures value { (result, dice.new) ≡ below bound dice.old }
    ensures less { result < bound }
{
    dice.next_word() % bound
}

/// A word of 32 bits.
#[tactic(auto, unfolding(crate::specs::Dice::word))]
pub(crate) fn word(dice: &mut SplitMix64) -> u64
    ensures { (result, dice.new) ≡ word dice.old }
{
    dice.next_word() >> 32
}

/// A word for each number up to 96.
pub(crate) fn words(dice: &mut SplitMix64) -> [u64; 97]
    ensures { (result, dice.new) ≡ words 97 dice.old }
{
    let mut table = [0; 97];
    'places: for place in 0..97 {
        table[place] = word(dice);
    }
    table
}

/// One of these makers.
#[tactic(auto, unfolding(crate::specs::Rules::thrown))]
pub(crate) fn thrown(dice: &mut SplitMix64, ready: &[u32]) -> u32
    requires { 0 < length ready.now }
    ensures { (result, dice.new) ≡ thrown dice.old ready.now }
{
    ready[below(dice, ready.len() as u64) as usize]
}

/// The word of a maker; 0 where the table has none.
pub(crate) fn word_of(table: &[u64; 97], maker: u32) -> u64
    ensures { result ≡ slice_index_or table.now maker 0 }
{
    match table.get(maker as usize) {
        Some(word) => *word,
        None => 0,
    }
}

/// Gives a maker this word; changes nothing where the table has no place for it.
#[tactic(auto, using(std::proofs::lemmas::List::set_past))]
pub(crate) fn set_word(table: &mut [u64; 97], maker: u32, word: u64)
    ensures { table.new ≡ slice_set table.old maker word }
{
    if (maker as usize) < table.len() {
        table[maker as usize] = word;
    }
}
