//! Which rule a number is.

ghost use Rattle.std.specs.Prelude.{◌≡◌, ◌<◌, ◌≤◌, ◌^◌};
ghost use Rattle.order_rules.specs.Seeds.{changes, rule_of};

use crate::bursts::Bursts;
use crate::dice::{below, words};
use crate::priorities::Priorities;
use crate::rule::Rule;
use rand_core::SeedableRng;
use rand_xoshiro::SplitMix64;

/// Turns that a die throws, so many of the first `span`, which are counted from 2^32 on.
fn changes(dice: &mut SplitMix64, depth: usize, span: u64) -> [u64; 5]
    requires few { depth ≤ 5 }
    requires some { 0 < span }
    requires short { span < 2 ^ 32 }
    ensures { (result, dice.new) ≡ changes span depth dice.old }
{
    let mut table = [0; 5];
    'places: for place in 0..depth {
        table[place] = (1 << 32) + below(dice, span);
    }
    table
}

/// The rule that a number decides: bursts, a walk or priorities. The priorities change at up to five
/// of the first `span` turns.
pub fn rule_of(span: u64, seed: u64) -> Rule
    requires some { 0 < span }
    requires short { span < 2 ^ 32 }
    ensures { result ≡ rule_of span seed }
{
    let mut dice = SplitMix64::seed_from_u64(seed);
    match seed % 3 {
        1 => Rule::Walk(dice),
        2 => {
            let ranks = words(&mut dice);
            let changes = changes(&mut dice, (seed / 3 % 6) as usize, span);
            Rule::Priorities(Priorities {
                ranks,
                changes,
                turn: 1 << 32,
            })
        }
        _ => {
            let words = words(&mut dice);
            Rule::Bursts(Bursts { dice, words })
        }
    }
}
