//! Numbers that look random, always the same ones.

use linx_base::Side;
use rand_core::{Rng, SeedableRng};
use rand_xoshiro::Xoshiro256PlusPlus;

/// The numbers by which a long run chooses what happens.
#[derive(Drop)]
pub struct Random {
    words: Xoshiro256PlusPlus,
}

impl Random {
    /// The numbers of this seed.
    pub fn new(seed: u64) -> Random {
        Random {
            words: Xoshiro256PlusPlus::seed_from_u64(seed),
        }
    }

    /// The next number.
    pub fn next(&mut self) -> u64 {
        self.words.next_u64()
    }

    /// What the upper 32 bits of the next number leave when they are divided by the bound; 0 where
    /// that is 0.
    pub fn below(&mut self, bound: u64) -> u64 {
        (self.next() >> 32).checked_rem(bound).unwrap_or(0)
    }

    /// Either side of a link.
    pub fn side(&mut self) -> Side {
        if self.below(2) == 0 {
            Side::First
        } else {
            Side::Second
        }
    }
}
