//! Priorities: the maker of the lowest rank takes each turn, and at a few turns that one gets the
//! highest rank.

ghost use Rattle.std.specs.Prelude.{◌≡◌, ◌<◌, length};
ghost use Rattle.order_rules.specs.Rules.{by_ranks, is_change, lowest};

use crate::dice::{set_word, word_of};

/// The rank of each maker, the turns at which a rank changes, and the number of the turn: they are
/// counted from 2^32 on, above each rank that was thrown.
#[derive(Drop)]
pub struct Priorities {
    pub ranks: [u64; 97],
    pub changes: [u64; 5],
    pub turn: u64,
}

/// The maker of the lowest rank, the first one of these.
fn lowest(ranks: &[u64; 97], ready: &[u32]) -> u32
    requires { 0 < length ready.now }
    ensures { result ≡ lowest ranks.now ready.now }
{
    let mut best = ready[0];
    'makers: for maker in ready {
        if word_of(ranks, *maker) < word_of(ranks, best) {
            best = *maker;
        }
    }
    best
}

impl Priorities {
    /// Whether the one of the lowest rank gets the highest one at this turn.
    fn is_change(&self) -> bool
        ensures { result ≡ is_change self.now }
    {
        self.changes.contains(&self.turn)
    }

    /// The maker that comes next.
    pub(crate) fn choose(&mut self, ready: &[u32]) -> u32
        requires { 0 < length ready.now }
        ensures { (result, self.new) ≡ by_ranks self.old ready.now }
    {
        if self.is_change() {
            let first = lowest(&self.ranks, ready);
            set_word(&mut self.ranks, first, self.turn);
        }
        self.turn = self.turn.wrapping_add(1);
        lowest(&self.ranks, ready)
    }
}
