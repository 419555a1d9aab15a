//! The rules by which the next maker is chosen among those that are ready.

ghost use Rattle.std.specs.Prelude.{◌≡◌, ◌<◌, ◌^◌, true, length};
ghost use Rattle.order_rules.specs.Rules.{by_rule, is_among, next_round};

use crate::bursts::Bursts;
use crate::dice::thrown;
use crate::priorities::Priorities;
use rand_xoshiro::SplitMix64;

/// How the next maker is chosen among those that are ready.
#[derive(Drop)]
pub enum Rule {
    /// In a circle, by number, behind the one that took the last turn; at first 0.
    Rounds(u32),
    /// Whichever a die throws.
    Walk(SplitMix64),
    /// Whichever a die throws, by speeds that change now and then.
    Bursts(Bursts),
    /// By ranks that change at a few turns.
    Priorities(Priorities),
}

/// The first maker behind the last one, or else the first one.
fn next_round(last: u32, ready: &[u32]) -> u32
    requires { 0 < length ready.now }
    ensures { result ≡ next_round last ready.now }
{
    'behind: for maker in ready {
        if *maker > last {
            return *maker;
        }
    }
    ready[0]
}

impl Rule {
    /// Chooses the maker that comes next.
    fn next(&mut self, ready: &[u32]) -> u32
        requires some { 0 < length ready.now }
        requires few { length ready.now < 2 ^ 32 }
        ensures { (result, self.new) ≡ by_rule self.old ready.now }
    {
        match self {
            Rule::Rounds(last) => {
                let maker = next_round(*last, ready);
                *last = maker;
                maker
            }
            Rule::Walk(dice) => thrown(dice, ready),
            Rule::Bursts(bursts) => bursts.choose(ready),
            Rule::Priorities(priorities) => priorities.choose(ready),
        }
    }

    /// Chooses the maker that comes next, which is one of those that are ready.
    pub fn choose(&mut self, ready: &[u32]) -> u32
        requires some { 0 < length ready.now }
        requires few { length ready.now < 2 ^ 32 }
        ensures value { (result, self.new) ≡ by_rule self.old ready.now }
        ensures among { is_among result ready.now ≡ true }
    {
        self.next(ready)
    }
}
