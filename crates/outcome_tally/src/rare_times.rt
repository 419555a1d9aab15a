//! In how many runs each of the rare things came.

ghost use Rattle.std.specs.Prelude.{◌≡◌};
ghost use Rattle.outcome_tally.specs.Few.{RaresFew};
ghost use Rattle.outcome_tally.specs.RareTimes.{and_rares, no_rares, with_rares};

use crate::times::Times;
use run_outcomes::Rares;

/// In how many runs each of them came, and in which first.
#[derive(Clone, Copy, Debug, PartialEq, Eq, Hash)]
pub struct RareTimes {
    pub refused: Times,
    pub found_none: Times,
    pub dead: Times,
    pub closed: Times,
    pub lost: Times,
    pub down: Times,
}

impl RareTimes {
    /// None of them, in no run.
    pub(crate) fn none() -> RareTimes
        ensures { result ≡ no_rares }
    {
        RareTimes {
            refused: Times::never(),
            found_none: Times::never(),
            dead: Times::never(),
            closed: Times::never(),
            lost: Times::never(),
            down: Times::never(),
        }
    }

    /// With those of the run of a seed.
    pub(crate) fn with(self, rares: Rares, seed: u64) -> RareTimes
        requires { RaresFew self }
        ensures { result ≡ with_rares self rares seed }
    {
        RareTimes {
            refused: self.refused.noted(rares.refused, seed),
            found_none: self.found_none.noted(rares.found_none, seed),
            dead: self.dead.noted(rares.dead, seed),
            closed: self.closed.noted(rares.closed, seed),
            lost: self.lost.noted(rares.lost, seed),
            down: self.down.noted(rares.down, seed),
        }
    }
    /// And those of later runs.
    pub(crate) fn and(self, later: RareTimes) -> RareTimes
        requires { RaresFew (and_rares self later) }
        ensures { result ≡ and_rares self later }
    {
        RareTimes {
            refused: self.refused.and(later.refused),
            found_none: self.found_none.and(later.found_none),
            dead: self.dead.and(later.dead),
            closed: self.closed.and(later.closed),
            lost: self.lost.and(later.lost),
            down: self.down.and(later.down),
        }
    }
}
