//! How often something came.

ghost use Rattle.std.specs.Prelude.{◌≡◌, ◌+◌, ◌<◌, ◌^◌};
ghost use Rattle.outcome_tally.specs.Times.{and_later, never, noted, once_more};

/// In how many runs something came, and the seed of the first of them.
#[derive(Clone, Copy, Debug, PartialEq, Eq, Hash)]
pub struct Times {
    pub runs: u64,
    pub first: Option<u64>,
}

impl Times {
    /// In no run.
    pub(crate) fn never() -> Times
        ensures { result ≡ never }
    {
        Times {
            runs: 0,
            first: None,
        }
    }

    /// Once more, in the run of this seed.
    pub(crate) fn once_more(self, seed: u64) -> Times
        requires { self.runs < 2 ^ 63 }
        ensures { result ≡ once_more self seed }
    {
        Times {
            runs: self.runs + 1,
            first: Some(self.first.unwrap_or(seed)),
        }
    }

    /// Once more, if it came in the run of this seed.
    pub(crate) fn noted(self, came: bool, seed: u64) -> Times
        requires { self.runs < 2 ^ 63 }
        ensures { result ≡ noted self came seed }
    {
        if came { self.once_more(seed) } else { self }
    }
    /// And so often in later runs.
    pub(crate) fn and(self, later: Times) -> Times
        requires { self.runs + later.runs < 2 ^ 63 }
        ensures { result ≡ and_later self later }
    {
        Times {
            runs: self.runs + later.runs,
            first: self.first.or(later.first),
        }
    }
}
