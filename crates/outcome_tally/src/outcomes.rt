//! The outcomes that came.

ghost use Rattle.std.specs.Prelude.{◌≡◌, ◌+◌, ◌<◌, ◌^◌, [], length, OnOk};
ghost use Rattle.outcome_tally.specs.Few.{AllFew};
ghost use Rattle.outcome_tally.specs.Outcomes.{times_of, with_all, with_later, with_outcome};

use crate::times::Times;
use indexmap::IndexMap;
use linx_base::NoMemory;
use std::alloc::Global;
use std::marker::Model;

/// An outcome, and how often it came.
#[derive(Drop)]
pub(crate) struct Outcome<'a> {
    pub(crate) text: &'a [u8],
    pub(crate) times: Times,
}

impl<'a> Model for Outcome<'a> {
    ghost use Rattle.outcome_tally.specs.OutcomeParts.{OutcomeParts};

    ghost Value = { OutcomeParts };

    ghost view = { λ o. record { text = o.text.now; times = o.times } };
}

/// The outcomes that came, in the order in which they came first. One is found by its text, without a
/// look at the others.
#[derive(Drop)]
pub(crate) struct Outcomes {
    pub(crate) times: IndexMap<Vec<u8>, Times>,
}

impl Model for Outcomes {
    ghost use Rattle.std.specs.Prelude.{List};
    ghost use Rattle.outcome_tally.specs.OutcomeParts.{OutcomeParts};
    ghost use Rattle.outcome_tally.specs.Entries.{outcomes_in};

    ghost Value = { List OutcomeParts };

    ghost view = { λ o. outcomes_in o.times.entries };
}

impl Outcomes {
    /// None. It takes no memory.
    pub(crate) fn none(alloc: Global) -> Outcomes
        ensures { result ≡ [] }
    {
        Outcomes {
            times: IndexMap::new(alloc),
        }
    }

    /// How many there are.
    pub(crate) fn len(&self) -> usize
        ensures { result ≡ length self.now }
    {
        self.times.len()
    }

    /// How often an outcome came so far.
    fn times_of(&self, text: &[u8]) -> Times
        ensures { result ≡ times_of self.now text.now }
    {
        match self.times.get(text) {
            Some(times) => *times,
            None => Times::never(),
        }
    }

    /// Notes the outcome of the run of a seed.
    pub(crate) fn note(&mut self, text: Vec<u8>, seed: u64) -> Result<(), NoMemory>
        requires { AllFew self.old }
        ensures { OnOk result (self.new ≡ with_outcome self.old text.items seed) }
    {
        let times = self.times_of(text.as_slice()).once_more(seed);
        self.times.insert(text, times)?;
        Ok(())
    }
    /// Notes an outcome that came so often in later runs.
    fn note_later(&mut self, text: Vec<u8>, times: Times) -> Result<(), NoMemory>
        requires { (times_of self.old text.items).runs + times.runs < 2 ^ 63 }
        ensures { OnOk result (self.new
            ≡ with_later self.old (record { text = text.items; times = times })) }
    {
        let both = self.times_of(text.as_slice()).and(times);
        self.times.insert(text, both)?;
        Ok(())
    }

    /// Notes the outcomes of later runs.
    pub(crate) fn note_all(&mut self, later: Outcomes) -> Result<(), NoMemory>
        requires { AllFew (with_all self.old later) }
        ensures { OnOk result (self.new ≡ with_all self.old later) }
    {
        let Outcomes { times } = later;
        'later: for (text, times) in times {
            self.note_later(text, times)?;
        }
        Ok(())
    }
}
