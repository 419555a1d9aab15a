//! What is seen of a whole run.

ghost use Rattle.std.specs.Prelude.{◌≡◌, IfOk};
ghost use Rattle.run_outcomes.specs.Seen.{seen_of};

use crate::outcome::outcome;
use crate::rare::Rares;
use journal::Journal;
use linx_base::NoMemory;
use std::alloc::Global;
use std::marker::Model;

/// The number of steps of a run, its outcome, and which rare things it has.
#[derive(Drop)]
pub struct Seen {
    steps: u64,
    outcome: Vec<u8>,
    rares: Rares,
}

impl Model for Seen {
    ghost use Rattle.run_outcomes.specs.SeenParts.{SeenParts};

    ghost Value = { SeenParts };

    ghost view = { λ s. record { steps = s.steps; outcome = s.outcome.items; rares = s.rares } };
}

impl Seen {
    /// What is seen of the whole run of a script with so many actors.
    pub fn of(alloc: Global, actors: u32, journal: &Journal) -> Result<Seen, NoMemory>
        ensures { IfOk result (λ seen. seen ≡ seen_of actors journal.now.log.steps) }
    {
        Ok(Seen {
            steps: journal.len(),
            outcome: outcome(alloc, actors, journal)?,
            rares: Rares::of(journal),
        })
    }

    /// The number of steps.
    pub fn steps(&self) -> u64
        ensures { result ≡ self.now.steps }
    {
        self.steps
    }

    /// The outcome: a line for each answer.
    pub fn outcome(&self) -> &[u8]
        ensures { result.now ≡ self.now.outcome }
    {
        self.outcome.as_slice()
    }

    /// The outcome, which isn't copied.
    pub fn into_outcome(self) -> Vec<u8>
        ensures { result.items ≡ self.outcome }
    {
        self.outcome
    }

    /// Which rare things the run has.
    pub fn rares(&self) -> Rares
        ensures { result ≡ self.now.rares }
    {
        self.rares
    }
}
