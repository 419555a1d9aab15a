//! The tally of some runs.

ghost use Rattle.std.specs.Prelude.{◌≡◌, IfOk, OnOk};
ghost use Rattle.outcome_tally.specs.Few.{IsFew};
ghost use Rattle.outcome_tally.specs.Report.{report_text};
ghost use Rattle.outcome_tally.specs.Tallies.{joined, no_runs, with_came, with_full, with_seen};

use crate::outcomes::Outcomes;
use crate::rare_times::RareTimes;
use crate::report;
use crate::span::{Span, both_spanned, spanned};
use crate::times::Times;
use linx_base::NoMemory;
use run_outcomes::Seen;
use std::alloc::Global;
use std::marker::Model;

/// What came of some runs.
#[derive(Drop)]
pub struct Tally {
    runs: u64,
    full: Times,
    steps: Option<Span>,
    came: Outcomes,
    rares: RareTimes,
}

impl Model for Tally {
    ghost use Rattle.outcome_tally.specs.TallyParts.{TallyParts};

    ghost Value = { TallyParts };

    ghost view = { λ t. record {
      runs = t.runs;
      full = t.full;
      steps = t.steps;
      came = t.came;
      rares = t.rares;
    } };
}

impl Tally {
    /// Of no run.
    pub fn new(alloc: Global) -> Tally
        ensures { result ≡ no_runs }
    {
        Tally {
            runs: 0,
            full: Times::never(),
            steps: None,
            came: Outcomes::none(alloc),
            rares: RareTimes::none(),
        }
    }

    /// Adds the run of a seed, whose journal was full before its end.
    fn add_full(&mut self, seed: u64)
        requires { IsFew self.old }
        ensures { self.new ≡ with_full self.old seed }
    {
        self.runs += 1;
        self.full = self.full.once_more(seed);
    }

    /// Adds the whole run of a seed.
    fn add_seen(&mut self, seed: u64, seen: Seen) -> Result<(), NoMemory>
        requires { IsFew self.old }
        ensures { OnOk result (self.new ≡ with_seen self.old seed seen) }
    {
        self.runs += 1;
        self.steps = Some(spanned(self.steps, seen.steps()));
        self.rares = self.rares.with(seen.rares(), seed);
        self.came.note(seen.into_outcome(), seed)
    }

    /// Adds the run of a seed: what is seen of it; or nothing, where its journal was full before its
    /// end. After a refusal the tally is thrown away.
    pub fn add(&mut self, seed: u64, seen: Option<Seen>) -> Result<(), NoMemory>
        requires { IsFew self.old }
        ensures { OnOk result (self.new ≡ with_came self.old seed seen) }
    {
        match seen {
            Some(seen) => self.add_seen(seed, seen),
            None => {
                self.add_full(seed);
                Ok(())
            }
        }
    }

    /// Adds the tally of later runs, which is then that of all of them. After a refusal the tally is
    /// thrown away.
    pub fn add_all(&mut self, later: Tally) -> Result<(), NoMemory>
        requires { IsFew (joined self.old later) }
        ensures { OnOk result (self.new ≡ joined self.old later) }
    {
        self.runs += later.runs;
        self.full = self.full.and(later.full);
        self.steps = both_spanned(self.steps, later.steps);
        self.rares = self.rares.and(later.rares);
        self.came.note_all(later.came)
    }

    /// THE REPORT, of the runs of a script with so many actors.
    pub fn report(&self, alloc: Global, actors: u32) -> Result<Vec<u8>, NoMemory>
        ensures { IfOk result (λ text. text.items ≡ report_text actors self.now) }
    {
        let mut out = Vec::new(alloc);
        report::write_heads(&mut out, self.runs, self.full, self.steps)?;
        report::write_outcomes(alloc, &mut out, actors, &self.came)?;
        report::write_rares(&mut out, &self.rares)?;
        Ok(out)
    }
}
