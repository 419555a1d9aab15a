//! How an actor stands between two steps.
ghost use Rattle.std.specs.Prelude.{◌≡◌, length, map, Some, None, false, true};
ghost use Rattle.std.specs.List.{list_any};
ghost use Rattle.journal.specs.History.{closes};
ghost use Rattle.fabric.specs.Calls.{stands_after};
ghost use Rattle.fabric.specs.Standings.{IsStanding, fresh, past_effects, waiting_no_more};

use journal::{By, Effect};
use linx_base::Inc;
use node_kernel::StepAnswer;
use sigsel::Sigsel;

/// How an actor stands: its endpoint, the step that closed the last endpoint that it lost, or 0,
/// the filter that its last step said it waits with, and whether it ended.
#[derive(Drop)]
pub(crate) struct Standing {
    pub(crate) endpoint: Option<Inc>,
    pub(crate) closed: u64,
    pub(crate) waits: Option<Sigsel>,
    pub(crate) ended: bool,
}

/// Whether an effect closes an endpoint.
fn closes(inc: Inc, effect: &Effect) -> bool
    ensures { result ≡ closes inc effect.now }
{
    match effect {
        Effect::Closed(closed) => inc.0 == closed.0,
        _ => false,
    }
}

/// Whether effects close an endpoint.
fn are_closing(inc: Inc, effects: &[Effect]) -> bool
    ensures { result ≡ list_any (closes inc) effects.now }
{
    effects.iter().any(|effect| closes(inc, effect))
}

impl Standing {
    /// How an actor stands before its first step.
    pub(crate) fn new() -> Standing
        ensures { result ≡ fresh }
    {
        Standing {
            endpoint: None,
            closed: 0,
            waits: None,
            ended: false,
        }
    }

    /// Waits with a filter, or no more.
    pub(crate) fn wait(&mut self, waits: Option<Sigsel>)
        ensures { self.new ≡ record self.old { waits = waits } }
    {
        self.waits = waits;
    }

    /// Has this endpoint.
    pub(crate) fn open(&mut self, inc: Inc)
        ensures { self.new ≡ record self.old { endpoint = Some inc; waits = None } }
    {
        self.endpoint = Some(inc);
        self.waits = None;
    }

    /// Has none: this step closed it.
    pub(crate) fn close(&mut self, step: u64)
        ensures { self.new ≡ record self.old { endpoint = None; closed = step; waits = None } }
    {
        self.endpoint = None;
        self.closed = step;
        self.waits = None;
    }

    /// Has made its last step.
    pub(crate) fn end(&mut self)
        ensures { self.new ≡ record self.old { waits = None; ended = true } }
    {
        self.waits = None;
        self.ended = true;
    }

    /// Has made a call at its endpoint, this step, which was answered so.
    pub(crate) fn call(&mut self, step: u64, answer: &StepAnswer)
        ensures { self.new ≡ stands_after step answer.now self.old }
    {
        match answer {
            StepAnswer::Closed => self.close(step),
            StepAnswer::Done => {
                self.close(step);
                self.end();
            }
            _ => self.wait(None),
        }
    }

    /// Loses the endpoint where the effects of this step close it.
    fn lose(&mut self, effects: &[Effect], step: u64)
        ensures { self.new ≡ past_effects step effects.now self.old }
    {
        if let Some(inc) = self.endpoint {
            if are_closing(inc, effects) {
                self.endpoint = None;
                self.closed = step;
            }
        }
    }
}

/// Each actor loses its endpoint where the effects of this step close it.
pub(crate) fn lose_all(standings: &mut [Standing], effects: &[Effect], step: u64)
    ensures { standings.new ≡ map (past_effects step effects.now) standings.old }
{
    for standing in standings.iter_mut() {
        standing.lose(effects, step);
    }
}

/// The maker of a step, if it is an actor, waits no more.
pub(crate) fn wait_no_more(standings: &mut [Standing], by: By)
    requires { IsStanding (length standings.old) by }
    ensures { standings.new ≡ waiting_no_more by standings.old }
{
    match by {
        By::Actor(actor) => standings[(actor - 1) as usize].wait(None),
        By::Pump(_) => (),
    }
}
