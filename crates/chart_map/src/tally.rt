//! How many of the steps of a row are a strip's.
ghost use Rattle.std.specs.Prelude.{◌≡◌, ◌≤◌, ◌+◌, ◌<◌, ◌^◌, length};
ghost use Rattle.journal.specs.Histories.{first_steps};
ghost use Rattle.chart_map.specs.Grid.{behind_first};
ghost use Rattle.chart_map.specs.Tallies.{is_lost, no_tally, with_step, tally_of};

use crate::strips::{Strip, is_of};
use journal::{Head, Journal, Step};
use linx_base::Verdict;

/// How many steps there are, and whether one of them lost a packet.
#[derive(Clone, Copy)]
pub(crate) struct Tally {
    pub(crate) steps: u64,
    pub(crate) lost: bool,
}

/// Whether a step loses a packet.
fn is_lost(head: &Head) -> bool
    ensures { result ≡ is_lost head.now }
{
    match head {
        Head::Wire(_, _, Verdict::Lose) => true,
        _ => false,
    }
}

/// A tally with a step more, where it is one of the strip.
fn with_step(strip: Strip, step: &Step, tally: Tally) -> Tally
    requires { tally.steps + 1 < 2 ^ 64 }
    ensures tally { result ≡ with_step strip step.now tally }
    ensures few { result.steps ≤ tally.steps + 1 }
{
    if !is_of(strip, step) {
        return tally;
    }
    Tally {
        steps: tally.steps + 1,
        lost: tally.lost || is_lost(&step.head),
    }
}

/// The tally of a strip, of the steps from one place to another.
#[tactic(auto, using(crate::proofs::Behind::none_counted, crate::proofs::Behind::one_counted))]
pub(crate) fn tally_of(journal: &Journal, strip: Strip, from: u64, to: u64) -> Tally
    requires order { from ≤ to }
    requires there { to ≤ length journal.now.log.steps }
    ensures { result
        ≡ tally_of strip (behind_first from (first_steps to journal.now.log.steps)) }
{
    let mut tally = Tally {
        steps: 0,
        lost: false,
    };
    for done in from..to {
        tally = with_step(strip, journal.step_after(done), tally);
    }
    tally
}
