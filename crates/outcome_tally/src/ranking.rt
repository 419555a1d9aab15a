//! Which outcomes came most often.

ghost use Rattle.std.specs.Prelude.{◌≡◌, ◌≤◌, length, IfOk, OnOk};
ghost use Rattle.outcome_tally.specs.Ranking.{most_of, place_for, with_ranked};

use crate::outcomes::{Outcome, Outcomes};
use linx_base::NoMemory;
use std::alloc::Global;

/// How many outcomes a report lists.
const LISTED_MOST: usize = 16;

/// The place of an outcome behind those that came as often or more often.
fn place_for(ranked: &[Outcome], outcome: &Outcome) -> usize
    ensures value { result ≡ place_for ranked.now outcome.now }
    ensures within { result ≤ length ranked.now }
{
    for (place, before) in ranked.iter().enumerate() {
        if before.times.runs < outcome.times.runs {
            return place;
        }
    }
    ranked.len()
}

/// Puts an outcome into its place, and leaves out the last of seventeen.
fn rank<'a>(ranked: &mut Vec<Outcome<'a>>, outcome: Outcome<'a>) -> Result<(), NoMemory>
    ensures { OnOk result (ranked.new.items ≡ with_ranked ranked.old.items outcome.entry) }
{
    let place = place_for(ranked.as_slice(), &outcome);
    ranked.insert(place, outcome)?;
    ranked.truncate(LISTED_MOST);
    Ok(())
}

/// The outcomes that came most often.
pub(crate) fn most_of(alloc: Global, came: &Outcomes) -> Result<Vec<Outcome<'_>>, NoMemory>
    ensures { IfOk result (λ ranked. ranked.items ≡ most_of came.now) }
{
    let mut ranked = Vec::new(alloc);
    'came: for (text, times) in came.times.iter() {
        let outcome = Outcome {
            text: text.as_slice(),
            times: *times,
        };
        rank(&mut ranked, outcome)?;
    }
    Ok(ranked)
}
