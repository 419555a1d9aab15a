//! How many signals arrived over links so far.
ghost use Rattle.std.specs.Prelude.{◌≡◌, [], OnOk};
ghost use Rattle.std.specs.Option.{option_copied, unwrap_or};
ghost use Rattle.link_tables.specs.Arrivals.{arrived_in, count_in, counts_if, counts_past};
ghost use Rattle.link_tables.specs.Arrivals.{with_arrival};

use crate::sent::{Flow, flow_to};
use journal::{Effect, Step};
use linx_base::NoMemory;
use std::alloc::Global;
use std::collections::BTreeMap;
use std::marker::Model;

/// The flow of what an effect brings over a link to an endpoint, from a peer of a session of its
/// node.
fn arrived_in(effect: &Effect) -> Option<Flow>
    ensures { result ≡ arrived_in effect.now }
{
    match effect {
        Effect::Arrived(at, peer, _) => flow_to(*at, *peer),
        _ => None,
    }
}

/// A count that is noted, or 0.
fn or_none(count: Option<&u64>) -> u64
    ensures { result ≡ unwrap_or (option_copied count.entry) 0 }
{
    match count {
        Some(count) => *count,
        None => 0,
    }
}

/// How many signals arrived at an endpoint from a peer over a link, for each two.
#[derive(Drop)]
pub struct Arrivals {
    counts: BTreeMap<Flow, u64>,
}

impl Model for Arrivals {
    ghost use Rattle.std.specs.Prelude.{List, ℕ};
    ghost use Rattle.link_tables.specs.declared.sent.Flow.{Flow};

    ghost Value = { List (Flow × ℕ) };

    ghost view = { λ t. t.counts.entries };
}

impl Arrivals {
    /// Nothing so far. It takes no memory.
    pub fn new(alloc: Global) -> Arrivals
        ensures { result ≡ [] }
    {
        Arrivals {
            counts: BTreeMap::new(alloc),
        }
    }

    /// How many signals of a flow arrived.
    pub fn count(&self, flow: Flow) -> u64
        ensures { result ≡ count_in self.now flow }
    {
        or_none(self.counts.get(&flow))
    }

    /// One more signal of a flow. After 2^64 - 1 every one is refused.
    fn add_one(&mut self, flow: Flow) -> Result<(), NoMemory>
        ensures { OnOk result (count_in self.new ≡ with_arrival (count_in self.old) flow) }
    {
        let count = self.count(flow);
        if count == u64::MAX {
            return Err(NoMemory);
        }
        self.counts.insert(flow, count + 1)?;
        Ok(())
    }

    /// One more signal of a flow, if it is of one.
    fn add(&mut self, flow: Option<Flow>) -> Result<(), NoMemory>
        ensures { OnOk result (count_in self.new ≡ counts_if flow (count_in self.old)) }
    {
        match flow {
            None => Ok(()),
            Some(flow) => self.add_one(flow),
        }
    }

    /// Counts what a step brings over a link.
    #[tactic(auto, using(crate::proofs::Counting::one_counted))]
    pub fn pass(&mut self, step: &Step) -> Result<(), NoMemory>
        ensures { OnOk result (count_in self.new
            ≡ counts_past step.now.effects (count_in self.old)) }
    {
        for effect in step.effects.as_slice() {
            let flow = arrived_in(effect);
            self.add(flow)?;
        }
        Ok(())
    }
}
