//! The fabric behind the lock: a story of steps, each with the number of its maker.
ghost use Rattle.std.specs.Prelude.{◌≡◌, ◌≤◌, [], true, length, None, IfOk};
ghost use Rattle.std.specs.Borrow.{sem};
ghost use Rattle.journal.specs.Logs.{is_full};
ghost use Rattle.run_trunks.specs.States.{new_trunks};
ghost use Rattle.fabric.specs.Actings.{OnlyRuns, asking};
ghost use Rattle.fabric.specs.Asks.{MayAsk};
ghost use Rattle.fabric.specs.Remains.{IsLaidOut};
ghost use Rattle.linx_api.specs.Asked.{IsAnswered, IsLawful};
ghost use Rattle.linx_api.specs.Sharing.{first_noted};
ghost use Rattle.linx_api.specs.Telling.{maker_number};

use crate::plan::Plan;
use fabric::{Fabric, StepStop, StopCause};
use journal::{By, Event, Step};
use linx_base::{LinkDecl, Names, NoMemory, NodeNo, Signal};
use node_kernel::StepAnswer;
use std::alloc::Global;
use std::marker::Model;
use turn_lock::Story;

/// A fabric that tells who made its steps, and why its run stops, once a maker noted that.
pub struct SharedFabric {
    fabric: Fabric,
    stop: Option<StopCause>,
}

// By hand, so that a crate above that lets a lock or a pass go makes one call here.
impl Drop for SharedFabric {
    fn drop(self) {
        let SharedFabric { fabric: _, stop: _ } = self;
    }
}

impl Model for SharedFabric {
    ghost use Rattle.linx_api.specs.Sharing.{Shared};

    ghost Value = { Shared };

    ghost view = { λ s. record { run = s.fabric; stop = s.stop } };
}

impl Story for SharedFabric {
    ghost use Rattle.linx_api.specs.Telling.{plan_of, story_of, empty_plan};

    type Step = Step;

    type Fixed = Plan;

    ghost story = { λ s. story_of s.run };

    ghost fixed = { λ s. plan_of s.run };

    ghost any_fixed = { empty_plan };

    fn steps(&self) -> u64 {
        self.fabric.journal().len()
    }

    fn maker(&self, k: u64) -> u32 {
        let _few = self.fabric.actor_count();
        match self.fabric.journal().step(k) {
            Some(step) => self.number_of(step.by),
            None => unreachable!(),
        }
    }
}

/// The cause that is noted after one more: the first one stays.
fn first_noted(noted: Option<StopCause>, cause: StopCause) -> Option<StopCause>
    ensures { result ≡ first_noted noted cause }
{
    match noted {
        Some(before) => Some(before),
        None => Some(cause),
    }
}

impl SharedFabric {
    ghost use Rattle.std.specs.Borrow.{Lends};
    ghost use Rattle.fabric.specs.contracts.fabric.Fabric.{the_row as fabric_row};
    ghost use Rattle.linx_api.specs.contracts.shared_fabric.SharedFabric.{the_row};
    ghost use Rattle.linx_api.specs.Sharing.{shared_with};

    /// A fabric without steps, as `Fabric::new` makes it. No cause of a stop is noted.
    pub fn new(
        alloc: Global,
        names: Names,
        links: &[LinkDecl],
        actors: &[NodeNo],
    ) -> Result<SharedFabric, NoMemory>
        requires laid_out { IsLaidOut (length names.nodes)
            (record { links = links.now; actors = actors.now }) }
        ensures ok { IfOk result (λ shared. shared ≡ record {
          run = record {
            shape = record { links = links.now; actors = actors.now };
            log = record { names = names; steps = [] };
            trunks = new_trunks links.now;
          };
          stop = None;
        }) }
    {
        let fabric = Fabric::new(alloc, names, links, actors)?;
        Ok(SharedFabric { fabric, stop: None })
    }

    /// The fabric, to look at.
    pub fn fabric(&self) -> &Fabric
        ensures { result.now ≡ self.now.run }
    {
        &self.fabric
    }

    /// The fabric, to make steps on.
    pub fn fabric_mut(&mut self) -> &mut Fabric
        ensures* writes_back { sem 𝓛
            (Lends the_row fabric_row self.entry result (shared_with self.old)) }
        ensures value { result.now ≡ self.old.run }
    {
        &mut self.fabric
    }

    /// The fabric, which no other maker shares any longer.
    pub fn into_fabric(self) -> Fabric
        ensures { result ≡ self.run }
    {
        let SharedFabric { fabric, stop: _ } = self;
        fabric
    }

    /// Notes why the run stops. The first cause stays.
    pub fn stop(&mut self, cause: StopCause)
        requires { cause ≡ StopCause.JournalFull → is_full self.old.run.log.steps ≡ true }
        ensures { self.new ≡ record self.old { stop = first_noted self.old.stop cause } }
    {
        self.stop = first_noted(self.stop, cause);
    }

    /// The first cause that was noted: none where none was.
    pub fn stopped(&self) -> Option<StopCause>
        ensures { result ≡ self.now.stop }
    {
        self.stop
    }

    /// The number of a maker: an actor's own, and for the pump of a link the link's, behind those
    /// of all actors.
    fn number_of(&self, by: By) -> u32
        requires { maker_number self.now.run.shape by ≤ 96 }
        ensures { result ≡ maker_number self.now.run.shape by }
    {
        match by {
            By::Actor(actor) => actor,
            By::Pump(link) => self.fabric.actor_count() + link.0,
        }
    }

    /// Makes the step of a maker's event, or none where an actor waits already, and answers, as
    /// `Fabric::step` does. It notes no cause of a stop.
    pub fn step(
        &mut self,
        by: By,
        event: Event,
        hand: Option<Signal>,
    ) -> Result<StepAnswer, StepStop>
        requires asked { MayAsk self.old.run by (asking event hand) }
        ensures answered { IsAnswered self.old.run self.new.run by (asking event hand) result }
        ensures found { IsLawful self.old.run }
        ensures left { IsLawful self.new.run }
        ensures fixed { OnlyRuns self.old.run self.new.run }
        ensures noted { self.new.stop ≡ self.old.stop }
    {
        let _ = self.fabric.journal();
        let answer = self.fabric.step(by, event, hand);
        let _ = self.fabric.journal();
        answer
    }
}
