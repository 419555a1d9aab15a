//! The pump of the link.
ghost use Rattle.std.specs.Prelude.{◌≡◌, ◌+◌, None, IfSome, length};
ghost use Rattle.journal.specs.declared.by.By.TheVariants.{Pump};
ghost use Rattle.turn_lock.specs.Passes.{IsPassOf};
ghost use Rattle.turn_lock.specs.Stories.{IsAddedBy};
ghost use Rattle.fabric.specs.Actings.{asking};
ghost use Rattle.fabric.specs.Asks.{MayAsk};
ghost use Rattle.linx_api.specs.Telling.{plan_of, story_of};
ghost use Rattle.thread_cases.specs.Fresh.{IsFresh};

use crate::callers::LINK;
use fabric::Fabric;
use journal::{By, Event};
use linx_api::SharedFabric;
use linx_base::{Side, Verdict};
use node_kernel::StepAnswer;
use std::process::Abort;
use std::sync::Wait;
use turn_lock::{Pass, TurnLock};

/// The pass of the link's pump, and its lock.
#[derive(Drop)]
pub struct LinkSide<'a> {
    lock: &'a TurnLock<SharedFabric>,
    pass: Pass<SharedFabric>,
    ghost of_lock: { IsPassOf lock.now pass },
    ghost of_link: { length pass.fixed.shape.links ≡ 1 },
    ghost behind_actors: { pass.number ≡ length pass.fixed.shape.actors + 1 },
}

pub fn link_side<'a>(
    rt: &impl Abort,
    lock: &'a TurnLock<SharedFabric>,
    pass: Pass<SharedFabric>,
) -> LinkSide<'a>
    requires { IsFresh lock.now pass }
{
    assert!(rt; pass.number() == 4);
    LinkSide { lock, pass }
}

/// The next packet from a side comes, if one is in flight.
fn packet(fabric: &Fabric, from: Side) -> Option<Event>
    requires { length fabric.now.shape.links ≡ 1 }
    ensures { IfSome result (λ event. MayAsk fabric.now (Pump LINK) (asking event None)) }
{
    if fabric.is_cut(LINK) || fabric.in_flight(LINK, from) == 0 {
        return None;
    }
    Some(Event::Wire {
        link: LINK,
        from,
        verdict: Verdict::Deliver,
    })
}

/// The side whose turn it is is ticked.
fn tick(fabric: &Fabric) -> Event
    requires { length fabric.now.shape.links ≡ 1 }
    ensures { MayAsk fabric.now (Pump LINK) (asking result None) }
{
    let side = if fabric.tick_steps(LINK) % 2 == 0 {
        Side::First
    } else {
        Side::Second
    };
    Event::Tick { link: LINK, side }
}

/// What the link does next.
fn next_event(fabric: &Fabric) -> Event
    requires { length fabric.now.shape.links ≡ 1 }
    ensures { MayAsk fabric.now (Pump LINK) (asking result None) }
{
    if let Some(event) = packet(fabric, Side::First) {
        return event;
    }
    if let Some(event) = packet(fabric, Side::Second) {
        return event;
    }
    tick(fabric)
}

/// Whether all is over. Nothing was stopped then.
fn is_over(rt: &impl Abort, shared: &SharedFabric) -> bool {
    let is_over = shared.fabric().is_over();
    assert!(rt; !is_over || shared.stopped().is_none());
    is_over
}

/// The link makes a step.
fn step(rt: &impl Abort, shared: &mut SharedFabric)
    requires { length shared.old.run.shape.links ≡ 1 }
    ensures added { IsAddedBy (length shared.old.run.shape.actors + 1) (story_of shared.new.run)
        (story_of shared.old.run) }
    ensures stays { plan_of shared.new.run ≡ plan_of shared.old.run }
{
    let event = next_event(shared.fabric());
    let answer = shared.step(By::Pump(LINK), event, None);
    assert!(rt; matches!(&answer, Ok(StepAnswer::Done)));
}

/// The link makes a step, if it stirs. The answer is whether all is over.
fn stir(rt: &impl Abort, shared: &mut SharedFabric) -> bool
    requires { length shared.old.run.shape.links ≡ 1 }
    ensures added { IsAddedBy (length shared.old.run.shape.actors + 1) (story_of shared.new.run)
        (story_of shared.old.run) }
    ensures stays { plan_of shared.new.run ≡ plan_of shared.old.run }
{
    if !shared.fabric().stirs(LINK) {
        return is_over(rt, shared);
    }
    step(rt, shared);
    false
}

/// One turn of the pump, and whether all is over.
fn turn<'a, R: Abort + Wait>(rt: &R, side: LinkSide<'a>) -> (LinkSide<'a>, bool) {
    let LinkSide { lock, pass } = side;
    let mut held = lock.take(rt, pass);
    let is_over = stir(rt, held.state());
    let pass = lock.give(held);
    (LinkSide { lock, pass }, is_over)
}

/// Turns of the pump until all is over.
pub fn pump<R: Abort + Wait>(rt: &R, side: LinkSide<'_>) {
    let mut side = side;
    for _ in rt.forever() {
        let (next, is_over) = turn(rt, side);
        side = next;
        if is_over {
            return;
        }
    }
}
