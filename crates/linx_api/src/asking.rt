//! One call of an actor under the lock.
ghost use Rattle.fabric.specs.Actings.{asking};
ghost use Rattle.turn_lock.specs.Passes.{IsPassOf};
ghost use Rattle.linx_api.specs.Asked.{CanAsk, IsAsked};

use crate::shared_fabric::SharedFabric;
use fabric::StepStop;
use journal::{By, Event};
use linx_base::Signal;
use node_kernel::StepAnswer;
use std::sync::Wait;
use turn_lock::{Pass, TurnLock};

/// Takes the fabric, makes at most one step of the pass's actor, and gives the fabric back.
pub(crate) fn ask<R: Wait>(
    rt: &R,
    lock: &TurnLock<SharedFabric>,
    pass: Pass<SharedFabric>,
    event: Event,
    hand: Option<Signal>,
) -> (Pass<SharedFabric>, Result<StepAnswer, StepStop>)
    requires lock { IsPassOf lock.now pass }
    requires asks { CanAsk pass (asking event hand) }
    ensures { IsAsked pass (asking event hand) result.1 result.0 }
{
    let mut held = lock.take(rt, pass);
    let number = held.number();
    let answer = held.state().step(By::Actor(number), event, hand);
    (lock.give(held), answer)
}
