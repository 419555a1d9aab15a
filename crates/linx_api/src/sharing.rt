//! A shared fabric before its first step: the lock that it lies behind, and the passes.
ghost use Rattle.std.specs.Prelude.{◌≡◌, ◌<◌, All, IfOk, length};
ghost use Rattle.turn_lock.specs.Passes.{AreDealt};
ghost use Rattle.fabric.specs.Remains.{IsLaidOut};
ghost use Rattle.linx_api.specs.Newcomers.{IsNewcomer, makers_of};

use crate::shared_fabric::SharedFabric;
use linx_base::{LinkDecl, Names, NoMemory, NodeNo};
use std::alloc::Global;
use turn_lock::{Pass, TurnLock};

/// A lock, and the passes that it deals out.
pub type Dealt = (TurnLock<SharedFabric>, Vec<Pass<SharedFabric>>);

/// Lays out a fabric without steps, as `Fabric::new` does, and puts it behind a lock with a pass for
/// each actor and, behind these, one for the pump of each link, numbered from 1. `Endpoint::new`
/// makes the side of an actor of its pass, from which calls can be made at once.
pub fn share(
    alloc: Global,
    names: Names,
    links: &[LinkDecl],
    actors: &[NodeNo],
) -> Result<Dealt, NoMemory>
    requires laid_out { IsLaidOut (length names.nodes)
        (record { links = links.now; actors = actors.now }) }
    requires makers { 0 < makers_of (record { links = links.now; actors = actors.now }) }
    ensures dealt { IfOk result (λ dealt. AreDealt dealt.0
        (record {
          names = names;
          shape = record { links = links.now; actors = actors.now };
        })
        dealt.1.items) }
    ensures seats { IfOk result (λ dealt. dealt.0.seats
        ≡ makers_of (record { links = links.now; actors = actors.now })) }
    ensures newcomers { IfOk result (λ dealt. All
        (IsNewcomer dealt.0 (record { links = links.now; actors = actors.now }))
        dealt.1.items) }
{
    let seats = actors.len() as u32 + links.len() as u32;
    let shared = SharedFabric::new(alloc, names, links, actors)?;
    let (lock, passes) = TurnLock::new(alloc, shared, seats)?;
    Ok((lock, passes))
}
