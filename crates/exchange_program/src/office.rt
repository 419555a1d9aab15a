//! The office: a node without links, the three actors on it, and a thread for each of them.
ghost use Rattle.std.specs.Prelude.{◌≡◌, All, IfOk, length};
ghost use Rattle.linx_api.specs.Newcomers.{IsNewcomer};
ghost use Rattle.exchange_program.specs.Office.{office};

use crate::client::ask;
use crate::server::serve;
use anyhow::Result;
use linx_api::{Endpoint, SharedFabric, fabric_is_send, share};
use linx_base::{Name, NameList, Names, NodeNo};
use std::alloc::Global;
use std::sync::Wait;
use std::thread::{Threads, map_vec};
use turn_lock::{Pass, TurnLock};

/// The names of all nodes and links: there is one node, `office`.
fn names(alloc: Global) -> Result<Names>
    ensures { IfOk result (λ names. length names.nodes ≡ 1) }
{
    let nodes = NameList::one(alloc, Name::of(alloc, b"office")?)?;
    let links = NameList::new(alloc);
    Ok(Names { nodes, links })
}

/// What the actor of a pass does, and has to tell: 1 is the server, 2 and 3 are the clients.
fn act<R: Wait>(
    rt: &R,
    alloc: Global,
    lock: &TurnLock<SharedFabric>,
    pass: Pass<SharedFabric>,
) -> Result<String>
    requires { IsNewcomer lock.now office pass }
{
    let number = pass.number();
    // The side of this actor, at which it makes all its calls.
    let end = Endpoint::new(lock, pass);
    match number {
        1 => serve(rt, alloc, end),
        2 => ask(rt, alloc, end, "ann", 20),
        _ => ask(rt, alloc, end, "bob", 21),
    }
}

/// Runs all actors, each in a thread of its own, and gives what they have to tell, in their order.
pub fn run_office<R: Threads + Wait + Sync>(rt: &R, alloc: Global) -> Result<Vec<Result<String>>> {
    // Three actors on the first node. They share what happens behind one lock, and each gets a pass
    // for its turns there.
    let (lock, passes) = share(alloc, names(alloc)?, &[], &[NodeNo(1); 3])?;
    // Each pass goes to a thread, which ends with its actor. Where the system has no thread left,
    // the actors would run one behind the other, and the server wait for a question for ever.
    let each = |pass: Pass<SharedFabric>| -> Result<String>
        requires { IsNewcomer lock office pass }
    { act(rt, alloc, &lock, pass) };
    // Not a step of the run: what the prover has to know of what the threads share.
    fabric_is_send();
    Ok(map_vec(rt, passes, &each)?)
}
