//! The actors of one fabric, and the lock that they share.
ghost use Rattle.std.specs.Prelude.{◌≡◌, ◌<◌, ◌≤◌, [], All, length};
ghost use Rattle.linx_api.specs.Asked.{IsRunning};
ghost use Rattle.thread_cases.specs.Fresh.{IsFresh, one_link};

use linx_api::{Endpoint, SharedFabric};
use linx_base::{Item, LinkDecl, LinkNo, Name, NameList, Names, NodeNo};
use std::alloc::Global;
use std::process::Abort;
use turn_lock::{Pass, TurnLock};

/// The link between the two nodes.
pub const LINK: LinkNo = LinkNo(1);

/// The side of an actor that hasn't ended, its number, and the item that it took last.
#[derive(Drop)]
pub struct Caller<'a> {
    pub end: Endpoint<'a>,
    pub number: u32,
    pub last: Option<Item>,
    ghost running: { IsRunning end },
    ghost over: { end.fixed.shape ≡ one_link },
    ghost numbered: { end.number ≡ number },
}

pub fn named(rt: &impl Abort, alloc: Global, bytes: &[u8]) -> Name {
    Name::of(alloc, bytes).ok().expect(rt, "a name")
}

/// Nodes n and m, and link k.
fn names(rt: &impl Abort, alloc: Global) -> Names
    ensures { length result.nodes ≡ 2 }
{
    let mut nodes = NameList::new(alloc);
    assert!(rt; nodes.push(named(rt, alloc, b"n")).is_ok());
    assert!(rt; nodes.push(named(rt, alloc, b"m")).is_ok());
    let mut links = NameList::new(alloc);
    assert!(rt; links.push(named(rt, alloc, b"k")).is_ok());
    assert!(rt; nodes.len() == 2);
    Names { nodes, links }
}

/// A fabric with a link between nodes 1 and 2, and actors on nodes 1, 2 and 1.
fn fabric(rt: &impl Abort, alloc: Global) -> SharedFabric
    ensures over { result.run.shape ≡ one_link }
    ensures unstarted { result.run.log.steps ≡ [] }
{
    let link = LinkDecl {
        first: NodeNo(1),
        second: NodeNo(2),
        window: 4,
        piece: 64,
    };
    let actors = [NodeNo(1), NodeNo(2), NodeNo(1)];
    let Ok(fabric) = SharedFabric::new(alloc, names(rt, alloc), &[link], &actors) else {
        panic!(rt; "no fabric")
    };
    fabric
}

/// A lock over it, and its passes, so many.
#[tactic(auto, using(crate::proofs::Fresh::all_fresh))]
pub fn locked(
    rt: &impl Abort,
    alloc: Global,
    seats: u32,
) -> (TurnLock<SharedFabric>, Vec<Pass<SharedFabric>>)
    requires { (0 < seats) × (seats ≤ 96) }
    ensures { All (IsFresh result.0) result.1.items }
{
    let Ok(locked) = TurnLock::new(alloc, fabric(rt, alloc), seats) else {
        panic!(rt; "no lock")
    };
    locked
}

/// The actor that has this pass.
#[tactic(auto, using(crate::proofs::Fresh::fresh_runs))]
pub fn caller_of<'a>(
    rt: &impl Abort,
    lock: &'a TurnLock<SharedFabric>,
    pass: Pass<SharedFabric>,
) -> Caller<'a>
    requires { IsFresh lock.now pass }
{
    let number = pass.number();
    assert!(rt; 0 < number && number <= 3);
    let end = Endpoint::new(lock, pass);
    Caller {
        end,
        number,
        last: None,
    }
}
