//! Endpoints on two nodes, each in a thread of its own, beside the pump of the link.
ghost use Rattle.std.specs.Prelude.{All};
ghost use Rattle.thread_cases.specs.Fresh.{IsFresh};

use crate::actor_calls::finish;
use crate::callers::{caller_of, locked};
use crate::endpoints::follow;
use crate::link_side::{link_side, pump};
use linx_api::{SharedFabric, fabric_is_send};
use std::alloc::{AllocError, Global};
use std::process::Abort;
use std::sync::Wait;
use std::test::Fail;
use std::thread::Threads;
use std::{mem, thread};
use turn_lock::{Pass, TurnLock};

/// It opens an endpoint, waits for a signal and sends it back.
const SERVER: &str = "open server: opened 1.1
    wait: took 2.1 over 1 2 ask
    give_back: link";

/// It hunts for the server over the link, sends it a signal and waits for the answer.
const CLIENT: &str = "open client: opened 2.1
    hunt server: hunted
    wait: found 1.1 over 1 1
    answer 2 ask: link
    wait: took 1.1 over 1 2 ask";

/// What a worker does, by the number of its pass, which it answers: the server, the client, an
/// actor that ends at once, and the pump.
fn work<R: Abort + Wait>(
    rt: &R,
    alloc: Global,
    lock: &TurnLock<SharedFabric>,
    pass: Pass<SharedFabric>,
) -> u32
    requires { IsFresh lock.now pass }
{
    let number = pass.number();
    if number == 4 {
        pump(rt, link_side(rt, lock, pass));
        return number;
    }
    let caller = caller_of(rt, lock, pass);
    let lines = match number {
        1 => SERVER,
        2 => CLIENT,
        _ => "",
    };
    finish(rt, follow(rt, alloc, caller, lines));
    number
}

/// Each pass in a thread of its own. The answer is who came to the end.
fn work_with_all<R: Abort + Threads + Wait + Sync>(
    rt: &R,
    alloc: Global,
    lock: &TurnLock<SharedFabric>,
    passes: Vec<Pass<SharedFabric>>,
) -> Result<Vec<u32>, AllocError>
    requires { All (IsFresh lock.now) passes.items }
{
    let each = |pass: Pass<SharedFabric>| -> u32
        requires { IsFresh lock.now pass }
    { work(rt, alloc, lock, pass) };
    fabric_is_send();
    thread::map_vec(rt, passes, &each)
}

#[test]
fn calls_over_a_link_find_each_other(rt: HostRuntime) -> Result<(), Fail> {
    let (lock, passes) = locked(&rt, rt.alloc(), 4);
    let outcome = work_with_all(&rt, rt.alloc(), &lock, passes);
    mem::forget(lock);
    let ended = outcome?;
    assert!(rt; ended.as_slice() == [1, 2, 3, 4].as_slice());
    Ok(())
}
