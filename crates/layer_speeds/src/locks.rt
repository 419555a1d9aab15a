//! A turn of the lock, a take and a give that add nothing: on one thread, and on several that want
//! it at once.

ghost use Rattle.std.specs.Prelude.{◌<◌, ◌≤◌};
ghost use Rattle.turn_lock.specs.Passes.{IsPassOf};

use crate::watch::{Times, Watch};
use anyhow::{Context, bail};
use std::alloc::Global;
use std::io::Print;
use std::sync::Wait;
use std::thread;
use std::thread::Threads;
use std::time::Clock;
use turn_lock::{Log, Pass, TurnLock};

/// So many turns of a pass.
fn turns<R: Wait>(rt: &R, lock: &TurnLock<Log>, mut pass: Pass<Log>, count: u32) -> Pass<Log>
    requires { IsPassOf lock.now pass }
    ensures { IsPassOf lock.now result }
{
    for _ in 0..count {
        pass = lock.give(lock.take(rt, pass));
    }
    pass
}

/// So many threads take so many turns each. The answer is how many threads there were.
fn taken<R: Threads + Wait + Sync>(
    rt: &R,
    alloc: Global,
    threads: u32,
    each: u32,
) -> anyhow::Result<usize>
    requires some { 0 < threads }
    requires few { threads ≤ 96 }
{
    let Ok((lock, passes)) = TurnLock::new(alloc, Log::new(alloc, 0), threads) else {
        bail!("lock");
    };
    let shared = &lock;
    let work = |pass: Pass<Log>| -> u32
        requires { IsPassOf shared.now pass }
    { turns(rt, shared, pass, each).number() };
    let done = thread::map_vec(rt, passes, &work).context("threads")?;
    Ok(done.len())
}

/// So many turns are taken, in as many threads.
pub fn work<R: Threads + Wait + Sync + Clock + Print>(
    rt: &R,
    alloc: Global,
    size: u32,
    times: Times,
) -> anyhow::Result<()> {
    for threads in [1, 2, 4, 24] {
        let watch = Watch::new(rt, times)?;
        let done = taken(rt, alloc, threads, size / threads)?;
        let done = format!(in alloc; "{done} threads, {size} turns together")?;
        watch.tell_each(rt, done.as_str(), size)?;
    }
    Ok(())
}
