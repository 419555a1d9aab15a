//! A lock over a log, and the turns of its passes.
ghost use Rattle.std.specs.Prelude.{◌≡◌, ◌∷◌, ◌++◌, [], All, IfOk};
ghost use Rattle.turn_lock.specs.Passes.{IsPassOf};

use std::alloc::AllocError;
use std::sync::Wait;
use std::test::Fail;
use std::thread;
use std::thread::Threads;
use std::time::{Clock, Duration};
use turn_lock::{CloseRefused, Log, Pass, Story, TurnLock, add_step};

/// How many steps of the log are of this maker.
fn count(log: &Log, maker: u32) -> u64 {
    let mut count: u64 = 0;
    for k in 0..log.steps() {
        if log.maker(k + 1) == maker {
            count = count.wrapping_add(1);
        }
    }
    count
}

/// Adds so many steps, one a turn, as far as memory goes.
fn work<R: Wait>(rt: &R, lock: &TurnLock<Log>, mut pass: Pass<Log>, times: u32) -> Pass<Log>
    requires { IsPassOf lock.now pass }
    ensures { IsPassOf lock.now result }
{
    for _ in 0..times {
        let (back, _) = add_step(rt, lock, pass);
        pass = back;
    }
    pass
}

/// So many turns of a millisecond that add nothing.
fn linger<R: Wait + Clock>(
    rt: &R,
    lock: &TurnLock<Log>,
    mut pass: Pass<Log>,
    times: u32,
) -> Pass<Log>
    requires { IsPassOf lock.now pass }
    ensures { IsPassOf lock.now result }
{
    for _ in 0..times {
        let held = lock.take(rt, pass);
        thread::sleep(rt, Duration::from_millis(1));
        pass = lock.give(held);
    }
    pass
}

/// Both, with each pass in a thread of its own.
fn work_with_all<R: Threads + Wait + Clock + Sync>(
    rt: &R,
    lock: &TurnLock<Log>,
    passes: Vec<Pass<Log>>,
) -> Result<Vec<Pass<Log>>, AllocError>
    requires { All (IsPassOf lock.now) passes.items }
    ensures { IfOk result (λ v. All (IsPassOf lock.now) v.items) }
{
    let each = |pass: Pass<Log>| -> Pass<Log>
        requires { IsPassOf lock.now pass }
        ensures { IsPassOf lock.entry.now result }
    { linger(rt, lock, work(rt, lock, pass, 1000), 20) };
    thread::map_vec(rt, passes, &each)
}

fn with(mut passes: Vec<Pass<Log>>, pass: Pass<Log>) -> Result<Vec<Pass<Log>>, AllocError>
    ensures { IfOk result (λ v. v.items ≡ passes.items ++ pass ∷ []) }
{
    passes.push(pass)?;
    Ok(passes)
}

/// Closes a lock with these passes and one more.
fn closed(lock: TurnLock<Log>, passes: Vec<Pass<Log>>, pass: Pass<Log>) -> Result<Log, Fail>
    requires passes { All (IsPassOf lock) passes.items }
    requires pass { IsPassOf lock pass }
{
    let Ok(log) = lock.close(with(passes, pass)?) else {
        return Err(Fail::from("refused all passes"));
    };
    Ok(log)
}

#[test]
fn a_lock_closes_with_all_its_passes_alone(rt: HostRuntime) -> Result<(), Fail> {
    let (lock, mut passes) = TurnLock::new(rt.alloc(), Log::new(rt.alloc(), 7), 2)?;
    let Some(two) = passes.pop() else {
        return Err(Fail::from("no pass"));
    };
    let Err(refused) = lock.close(passes) else {
        return Err(Fail::from("closed without the pass 2"));
    };
    let CloseRefused {
        lock,
        passes,
        missing,
    } = refused;
    assert_eq!(rt; (missing, passes.len()), (2, 1));
    let log = closed(lock, passes, two)?;
    assert_eq!(rt; (log.steps(), log.title()), (0, 7));
    Ok(())
}

#[test]
fn threads_that_look_and_that_sleep_all_get_their_turns(rt: HostRuntime) -> Result<(), Fail> {
    let (lock, passes) = TurnLock::new(rt.alloc(), Log::new(rt.alloc(), 0), 3)?;
    let passes = work_with_all(&rt, &lock, passes)?;
    let Ok(log) = lock.close(passes) else {
        return Err(Fail::from("refused all passes"));
    };
    assert!(rt; log.steps() == 3000);
    for maker in [1, 2, 3] {
        assert_eq!(rt; count(&log, maker), 1000, "steps of {maker}");
    }
    Ok(())
}
