//! Actors that call, line by line: a call, and what it answers.
ghost use Rattle.std.specs.Prelude.{All};
ghost use Rattle.thread_cases.specs.Fresh.{IsFresh};

use crate::actor_calls::{
    Told, answer, attach, close, detach, give_back, hunt, open, receive, send, send_shared,
    wait_for_item,
};
use crate::answers::answer_text;
use crate::callers::{Caller, caller_of, locked};
use linx_api::SharedFabric;
use linx_base::{Blob, Inc, NodeNo};
use node_kernel::StepAnswer;
use std::alloc::Global;
use std::mem;
use std::process::Abort;
use std::sync::Wait;
use std::test::Fail;
use turn_lock::{Pass, TurnLock};

/// The word in front, and what stands behind it.
fn front(text: &str) -> (&str, &str) {
    text.split_once(' ').unwrap_or((text, ""))
}

/// The number and the data of a signal.
fn signal_of<'t>(rt: &impl Abort, text: &'t str) -> (u32, &'t str) {
    let (number, data) = front(text);
    (number.parse().ok().expect(rt, "a number"), data)
}

/// The endpoint of an opening on node 1.
fn opening(rt: &impl Abort, word: &str) -> Inc {
    Inc::of(NodeNo(1), word.parse().ok().expect(rt, "an opening"))
}

/// The step of an attach.
fn reference(rt: &impl Abort, word: &str) -> u64 {
    let step = word.strip_prefix('@').expect(rt, "a reference");
    step.parse().ok().expect(rt, "a step")
}

/// What a call, by its first word and those behind it, tells.
fn called<'a, R: Abort + Wait>(rt: &R, alloc: Global, caller: Caller<'a>, call: &str) -> Told<'a> {
    let (word, rest) = front(call);
    match word {
        "open" => open(rt, alloc, caller, rest),
        "close" => close(rt, caller),
        "send" => {
            let (to, rest) = front(rest);
            send(rt, alloc, caller, opening(rt, to), signal_of(rt, rest))
        }
        "answer" => answer(rt, alloc, caller, signal_of(rt, rest)),
        "give_back" => give_back(rt, caller),
        "hunt" => hunt(rt, alloc, caller, rest),
        "attach" => {
            let (to, rest) = front(rest);
            attach(rt, alloc, caller, opening(rt, to), signal_of(rt, rest))
        }
        "detach" => detach(rt, caller, reference(rt, rest)),
        "receive" => receive(rt, caller),
        _ => wait_for_item(rt, caller),
    }
}

/// An actor, with what it took.
fn with_item<'a>(told: Told<'a>) -> Caller<'a> {
    let (caller, answer) = told;
    let Caller { end, number, last } = caller;
    match answer {
        Ok(StepAnswer::Took(item)) => Caller {
            end,
            number,
            last: Some(item),
        },
        _ => Caller { end, number, last },
    }
}

/// An actor makes the call of a line, and is answered what stands behind the colon.
fn follows<'a, R: Abort + Wait>(
    rt: &R,
    alloc: Global,
    caller: Caller<'a>,
    line: &str,
) -> Caller<'a> {
    let (call, wanted) = line.split_once(':').expect(rt, "a colon");
    let told = called(rt, alloc, caller, call.trim());
    let text = answer_text(alloc, &told.1).ok().expect(rt, "a text");
    assert!(rt; text.as_str().trim() == wanted.trim(), "{line}");
    with_item(told)
}

/// An actor follows the lines.
pub fn follow<'a, R: Abort + Wait>(
    rt: &R,
    alloc: Global,
    caller: Caller<'a>,
    lines: &str,
) -> Caller<'a> {
    let mut caller = caller;
    for line in lines.lines() {
        caller = follows(rt, alloc, caller, line);
    }
    caller
}

/// The actor that has the last of these passes.
pub fn last_caller<'a>(
    rt: &impl Abort,
    lock: &'a TurnLock<SharedFabric>,
    passes: &mut Vec<Pass<SharedFabric>>,
) -> Caller<'a>
    requires { All (IsFresh lock.now) passes.old.items }
    ensures { All (IsFresh lock.now) passes.new.items }
{
    let Some(pass) = passes.pop() else {
        panic!(rt; "no pass")
    };
    caller_of(rt, lock, pass)
}

/// Two actors on node 1 call, in turns.
fn exchange<R: Abort + Wait>(
    rt: &R,
    alloc: Global,
    lock: &TurnLock<SharedFabric>,
    passes: Vec<Pass<SharedFabric>>,
)
    requires { All (IsFresh lock.now) passes.items }
{
    let mut passes = passes;
    let second = last_caller(rt, lock, &mut passes);
    let _ = passes.pop();
    let first = last_caller(rt, lock, &mut passes);
    let first = follow(rt, alloc, first, "open a: opened 1.1");
    let second = follow(rt, alloc, second, "open b: opened 1.2");
    let first = follow(rt, alloc, first, "receive: not yet");
    let second = follow(rt, alloc, second, "send 1 5 ask: queued");
    let _ = follow(rt, alloc, first, "wait: took 1.2 5 ask\ngive_back: queued");
    let second = follow(rt, alloc, second, "wait: took 1.1 5 ask");
    assert!(rt; matches!(&second.last, Some(item) if item.pos.step == 6));
    let _ = follow(rt, alloc, second, "close: closed");
}

#[test]
fn two_endpoints_exchange_a_signal(rt: HostRuntime) {
    let (lock, passes) = locked(&rt, rt.alloc(), 3);
    exchange(&rt, rt.alloc(), &lock, passes);
    mem::forget(lock);
}

/// Two actors on node 1 attach to each other, and the second takes its attach back and closes. The
/// first is told once, by the signal of its attach with the reason 00 behind it, takes back the
/// attach of which it wasn't told yet, and then finds neither. An attach to who is closed is
/// answered at once, with the reason 02.
fn watch<R: Abort + Wait>(
    rt: &R,
    alloc: Global,
    lock: &TurnLock<SharedFabric>,
    passes: Vec<Pass<SharedFabric>>,
)
    requires { All (IsFresh lock.now) passes.items }
{
    let mut passes = passes;
    let second = last_caller(rt, lock, &mut passes);
    let _ = passes.pop();
    let first = last_caller(rt, lock, &mut passes);
    let first = follow(rt, alloc, first, "open a: opened 1.1");
    let second = follow(rt, alloc, second, "open b: opened 1.2");
    let first = follow(rt, alloc, first, WATCH);
    let second = follow(rt, alloc, second, TAKE_BACK);
    let _ = follow(rt, alloc, first, LEARN);
    let _ = follow(rt, alloc, second, "detach @5: refused not-open");
}

/// Steps 3 and 4: it attaches twice.
const WATCH: &str = "attach 2 9 gone: attached @3
    attach 2 8 late: attached @4";

/// Steps 5 to 7: it attaches, takes that back and closes.
const TAKE_BACK: &str = "attach 1 7 end: attached @5
    detach @5: detached pending
    close: closed";

/// Steps 8 to 14: what it is told, and what is left of its attaches.
const LEARN: &str = "wait: noticed 1.2 9 gone\0
    detach @4: detached queued
    detach @4: detached none
    detach @3: detached none
    attach 2 6 over: attached @12
    wait: noticed 1.2 6 over\x02
    receive: not yet";

#[test]
fn an_actor_is_told_that_another_closed(rt: HostRuntime) {
    let (lock, passes) = locked(&rt, rt.alloc(), 3);
    watch(&rt, rt.alloc(), &lock, passes);
    mem::forget(lock);
}

/// An actor sends the same bytes to itself, so often.
fn send_often<'a, R: Abort + Wait>(
    rt: &R,
    caller: Caller<'a>,
    bytes: &Blob,
    times: u32,
) -> Caller<'a> {
    let mut caller = caller;
    for _ in 0..times {
        let (next, answer) = send_shared(rt, caller, bytes, Inc::of(NodeNo(1), 1));
        assert!(rt; matches!(&answer, Ok(StepAnswer::Sent(_))));
        caller = next;
    }
    caller
}

/// A signal of 65,536 bytes is noted twice, as sent and as arrived.
pub fn fill_the_journal<R: Abort + Wait>(
    rt: &R,
    alloc: Global,
    caller: Caller<'_>,
) -> Result<(), Fail> {
    let caller = follow(rt, alloc, caller, "open a: opened 1.1");
    let bytes = Blob::shared(Vec::from_elem(alloc, 0, 65_532)?)?;
    let caller = send_often(rt, caller, &bytes, 512);
    let _ = follow(
        rt,
        alloc,
        caller,
        "send 1 8 back: full 8 back\nreceive: full",
    );
    Ok(())
}

#[test]
fn a_full_journal_gives_the_hand_back(rt: HostRuntime) -> Result<(), Fail> {
    let (lock, mut passes) = locked(&rt, rt.alloc(), 3);
    let outcome = fill_the_journal(&rt, rt.alloc(), last_caller(&rt, &lock, &mut passes));
    mem::forget(passes);
    mem::forget(lock);
    outcome
}
