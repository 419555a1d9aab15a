//! The calls of an actor, each of which gives it back with the answer.
ghost use Rattle.std.specs.Prelude.{◌≡◌, ◌≤◌, length};
ghost use Rattle.linx_base.specs.Content.{data_limit};

use crate::answers::Answer;
use crate::callers::{Caller, LINK, named};
use journal::Event;
use linx_base::{AttRef, Blob, Inc, Path, Peer, Signal, TryCopy};
use node_kernel::StepAnswer;
use sigsel::Sigsel;
use std::alloc::Global;
use std::process::Abort;
use std::sync::Wait;

/// An actor after a call, and the answer.
pub type Told<'a> = (Caller<'a>, Answer);

fn signal(rt: &impl Abort, alloc: Global, number: u32, bytes: &[u8]) -> Signal {
    Signal::alloc(alloc, number, bytes)
        .ok()
        .expect(rt, "a signal")
}

pub fn open<'a, R: Abort + Wait>(
    rt: &R,
    alloc: Global,
    caller: Caller<'a>,
    name: &str,
) -> Told<'a> {
    let Caller { end, number, last } = caller;
    let (end, answer) = end.open(rt, named(rt, alloc, name.as_bytes()));
    (Caller { end, number, last }, answer)
}

pub fn close<'a, R: Wait>(rt: &R, caller: Caller<'a>) -> Told<'a> {
    let Caller { end, number, last } = caller;
    let (end, answer) = end.close(rt);
    (Caller { end, number, last }, answer)
}

/// Sends a signal to an incarnation of the own node.
pub fn send<'a, R: Abort + Wait>(
    rt: &R,
    alloc: Global,
    caller: Caller<'a>,
    to: Inc,
    (of, data): (u32, &str),
) -> Told<'a> {
    let Caller { end, number, last } = caller;
    let (end, answer) = end.send(rt, signal(rt, alloc, of, data.as_bytes()), Peer::Here(to));
    (Caller { end, number, last }, answer)
}

/// Sends a signal to whom the item is from that was taken last.
pub fn answer<'a, R: Abort + Wait>(
    rt: &R,
    alloc: Global,
    caller: Caller<'a>,
    (of, data): (u32, &str),
) -> Told<'a> {
    let Caller { end, number, last } = caller;
    let Some(item) = &last else {
        panic!(rt; "nothing was taken")
    };
    let (end, answer) = end.send(rt, signal(rt, alloc, of, data.as_bytes()), item.from);
    (Caller { end, number, last }, answer)
}

/// Sends back the signal that was taken last.
pub fn give_back<'a, R: Abort + Wait>(rt: &R, caller: Caller<'a>) -> Told<'a> {
    let Caller { end, number, last } = caller;
    let Some(item) = last else {
        panic!(rt; "nothing was taken")
    };
    let (end, answer) = end.send(rt, item.signal, item.from);
    let last = None;
    (Caller { end, number, last }, answer)
}

/// Sends a signal of these bytes, which aren't copied.
pub fn send_shared<'a, R: Abort + Wait>(
    rt: &R,
    caller: Caller<'a>,
    bytes: &Blob,
    to: Inc,
) -> Told<'a> {
    let Caller { end, number, last } = caller;
    assert!(rt; bytes.len() <= 65_532);
    let shared = bytes.copy().ok().expect(rt, "a copy");
    let (end, answer) = end.send(rt, Signal::of(7, shared), Peer::Here(to));
    (Caller { end, number, last }, answer)
}

pub fn receive<'a, R: Wait>(rt: &R, caller: Caller<'a>) -> Told<'a> {
    let Caller { end, number, last } = caller;
    let (end, answer) = end.receive(rt, Sigsel::Any);
    (Caller { end, number, last }, answer)
}

/// Receives until something is there.
pub fn wait_for_item<'a, R: Wait>(rt: &R, caller: Caller<'a>) -> Told<'a> {
    let mut caller = caller;
    for _ in rt.forever() {
        let (next, answer) = receive(rt, caller);
        caller = next;
        if !matches!(&answer, Ok(StepAnswer::NotYet)) {
            return (caller, answer);
        }
    }
    unreachable!()
}

/// The actor on node 2 hunts for a name over the link.
pub fn hunt<'a, R: Abort + Wait>(
    rt: &R,
    alloc: Global,
    caller: Caller<'a>,
    name: &str,
) -> Told<'a> {
    let Caller { end, number, last } = caller;
    assert!(rt; number == 2);
    let path = Path::Over {
        link: LINK,
        name: named(rt, alloc, name.as_bytes()),
    };
    let (end, answer) = end.hunt(rt, path, signal(rt, alloc, 1, b""));
    (Caller { end, number, last }, answer)
}

/// Attaches to an incarnation of the own node, and hands over the signal that tells of its end.
pub fn attach<'a, R: Abort + Wait>(
    rt: &R,
    alloc: Global,
    caller: Caller<'a>,
    to: Inc,
    (of, data): (u32, &str),
) -> Told<'a> {
    let Caller { end, number, last } = caller;
    let note = signal(rt, alloc, of, data.as_bytes());
    assert!(rt; note.bytes().len() < 65_532);
    let (end, answer) = end.attach(rt, Peer::Here(to), note);
    (Caller { end, number, last }, answer)
}

/// Takes back the attach of this step.
pub fn detach<'a, R: Wait>(rt: &R, caller: Caller<'a>, step: u64) -> Told<'a> {
    let Caller { end, number, last } = caller;
    let (end, answer) = end.detach(rt, AttRef(step));
    (Caller { end, number, last }, answer)
}

/// The actor ends.
pub fn finish<R: Abort + Wait>(rt: &R, caller: Caller<'_>) {
    let Caller { end, .. } = caller;
    let (_, answer) = end.ask(rt, Event::End, None);
    assert!(rt; matches!(&answer, Ok(StepAnswer::Done)));
}
