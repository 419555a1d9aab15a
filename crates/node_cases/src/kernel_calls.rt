//! The calls of a kernel, each made only where its conditions hold.

use journal::{Detached, Effects};
use linx_base::{AttRef, Inc, Item, Name, NoMemory, Path, Peer, Signal};
use node_kernel::{Kernel, OpenError, OpenedAs, Sent};
use sigsel::Sigsel;
use std::test::Fail;

/// A call that gives its signal back was refused.
fn refused(_back: (NoMemory, Signal)) -> Fail {
    Fail::from("out of memory")
}

/// An endpoint opens. Where the node is full, the name comes back.
pub fn open(kernel: &mut Kernel, name: Name, step: u64) -> Result<Result<OpenedAs, Name>, Fail> {
    if kernel.openings() > 5_000 {
        return Err(Fail::from("too many openings"));
    }
    match kernel.open(name, step) {
        Ok(opened) => Ok(Ok(opened)),
        Err(OpenError::Full(name)) => Ok(Err(name)),
        Err(OpenError::NoMemory(_)) => Err(Fail::from("out of memory")),
    }
}

/// An endpoint closes.
pub fn close(kernel: &mut Kernel, at: Inc, step: u64) -> Result<Effects, Fail> {
    if !kernel.is_open(at) {
        return Err(Fail::from("not open"));
    }
    Ok(kernel.close(at, step)?)
}

/// A signal is sent to a peer.
pub fn send(
    kernel: &mut Kernel,
    from: Inc,
    to: Peer,
    signal: Signal,
    step: u64,
) -> Result<Sent, Fail> {
    if !kernel.is_open(from) {
        return Err(Fail::from("not open"));
    }
    kernel.send(from, to, signal, step).map_err(refused)
}

/// A signal arrives over a link.
pub fn arrive(
    kernel: &mut Kernel,
    at: Inc,
    from: Peer,
    signal: Signal,
    step: u64,
) -> Result<Effects, Fail> {
    if !kernel.is_open(at) {
        return Err(Fail::from("not open"));
    }
    kernel.arrived(at, from, signal, step).map_err(refused)
}

/// An endpoint hunts for a path.
pub fn hunt(
    kernel: &mut Kernel,
    at: Inc,
    path: Path,
    signal: Signal,
    step: u64,
) -> Result<Effects, Fail> {
    if !kernel.is_open(at) {
        return Err(Fail::from("not open"));
    }
    kernel.hunt(at, path, signal, step).map_err(refused)
}

/// An endpoint attaches to a peer.
pub fn attach(
    kernel: &mut Kernel,
    at: Inc,
    peer: Peer,
    signal: Signal,
    step: u64,
) -> Result<Effects, Fail> {
    if !kernel.is_open(at) || signal.bytes().len() > 100 {
        return Err(Fail::from("not open, or too long a signal"));
    }
    kernel
        .attach(at, peer, signal, AttRef(step))
        .map_err(refused)
}

/// An endpoint detaches what it attached in a step.
pub fn detach(kernel: &mut Kernel, at: Inc, step: u64) -> Result<Detached, Fail> {
    if !kernel.is_open(at) {
        return Err(Fail::from("not open"));
    }
    Ok(kernel.detach(at, AttRef(step)))
}

/// An endpoint takes the earliest item that a filter selects.
pub fn take(kernel: &mut Kernel, at: Inc, filter: &Sigsel) -> Result<Option<Item>, Fail> {
    if !kernel.is_open(at) {
        return Err(Fail::from("not open"));
    }
    Ok(kernel.receive(at, filter))
}

/// Whether a filter selects an item at an endpoint.
pub fn holds(kernel: &Kernel, at: Inc, filter: &Sigsel) -> Result<bool, Fail> {
    if !kernel.is_open(at) {
        return Err(Fail::from("not open"));
    }
    Ok(kernel.holds(at, filter))
}
