//! The calls of a trunk, each an event, and tried only where its conditions hold.

use carrier::TickedSide;
use linx_base::{Inc, Name, Side, Signal};
use std::test::Fail;
use trunk::{SideCall, Trunk, TrunkUp};

/// The packet at place k from a side comes to the other one.
pub fn deliver(t: &mut Trunk, from: Side, k: usize, keep: bool) -> Result<TrunkUp, Fail> {
    t.keep();
    let to = from.other();
    if k >= t.in_flight(from) {
        return Err(Fail::from("no such packet"));
    }
    if t.mine(to).count() == u32::MAX || t.frames_left(to) < 4_096 {
        return Err(Fail::from("no numbers are left"));
    }
    let up = t.deliver(from, k, keep)?;
    Ok(up)
}

/// A side is ticked.
pub fn tick(t: &mut Trunk, side: Side) -> Result<TickedSide, Fail> {
    t.keep();
    if t.mine(side).count() == u32::MAX {
        return Err(Fail::from("no session follows"));
    }
    let ticked = t.tick(side)?;
    Ok(ticked)
}

/// A side boots again.
pub fn restart(t: &mut Trunk, side: Side, boot: u32) -> Result<(), Fail> {
    t.keep();
    if t.mine(side).boot() >= boot {
        return Err(Fail::from("no later boot"));
    }
    t.call(side, SideCall::Restarted(boot))?;
    Ok(())
}

/// The packet at place k from a side is lost.
pub fn lose(t: &mut Trunk, from: Side, k: usize) -> Result<(), Fail> {
    t.keep();
    if k >= t.in_flight(from) {
        return Err(Fail::from("no such packet"));
    }
    t.lose(from, k);
    Ok(())
}

/// The packets at places k and n from a side are exchanged.
pub fn swap(t: &mut Trunk, from: Side, k: usize, n: usize) -> Result<(), Fail> {
    t.keep();
    if k >= t.in_flight(from) || n >= t.in_flight(from) {
        return Err(Fail::from("no such packets"));
    }
    t.swap(from, k, n);
    Ok(())
}

/// An endpoint is published, or it opened, where that may be. The answer is whether it was.
pub fn publish(
    t: &mut Trunk,
    side: Side,
    inc: Inc,
    name: &Name,
    is_new: bool,
) -> Result<bool, Fail> {
    t.keep();
    if t.frames_left(side) < 4_096 || !t.may_publish(side, inc, name) {
        return Ok(false);
    }
    if is_new {
        t.call(side, SideCall::Opened(inc, name))?;
    } else {
        t.call(side, SideCall::Published(inc, name))?;
    }
    Ok(true)
}

/// An endpoint closes.
pub fn close(t: &mut Trunk, side: Side, inc: Inc) -> Result<(), Fail> {
    t.keep();
    if t.frames_left(side) < 4_096 {
        return Err(Fail::from("no numbers are left"));
    }
    t.call(side, SideCall::Closed(inc))?;
    Ok(())
}

/// A name is asked for.
pub fn query(t: &mut Trunk, side: Side, name: &Name) -> Result<(), Fail> {
    t.keep();
    if t.frames_left(side) < 4_096 {
        return Err(Fail::from("no numbers are left"));
    }
    t.call(side, SideCall::Asked(name))?;
    Ok(())
}

/// A signal is sent where that may be. The answer is whether it was.
pub fn send(
    t: &mut Trunk,
    side: Side,
    from: Inc,
    name: &Name,
    to: Inc,
    signal: &Signal,
) -> Result<bool, Fail> {
    t.keep();
    if t.frames_left(side) < 4_096 || !t.may_send(side, from, name, to, signal) {
        return Ok(false);
    }
    t.call(side, SideCall::Sent(from, name, to, signal))?;
    Ok(true)
}
