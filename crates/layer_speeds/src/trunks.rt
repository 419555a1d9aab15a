//! A signal of 100 bytes on its way over a trunk: said, recorded, cut, sent, taken, joined, read,
//! recorded again and acknowledged. The second half of the signals costs what the first does,
//! however much was said before, and twice as many signals twice as much.

use crate::watch::{Times, Watch};
use anyhow::{Context, bail};
use linx_base::{Inc, Name, NodeNo, Side, Signal};
use std::alloc::Global;
use std::io::Print;
use std::mem;
use std::time::Clock;
use trunk::{SideCall, Trunk, TrunkUp};

/// The signals that are said before all packets come.
const AT_ONCE: u32 = 8;

/// An endpoint of the first side, the one of the second side to which it sends, the name of both,
/// and the signal.
#[derive(Drop)]
struct Talk {
    from: Inc,
    to: Inc,
    name: Name,
    signal: Signal,
}

fn new_talk(alloc: Global) -> anyhow::Result<Talk> {
    let data = vec![in alloc; 0x5a; 100].context("data")?;
    Ok(Talk {
        from: Inc::of(NodeNo(1), 1),
        to: Inc::of(NodeNo(2), 1),
        name: Name::of(alloc, b"server").context("name")?,
        signal: Signal::alloc(alloc, 5, data.as_slice()).context("signal")?,
    })
}

/// The packet in front comes from a side, where one flies. The answer is whether it was the last
/// piece of a signal.
fn come(t: &mut Trunk, from: Side) -> anyhow::Result<bool> {
    t.keep();
    if t.in_flight(from) == 0 {
        return Ok(false);
    }
    let to = from.other();
    if t.mine(to).count() == u32::MAX || t.frames_left(to) < 4_096 {
        bail!("no numbers are left");
    }
    match t.deliver(from, 0, false).context("deliver")? {
        TrunkUp::Arrived { .. } => Ok(true),
        _ => Ok(false),
    }
}

/// A packet comes from each side, where one flies. The answer is how many signals arrived.
fn exchange(t: &mut Trunk) -> anyhow::Result<u32> {
    let to_second = u32::from(come(t, Side::First)?);
    let to_first = u32::from(come(t, Side::Second)?);
    Ok(to_second.wrapping_add(to_first))
}

/// All packets come, in turn from each side. The answer is how many signals arrived.
fn settle(t: &mut Trunk) -> anyhow::Result<u32> {
    let mut arrived: u32 = 0;
    for _ in 0..1_000_000 {
        if t.in_flight(Side::First) == 0 && t.in_flight(Side::Second) == 0 {
            return Ok(arrived);
        }
        arrived = arrived.wrapping_add(exchange(t)?);
    }
    bail!("packets don't cease")
}

/// The first side is ticked.
fn tick(t: &mut Trunk) -> anyhow::Result<()> {
    t.keep();
    if t.mine(Side::First).count() == u32::MAX {
        bail!("no session is left");
    }
    let _ = t.tick(Side::First).context("tick")?;
    Ok(())
}

/// The receiver is published.
fn publish(t: &mut Trunk, talk: &Talk) -> anyhow::Result<()> {
    t.keep();
    if t.frames_left(Side::Second) < 4_096 || !t.may_publish(Side::Second, talk.to, &talk.name) {
        bail!("the receiver may not be published");
    }
    t.call(Side::Second, SideCall::Published(talk.to, &talk.name))
        .context("publish")
}

/// The signal is said.
fn say(t: &mut Trunk, talk: &Talk) -> anyhow::Result<()> {
    t.keep();
    if t.frames_left(Side::First) < 4_096
        || !t.may_send(Side::First, talk.from, &talk.name, talk.to, &talk.signal)
    {
        bail!("the receiver isn't met");
    }
    let said = SideCall::Sent(talk.from, &talk.name, talk.to, &talk.signal);
    t.call(Side::First, said).context("send")
}

/// So many signals are said, and all packets come. The answer is how many signals arrived.
fn send_at_once(t: &mut Trunk, talk: &Talk, count: u32) -> anyhow::Result<u32> {
    for _ in 0..count {
        say(t, talk)?;
    }
    settle(t)
}

/// So many signals are sent. The answer is how many arrive.
fn send(t: &mut Trunk, talk: &Talk, count: u32) -> anyhow::Result<u32> {
    let mut arrived: u32 = 0;
    for _ in 0..count / AT_ONCE {
        arrived = arrived.wrapping_add(send_at_once(t, talk, AT_ONCE)?);
    }
    let rest = send_at_once(t, talk, count % AT_ONCE)?;
    Ok(arrived.wrapping_add(rest))
}

/// The sides go up, and the first one meets the receiver.
fn connect(t: &mut Trunk, talk: &Talk) -> anyhow::Result<()> {
    tick(t)?;
    let _ = settle(t)?;
    publish(t, talk)?;
    let _ = settle(t)?;
    Ok(())
}

/// So many signals are sent. The answer is how many nanoseconds that took, where times are told.
fn half<R: Clock + Print>(
    rt: &R,
    alloc: Global,
    times: Times,
    t: &mut Trunk,
    talk: &Talk,
    count: u32,
) -> anyhow::Result<Option<u128>> {
    let watch = Watch::new(rt, times)?;
    let arrived = send(t, talk, count)?;
    let done = format!(in alloc; "  a half, {arrived} signals arrived")?;
    watch.tell_each(rt, done.as_str(), count)?;
    watch.spent(rt)
}

/// Prints what part of a time another one is, where they are told.
fn compare<R: Print>(
    rt: &R,
    what: &str,
    time: Option<u128>,
    with: Option<u128>,
) -> anyhow::Result<()> {
    if let (Some(time), Some(with)) = (time, with) {
        let percent = time.saturating_mul(100) / with.max(1);
        println!(rt; "  {what}: {percent} %")?;
    }
    Ok(())
}

/// So many signals go over a new trunk, in halves. The answer is how many nanoseconds that took,
/// where times are told.
fn halves<R: Clock + Print>(
    rt: &R,
    alloc: Global,
    times: Times,
    t: &mut Trunk,
    talk: &Talk,
    count: u32,
) -> anyhow::Result<Option<u128>> {
    connect(t, talk)?;
    let watch = Watch::new(rt, times)?;
    let first = half(rt, alloc, times, t, talk, count / 2)?;
    let second = half(rt, alloc, times, t, talk, count / 2)?;
    compare(
        rt,
        "the second half, of the first one's time",
        second,
        first,
    )?;
    watch.spent(rt)
}

/// The same over a trunk of its own. It is never dropped, since to prove the drops of all that it
/// has takes longer than the rest of this file.
fn signals<R: Clock + Print>(
    rt: &R,
    alloc: Global,
    times: Times,
    talk: &Talk,
    window: u32,
    count: u32,
) -> anyhow::Result<Option<u128>> {
    println!(rt; "window {window}, {count} signals")?;
    let mut t = Trunk::new(alloc, window.max(1), 1_400);
    let outcome = halves(rt, alloc, times, &mut t, talk, count);
    mem::forget(t);
    outcome
}

/// So many signals go over a trunk, and before them half of these over one of its own.
pub fn work<R: Clock + Print>(
    rt: &R,
    alloc: Global,
    size: u32,
    times: Times,
) -> anyhow::Result<()> {
    let talk = new_talk(alloc)?;
    for window in [8, 32] {
        let few = signals(rt, alloc, times, &talk, window, size / 2)?;
        let all = signals(rt, alloc, times, &talk, window, size)?;
        compare(rt, "twice the signals, of the time of these", all, few)?;
    }
    Ok(())
}
