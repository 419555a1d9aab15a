//! Calls of a kernel in which others are pending: a hunt, an attach, a detach, a found hunt and a
//! notification.

use crate::watch::{Times, Watch};
use anyhow::{Context, anyhow, bail};
use linx_base::{AttRef, Inc, Name, NodeNo, Path, Peer, Signal};
use node_kernel::Kernel;
use std::alloc::Global;
use std::io::Print;
use std::time::Clock;

/// The two endpoints of a kernel, how many hunts and as many attaches of the first are pending, and
/// how many calls of a kind are made together.
#[derive(Clone, Copy)]
struct Scene {
    first: Inc,
    second: Inc,
    pending: u32,
    rounds: u32,
    times: Times,
}

/// The number of a round, above those of what is pending.
fn own(round: u32) -> u64 {
    u64::from(round).saturating_add(5_000_000_000)
}

fn name(alloc: Global, number: u64) -> anyhow::Result<Name> {
    let text = format!(in alloc; "n{number}")?;
    Ok(Name::of(alloc, text.as_bytes()).context("name")?)
}

fn opened(alloc: Global, kernel: &mut Kernel, number: u64) -> anyhow::Result<Inc> {
    let name = name(alloc, number)?;
    if kernel.openings() == u32::MAX {
        bail!("too many openings");
    }
    match kernel.open(name, 1) {
        Ok(opened) => Ok(opened.inc),
        Err(_) => Err(anyhow!("opening")),
    }
}

/// The answer is how many effects the closing has.
fn closed(kernel: &mut Kernel, at: Inc) -> anyhow::Result<usize> {
    let effects = kernel.close(at, 1).context("close")?;
    Ok(effects.as_slice().len())
}

fn hunt(alloc: Global, kernel: &mut Kernel, at: Inc, number: u64) -> anyhow::Result<()> {
    let path = Path::Local(name(alloc, number)?);
    let signal = Signal::alloc(alloc, 251, b"").context("signal")?;
    match kernel.hunt(at, path, signal, number) {
        Ok(_) => Ok(()),
        Err(_) => Err(anyhow!("hunt")),
    }
}

fn attach(alloc: Global, kernel: &mut Kernel, at: Inc, to: Inc, number: u64) -> anyhow::Result<()> {
    let signal = Signal::alloc(alloc, 252, b"").context("signal")?;
    if signal.bytes().len() > 100 {
        bail!("too long a signal");
    }
    match kernel.attach(at, Peer::Here(to), signal, AttRef(number)) {
        Ok(_) => Ok(()),
        Err(_) => Err(anyhow!("attach")),
    }
}

/// Prints how many calls of a kind were made, and what each took.
fn tell<R: Clock + Print>(
    rt: &R,
    alloc: Global,
    scene: Scene,
    watch: Watch,
    calls: &str,
) -> anyhow::Result<()> {
    let done = format!(in alloc; "{} pending, {} {calls}", scene.pending, scene.rounds)?;
    watch.tell_each(rt, done.as_str(), scene.rounds)
}

fn hunts<R: Clock + Print>(
    rt: &R,
    alloc: Global,
    kernel: &mut Kernel,
    scene: Scene,
) -> anyhow::Result<()> {
    let watch = Watch::new(rt, scene.times)?;
    for round in 0..scene.rounds {
        hunt(alloc, kernel, scene.second, own(round))?;
    }
    tell(rt, alloc, scene, watch, "hunts")
}

fn attaches<R: Clock + Print>(
    rt: &R,
    alloc: Global,
    kernel: &mut Kernel,
    scene: Scene,
) -> anyhow::Result<()> {
    let watch = Watch::new(rt, scene.times)?;
    for round in 0..scene.rounds {
        attach(alloc, kernel, scene.second, scene.first, own(round))?;
    }
    tell(rt, alloc, scene, watch, "attaches")
}

fn detaches<R: Clock + Print>(
    rt: &R,
    alloc: Global,
    kernel: &mut Kernel,
    scene: Scene,
) -> anyhow::Result<()> {
    let watch = Watch::new(rt, scene.times)?;
    for round in 0..scene.rounds {
        let _ = kernel.detach(scene.second, AttRef(own(round)));
    }
    tell(rt, alloc, scene, watch, "detaches")
}

/// Openings that answer a hunt each, and their closings.
fn answers<R: Clock + Print>(
    rt: &R,
    alloc: Global,
    kernel: &mut Kernel,
    scene: Scene,
) -> anyhow::Result<()> {
    let watch = Watch::new(rt, scene.times)?;
    for round in 0..scene.rounds {
        let found = opened(alloc, kernel, own(round))?;
        closed(kernel, found)?;
    }
    tell(
        rt,
        alloc,
        scene,
        watch,
        "openings that answer a hunt, and their closings",
    )
}

/// Openings, with an attach to each and a closing that notifies. Its effects are two.
fn notices<R: Clock + Print>(
    rt: &R,
    alloc: Global,
    kernel: &mut Kernel,
    scene: Scene,
) -> anyhow::Result<()> {
    let watch = Watch::new(rt, scene.times)?;
    for round in 0..scene.rounds {
        let third = opened(alloc, kernel, 2)?;
        attach(alloc, kernel, scene.second, third, own(round))?;
        if closed(kernel, third)? != 2 {
            bail!("not notified once");
        }
    }
    tell(
        rt,
        alloc,
        scene,
        watch,
        "openings, with an attach and a closing that notifies",
    )
}

/// The closing of the second endpoint, to which all that is pending is attached.
fn all_notices<R: Clock + Print>(
    rt: &R,
    alloc: Global,
    kernel: &mut Kernel,
    scene: Scene,
) -> anyhow::Result<()> {
    let watch = Watch::new(rt, scene.times)?;
    let effects = closed(kernel, scene.second)?;
    let done = format!(in alloc;
        "{} pending, a closing with {effects} effects",
        scene.pending
    )?;
    watch.tell_each(rt, done.as_str(), scene.pending)
}

/// Two endpoints open, and so many hunts and attaches of the first are made.
fn prepare(
    alloc: Global,
    kernel: &mut Kernel,
    pending: u32,
    rounds: u32,
    times: Times,
) -> anyhow::Result<Scene> {
    let first = opened(alloc, kernel, 0)?;
    let second = opened(alloc, kernel, 1)?;
    for number in 0..pending {
        let number = u64::from(number).saturating_add(10);
        hunt(alloc, kernel, first, number)?;
        attach(alloc, kernel, first, second, number)?;
    }
    Ok(Scene {
        first,
        second,
        pending,
        rounds,
        times,
    })
}

fn calls<R: Clock + Print>(
    rt: &R,
    alloc: Global,
    kernel: &mut Kernel,
    pending: u32,
    rounds: u32,
    times: Times,
) -> anyhow::Result<()> {
    let scene = prepare(alloc, kernel, pending, rounds, times)?;
    hunts(rt, alloc, kernel, scene)?;
    attaches(rt, alloc, kernel, scene)?;
    detaches(rt, alloc, kernel, scene)?;
    answers(rt, alloc, kernel, scene)?;
    notices(rt, alloc, kernel, scene)?;
    all_notices(rt, alloc, kernel, scene)
}

/// So many hunts and as many attaches are pending, a hundredth of these, and a hundredth of that; a
/// hundredth as many calls of each kind are made.
pub fn work<R: Clock + Print>(
    rt: &R,
    alloc: Global,
    size: u32,
    times: Times,
) -> anyhow::Result<()> {
    for pending in [size / 10_000, size / 100, size] {
        let mut kernel = Kernel::new(alloc, NodeNo(1));
        calls(rt, alloc, &mut kernel, pending, size / 100, times)?;
    }
    Ok(())
}
