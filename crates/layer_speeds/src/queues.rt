//! A receive of one number among waiting items, and a detach behind them, where the queue has its
//! notice and where it has none.

use crate::watch::{Times, Watch};
use anyhow::Context;
use endpoint_queue::{Item, Kind, Queue};
use linx_base::{AttRef, Inc, ItemAt, Peer, Signal};
use rand_core::{Rng, SeedableRng};
use rand_xoshiro::Xoshiro256PlusPlus;
use sigsel::{Numbers, Sigsel};
use std::alloc::Global;
use std::io::Print;
use std::time::Clock;

/// An item of this signal number, of 8 data bytes, that came in this step.
fn item(alloc: Global, number: u32, kind: Kind, step: u32) -> anyhow::Result<Item> {
    Ok(Item {
        signal: Signal::alloc(alloc, number, b"8 bytes.").context("signal")?,
        from: Peer::Here(Inc(1)),
        kind,
        pos: ItemAt {
            step: u64::from(step),
            place: 1,
        },
    })
}

fn put(queue: &mut Queue, item: Item) -> anyhow::Result<()> {
    if queue.push(item).is_err() {
        anyhow::bail!("out of memory");
    }
    Ok(())
}

/// A receive of any signal, or of a number.
fn filter(alloc: Global, number: u32, is_any: bool) -> anyhow::Result<Sigsel> {
    if is_any {
        return Ok(Sigsel::Any);
    }
    let numbers = Vec::from_slice(alloc, &[number])?;
    Ok(Sigsel::Only(Numbers::of(numbers).context("numbers")?))
}

/// A queue in which so many items wait, of so many numbers in turn.
fn filled(alloc: Global, waiting: u32, numbers: u32) -> anyhow::Result<Queue> {
    let mut queue = Queue::new(alloc);
    for step in 0..waiting {
        let number = step.checked_rem(numbers).unwrap_or(0);
        put(&mut queue, item(alloc, number, Kind::Plain, step)?)?;
    }
    Ok(queue)
}

/// So many times a signal of a number by chance is taken, where one waits, and put back, so that
/// the queue keeps its length. The answer is how often one waited.
fn taken(
    alloc: Global,
    queue: &mut Queue,
    rounds: u32,
    numbers: u32,
    is_any: bool,
) -> anyhow::Result<u32> {
    let mut words = Xoshiro256PlusPlus::seed_from_u64(1);
    let mut taken: u32 = 0;
    for _ in 0..rounds {
        let number = words.next_u32().checked_rem(numbers).unwrap_or(0);
        if let Some(found) = queue.take(&filter(alloc, number, is_any)?) {
            taken = taken.saturating_add(1);
            put(queue, found)?;
        }
    }
    Ok(taken)
}

/// Takes so many rounds from a queue of so many items that wait, with so many signal numbers, by a
/// filter for any number or for one.
fn takes<R: Clock + Print>(
    rt: &R,
    alloc: Global,
    times: Times,
    (waiting, rounds, numbers): (u32, u32, u32),
    is_any: bool,
) -> anyhow::Result<()> {
    let mut queue = filled(alloc, waiting, numbers)?;
    let watch = Watch::new(rt, times)?;
    let taken = taken(alloc, &mut queue, rounds, numbers, is_any)?;
    let done = format!(in alloc;
        "{waiting} waiting, {numbers} numbers, any {is_any}, {taken} taken"
    )?;
    watch.tell_each(rt, done.as_str(), rounds)
}

/// Adds so many notices, or as many items that are none.
fn add_notices(
    alloc: Global,
    queue: &mut Queue,
    count: u32,
    are_queued: bool,
) -> anyhow::Result<()> {
    for reference in 0..count {
        let kind = if are_queued {
            Kind::Notice(AttRef(u64::from(reference)))
        } else {
            Kind::Plain
        };
        put(queue, item(alloc, 2, kind, reference)?)?;
    }
    Ok(())
}

/// The notices of so many attaches are taken out. The answer is how many were there.
fn removed(queue: &mut Queue, count: u32) -> u32 {
    let mut removed: u32 = 0;
    for reference in 0..count {
        if queue.remove_ref(AttRef(u64::from(reference))).is_some() {
            removed = removed.saturating_add(1);
        }
    }
    removed
}

/// So many detaches, each of a notice that stands behind the waiting items, or of none.
fn detaches<R: Clock + Print>(
    rt: &R,
    alloc: Global,
    times: Times,
    (waiting, count): (u32, u32),
    are_queued: bool,
) -> anyhow::Result<()> {
    let mut queue = filled(alloc, waiting, 1)?;
    add_notices(alloc, &mut queue, count, are_queued)?;
    let watch = Watch::new(rt, times)?;
    let removed = removed(&mut queue, count);
    let done = format!(in alloc;
        "{waiting} waiting, notices queued {are_queued}, {removed} removed"
    )?;
    watch.tell_each(rt, done.as_str(), count)
}

/// Receives with up to so many waiting items, as many each time.
fn all_takes<R: Clock + Print>(
    rt: &R,
    alloc: Global,
    size: u32,
    times: Times,
    is_any: bool,
) -> anyhow::Result<()> {
    for numbers in [1, 16, 1_000] {
        for waiting in [size / 30, size / 10, size / 3, size] {
            takes(rt, alloc, times, (waiting, size, numbers), is_any)?;
        }
    }
    Ok(())
}

/// Detaches behind up to so many waiting items, half as many each time.
fn all_detaches<R: Clock + Print>(
    rt: &R,
    alloc: Global,
    size: u32,
    times: Times,
) -> anyhow::Result<()> {
    for are_queued in [false, true] {
        for waiting in [size / 16, size / 4, size] {
            detaches(rt, alloc, times, (waiting, size / 2), are_queued)?;
        }
    }
    Ok(())
}

/// Up to so many items wait. As many receives are made, and half as many detaches.
pub fn work<R: Clock + Print>(
    rt: &R,
    alloc: Global,
    size: u32,
    times: Times,
) -> anyhow::Result<()> {
    all_takes(rt, alloc, size, times, false)?;
    all_takes(rt, alloc, size, times, true)?;
    all_detaches(rt, alloc, size, times)
}
