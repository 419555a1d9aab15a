//! Calls on the tables of names, hunts and attaches, beside entries that they don't touch.

use crate::watch::{Times, Watch};
use anyhow::{Context, anyhow};
use attach_table::AttachTable;
use hunt_table::HuntTable;
use linx_base::{
    AttRef, Inc, LinkNo, Name, Path, Peer, PendingAttach, PendingHunt, Session, Signal,
};
use name_table::NameTable;
use std::alloc::Global;
use std::io::Print;
use std::time::Clock;

/// The number of what a round adds and removes, above those of the entries that aren't touched.
const OWN: u64 = 5_000_000_000;

fn name(alloc: Global, number: u64) -> anyhow::Result<Name> {
    let text = format!(in alloc; "endpoint_{number}")?;
    Ok(Name::of(alloc, text.as_bytes()).context("name")?)
}

fn path(alloc: Global, number: u64) -> anyhow::Result<Path> {
    Ok(Path::Over {
        link: LinkNo((number % 1_000) as u32),
        name: name(alloc, number)?,
    })
}

fn remote(number: u64) -> Peer {
    Peer::There {
        link: LinkNo((number % 1_000) as u32),
        session: Session(1),
        inc: Inc(number),
    }
}

fn add(table: &mut NameTable, name: Name, inc: Inc) -> anyhow::Result<()> {
    table.add(name, inc).map_err(|_| anyhow!("add"))
}

/// An endpoint is added, looked up by its name and by itself, and removed. The answer is whether it
/// was found.
fn name_round(alloc: Global, table: &mut NameTable, sought: &Name) -> anyhow::Result<bool> {
    let inc = Inc(OWN);
    add(table, name(alloc, OWN)?, inc)?;
    let is_found = table.first(sought).is_some() && table.name_of(inc).is_some();
    Ok(table.remove(inc) && is_found)
}

/// A table of so many names.
fn new_names(alloc: Global, entries: u32) -> anyhow::Result<NameTable> {
    let mut table = NameTable::new(alloc);
    for entry in 0..entries {
        let number = u64::from(entry);
        add(&mut table, name(alloc, number)?, Inc(number))?;
    }
    Ok(table)
}

/// So many rounds. The answer is how often the endpoint was found.
fn name_rounds(alloc: Global, table: &mut NameTable, rounds: u32) -> anyhow::Result<u32> {
    let sought = name(alloc, OWN)?;
    let mut found: u32 = 0;
    for _ in 0..rounds {
        let is_found = name_round(alloc, table, &sought)?;
        found = found.wrapping_add(u32::from(is_found));
    }
    Ok(found)
}

fn names<R: Clock + Print>(
    rt: &R,
    alloc: Global,
    times: Times,
    (entries, rounds): (u32, u32),
) -> anyhow::Result<()> {
    let mut table = new_names(alloc, entries)?;
    let watch = Watch::new(rt, times)?;
    let found = name_rounds(alloc, &mut table, rounds)?;
    let done = format!(in alloc;
        "{entries} names, an add, two looks and a removal, {found} found"
    )?;
    watch.tell_each(rt, done.as_str(), rounds)
}

/// A hunt of the hunter of this number, for a path of its own.
fn pend(alloc: Global, table: &mut HuntTable, number: u64) -> anyhow::Result<()> {
    let hunt = PendingHunt {
        at: Inc(number),
        path: path(alloc, number)?,
        signal: Signal::alloc(alloc, 251, b"")?,
        number,
    };
    table.pend(hunt).map_err(|_| anyhow!("pend"))
}

/// A hunt is pending, is looked at, and is taken out by its path or freed by its hunter. The answer
/// is whether it was found.
fn hunt_round(
    alloc: Global,
    table: &mut HuntTable,
    sought: &Path,
    round: u32,
) -> anyhow::Result<bool> {
    pend(alloc, table, OWN)?;
    let is_found = table.hunts_for(sought).next_entry().is_some()
        && table.hunts_over(LinkNo(0)).next_entry().is_some();
    if round % 2 == 0 {
        table.drop_for(sought);
    } else {
        table.drop_of(Inc(OWN));
    }
    Ok(is_found)
}

/// A table of so many hunts.
fn new_hunts(alloc: Global, entries: u32) -> anyhow::Result<HuntTable> {
    let mut table = HuntTable::new(alloc);
    for entry in 0..entries {
        pend(alloc, &mut table, u64::from(entry))?;
    }
    Ok(table)
}

/// So many rounds. The answer is how often the hunt was found.
fn hunt_rounds(alloc: Global, table: &mut HuntTable, rounds: u32) -> anyhow::Result<u32> {
    let sought = path(alloc, OWN)?;
    let mut found: u32 = 0;
    for round in 0..rounds {
        let is_found = hunt_round(alloc, table, &sought, round)?;
        found = found.wrapping_add(u32::from(is_found));
    }
    Ok(found)
}

fn hunts<R: Clock + Print>(
    rt: &R,
    alloc: Global,
    times: Times,
    (entries, rounds): (u32, u32),
) -> anyhow::Result<()> {
    let mut table = new_hunts(alloc, entries)?;
    let watch = Watch::new(rt, times)?;
    let found = hunt_rounds(alloc, &mut table, rounds)?;
    let done = format!(in alloc; "{entries} hunts, a hunt, two looks and its end, {found} found")?;
    watch.tell_each(rt, done.as_str(), rounds)
}

fn attach(
    alloc: Global,
    table: &mut AttachTable,
    at: Inc,
    peer: Peer,
    reference: AttRef,
) -> anyhow::Result<()> {
    let attach = PendingAttach {
        at,
        peer,
        signal: Signal::alloc(alloc, 252, b"")?,
        reference,
    };
    table.attach(attach).map_err(|_| anyhow!("attach"))
}

/// An attach is made, looked at, and taken out in one of three ways. The answer is whether it was
/// found.
fn attach_round(alloc: Global, table: &mut AttachTable, round: u32) -> anyhow::Result<bool> {
    let (at, peer) = (Inc(OWN), remote(OWN));
    let reference = AttRef(u64::from(round));
    attach(alloc, table, at, peer, reference)?;
    let is_found = table
        .attaches_within(LinkNo(0), Session(1))
        .next_entry()
        .is_some()
        && table.attaches_to(peer).next_entry().is_some();
    match round % 3 {
        0 => {
            table.detach(at, reference);
        }
        1 => table.drop_to(peer),
        _ => table.drop_of(at),
    }
    Ok(is_found)
}

/// A table of so many attaches.
fn new_attaches(alloc: Global, entries: u32) -> anyhow::Result<AttachTable> {
    let mut table = AttachTable::new(alloc);
    for entry in 0..entries {
        let number = u64::from(entry);
        attach(
            alloc,
            &mut table,
            Inc(number),
            remote(number),
            AttRef(number),
        )?;
    }
    Ok(table)
}

/// So many rounds. The answer is how often the attach was found.
fn attach_rounds(alloc: Global, table: &mut AttachTable, rounds: u32) -> anyhow::Result<u32> {
    let mut found: u32 = 0;
    for round in 0..rounds {
        let is_found = attach_round(alloc, table, round)?;
        found = found.wrapping_add(u32::from(is_found));
    }
    Ok(found)
}

fn attaches<R: Clock + Print>(
    rt: &R,
    alloc: Global,
    times: Times,
    (entries, rounds): (u32, u32),
) -> anyhow::Result<()> {
    let mut table = new_attaches(alloc, entries)?;
    let watch = Watch::new(rt, times)?;
    let found = attach_rounds(alloc, &mut table, rounds)?;
    let done = format!(in alloc;
        "{entries} attaches, an attach, two looks and its end, {found} found"
    )?;
    watch.tell_each(rt, done.as_str(), rounds)
}

/// So many entries aren't touched, a hundredth of these, and a hundredth of that; a fifth as many
/// rounds are made on each table.
pub fn work<R: Clock + Print>(
    rt: &R,
    alloc: Global,
    size: u32,
    times: Times,
) -> anyhow::Result<()> {
    for entries in [size / 10_000, size / 100, size] {
        let sizes = (entries, size / 5);
        names(rt, alloc, times, sizes)?;
        hunts(rt, alloc, times, sizes)?;
        attaches(rt, alloc, times, sizes)?;
    }
    Ok(())
}
