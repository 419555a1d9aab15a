//! The text of a journal, by the number of incarnations in it, and that of large signals, of which
//! digests are printed, by how many kinds they are of.

ghost use Rattle.std.specs.Prelude.{◌<◌, ◌≤◌};

use crate::watch::{Times, Watch};
use anyhow::Context;
use journal::{By, Effect, Effects, Head, Journal, SentTo, Step};
use linx_base::{Inc, ItemAt, Name, NameList, Names, NodeNo, Peer, SigNote, Signal, TryCopy};
use sigsel::Sigsel;
use std::alloc::Global;
use std::io::Print;
use std::time::Clock;

fn small(alloc: Global) -> anyhow::Result<SigNote> {
    let signal = Signal::alloc(alloc, 5, b"8 bytes.").context("small signal")?;
    signal.note().context("note")
}

/// A signal of the largest size, unlike those of another kind. It shares no bytes with any other.
fn large(alloc: Global, kind: u32) -> anyhow::Result<SigNote> {
    let mut bytes = Vec::new(alloc);
    bytes.extend_from_slice(&kind.to_be_bytes())?;
    bytes.resize(65_532, 0x5a)?;
    let signal = Signal::alloc(alloc, 1, bytes.as_slice()).context("large signal")?;
    signal.note().context("note")
}

fn inc_of(actor: u32) -> Inc {
    Inc::of(NodeNo(1), actor)
}

fn push(journal: &mut Journal, actor: u32, head: Head, effects: Effects) -> anyhow::Result<()> {
    journal.reserve(1).context("reserve")?;
    journal.push(Step {
        by: By::Actor(actor),
        head,
        effects,
    });
    Ok(())
}

fn open(alloc: Global, journal: &mut Journal, actor: u32) -> anyhow::Result<()> {
    let mut effects = Vec::new(alloc);
    effects.push(Effect::Opened(inc_of(actor)))?;
    let name = Name::of(alloc, b"endpoint").context("name")?;
    push(journal, actor, Head::Open(name), Effects::of(effects))
}

fn send(alloc: Global, journal: &mut Journal, actor: u32, note: SigNote) -> anyhow::Result<()> {
    let me = Peer::Here(inc_of(actor));
    let arrived = note.copy().context("note")?;
    let mut effects = Vec::new(alloc);
    effects.push(Effect::Arrived(inc_of(actor), me, arrived))?;
    push(
        journal,
        actor,
        Head::Send(me, note, SentTo::Queued),
        Effects::of(effects),
    )
}

fn take(alloc: Global, journal: &mut Journal, actor: u32) -> anyhow::Result<()> {
    let position = ItemAt {
        step: journal.len(),
        place: 1,
    };
    push(
        journal,
        actor,
        Head::Take(Sigsel::Any, position),
        Effects::new(alloc),
    )
}

fn empty_journal(alloc: Global) -> anyhow::Result<Journal> {
    let mut nodes = NameList::new(alloc);
    nodes
        .push(Name::of(alloc, b"node").context("name")?)
        .context("names")?;
    let names = Names {
        nodes,
        links: NameList::new(alloc),
    };
    Ok(Journal::new(alloc, names))
}

/// A journal in which so many incarnations were opened.
fn opened_journal(alloc: Global, incarnations: u32) -> anyhow::Result<Journal>
    requires { incarnations ≤ 1000 }
{
    let mut journal = empty_journal(alloc)?;
    for actor in 1..incarnations + 1 {
        open(alloc, &mut journal, actor)?;
    }
    Ok(journal)
}

/// A journal of so many steps: each incarnation is opened, and then sends to itself and receives.
fn full_journal(alloc: Global, steps: u32, incarnations: u32) -> anyhow::Result<Journal>
    requires some { 0 < incarnations }
    requires bounded { incarnations ≤ 1000 }
{
    let mut journal = opened_journal(alloc, incarnations)?;
    for pair in 0..steps.saturating_sub(incarnations) / 2 {
        let actor = pair % incarnations + 1;
        send(alloc, &mut journal, actor, small(alloc)?)?;
        take(alloc, &mut journal, actor)?;
    }
    Ok(journal)
}

/// A journal of so many large signals of so many kinds in turn, each sent to oneself and received.
fn large_journal(alloc: Global, count: u32, kinds: u32) -> anyhow::Result<Journal> {
    let mut journal = empty_journal(alloc)?;
    open(alloc, &mut journal, 1)?;
    for number in 0..count {
        let kind = number.checked_rem(kinds).unwrap_or(0);
        send(alloc, &mut journal, 1, large(alloc, kind)?)?;
        take(alloc, &mut journal, 1)?;
    }
    Ok(journal)
}

/// The text of a journal of these is made.
fn print<R: Clock + Print>(
    rt: &R,
    alloc: Global,
    times: Times,
    journal: &Journal,
    of: &str,
) -> anyhow::Result<()> {
    let steps = journal.len();
    let watch = Watch::new(rt, times)?;
    let text = journal_text::text(alloc, journal).context("text")?;
    let done = format!(in alloc; "{steps} steps, {of}, {} bytes of text", text.len())?;
    watch.tell_all(rt, done.as_str())
}

/// The text of so many large signals, of one kind, of two, and each of its own.
fn large_texts<R: Clock + Print>(
    rt: &R,
    alloc: Global,
    signals: u32,
    times: Times,
) -> anyhow::Result<()> {
    for kinds in [1, 2, signals] {
        let journal = large_journal(alloc, signals, kinds)?;
        let of = format!(in alloc; "{signals} signals of 65532 bytes of {kinds} kinds")?;
        print(rt, alloc, times, &journal, of.as_str())?;
    }
    Ok(())
}

/// Journals of so many steps, and of large signals, one for 800 and one for 400 of these steps.
pub fn work<R: Clock + Print>(
    rt: &R,
    alloc: Global,
    size: u32,
    times: Times,
) -> anyhow::Result<()> {
    for incarnations in [1, 10, 100, 1_000] {
        let journal = full_journal(alloc, size, incarnations)?;
        let of = format!(in alloc; "{incarnations} incarnations")?;
        print(rt, alloc, times, &journal, of.as_str())?;
    }
    large_texts(rt, alloc, size / 800, times)?;
    large_texts(rt, alloc, size / 400, times)
}
