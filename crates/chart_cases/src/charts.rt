//! The marks and the ties of small journals. Each line wanted is one of them: of a mark the place of
//! its line, who made the step, its column, what it is of, and the column that it is sent to; of a tie
//! why, and the two places.

use case_words::{filter_of, inc_of, name_of, path_of, peer_of, session_of};
use chart::{Mark, Tie, all_marks, all_ties};
use journal::{By, Detached, Effect, Effects, Head, Journal, SentTo, Step};
use linx_base::{
    AttRef, ItemAt, LinkNo, Name, NameList, Names, NodeNo, Reason, Side, SigNote, Signal, Verdict,
};
use std::alloc::Global;
use std::test::Fail;

fn empty_journal(alloc: Global) -> Result<Journal, Fail> {
    let mut nodes = NameList::new(alloc);
    nodes.push(Name::of(alloc, b"n")?)?;
    let links = NameList::new(alloc);
    Ok(Journal::new(alloc, Names { nodes, links }))
}

fn note(alloc: Global, number: u32) -> Result<SigNote, Fail> {
    Ok(Signal::alloc(alloc, number, b"")?.note()?)
}

fn one(alloc: Global, effect: Effect) -> Result<Vec<Effect>, Fail> {
    let mut effects = Vec::new(alloc);
    effects.push(effect)?;
    Ok(effects)
}

fn step(by: By, head: Head, effects: Vec<Effect>) -> Step {
    Step {
        by,
        head,
        effects: Effects::of(effects),
    }
}

/// An actor opens an endpoint of this name and this incarnation.
fn opening(alloc: Global, actor: u32, name: &str, inc: &str) -> Result<Step, Fail> {
    let head = Head::Open(name_of(alloc, name)?);
    let effects = one(alloc, Effect::Opened(inc_of(inc)?))?;
    Ok(step(By::Actor(actor), head, effects))
}

/// The client asks the server.
fn asking(alloc: Global) -> Result<Step, Fail> {
    let head = Head::Send(peer_of("1.1")?, note(alloc, 5)?, SentTo::Queued);
    let asked = Effect::Arrived(inc_of("1.1")?, peer_of("1.2")?, note(alloc, 5)?);
    Ok(step(By::Actor(1), head, one(alloc, asked)?))
}

/// The server takes what came by the third step.
fn taking(alloc: Global) -> Result<Step, Fail> {
    let at = ItemAt { step: 3, place: 1 };
    let head = Head::Take(filter_of(alloc, "any")?, at);
    Ok(step(By::Actor(2), head, Vec::new(alloc)))
}

/// The client attaches to the server.
fn attaching(alloc: Global) -> Result<Step, Fail> {
    let head = Head::Attach(peer_of("1.1")?, note(alloc, 6)?);
    Ok(step(By::Actor(1), head, Vec::new(alloc)))
}

/// The server closes, which the client is told of for its fifth step.
fn closing(alloc: Global) -> Result<Step, Fail> {
    let (client, server, why) = (inc_of("1.2")?, peer_of("1.1")?, Reason::Closed);
    let told = Effect::Notified(client, server, note(alloc, 6)?, AttRef(5), why);
    let mut effects = one(alloc, Effect::Closed(inc_of("1.1")?))?;
    effects.push(told)?;
    Ok(step(By::Actor(2), Head::Close, effects))
}

/// The client detaches what it attached in its fifth step.
fn detaching(alloc: Global) -> Step {
    let head = Head::Detach(AttRef(5), Detached::Queued);
    step(By::Actor(1), head, Vec::new(alloc))
}

/// The client sends to the server, which is closed.
fn sending_in_vain(alloc: Global) -> Result<Step, Fail> {
    let head = Head::Send(peer_of("1.1")?, note(alloc, 5)?, SentTo::Dead);
    Ok(step(By::Actor(1), head, Vec::new(alloc)))
}

/// A step of a server and a client of one node, by its number.
fn step_on_a_node(alloc: Global, number: u32) -> Result<Step, Fail> {
    match number {
        1 => opening(alloc, 2, "server", "1.1"),
        2 => opening(alloc, 1, "client", "1.2"),
        3 => asking(alloc),
        4 => taking(alloc),
        5 => attaching(alloc),
        6 => closing(alloc),
        7 => Ok(detaching(alloc)),
        _ => sending_in_vain(alloc),
    }
}

fn add(journal: &mut Journal, step: Step) -> Result<(), Fail> {
    journal.reserve(1)?;
    journal.push(step);
    Ok(())
}

/// A server and a client of one node: the client asks, and attaches. Each step is made by a function
/// of its own: to prove one that makes them all takes minutes.
pub(crate) fn two_on_a_node(alloc: Global) -> Result<Journal, Fail> {
    let mut journal = empty_journal(alloc)?;
    for number in 1..9u32 {
        add(&mut journal, step_on_a_node(alloc, number)?)?;
    }
    Ok(journal)
}

/// The client hunts for a server over the link.
fn hunting(alloc: Global) -> Result<Step, Fail> {
    let head = Head::Hunt(path_of(alloc, "1/server")?, note(alloc, 7)?);
    Ok(step(By::Actor(1), head, Vec::new(alloc)))
}

/// The second side of the link is ticked.
fn ticking(alloc: Global) -> Step {
    let head = Head::Tick(LinkNo(1), Side::Second);
    step(By::Pump(LinkNo(1)), head, Vec::new(alloc))
}

/// What the packet brings: a session, a peer, and the answer of the hunt.
fn brought(alloc: Global) -> Result<Vec<Effect>, Fail> {
    let (session, server) = (session_of("1.1")?, peer_of("1:1.1:2.1")?);
    let mut brought = one(alloc, Effect::Up(NodeNo(1), LinkNo(1), session, session))?;
    brought.push(Effect::Met(NodeNo(1), server, name_of(alloc, "server")?))?;
    brought.push(Effect::Found(inc_of("1.1")?, server, note(alloc, 7)?, 2))?;
    Ok(brought)
}

/// A packet from the second side comes.
fn coming(alloc: Global) -> Result<Step, Fail> {
    let head = Head::Wire(LinkNo(1), Side::Second, Verdict::Swap(1));
    Ok(step(By::Pump(LinkNo(1)), head, brought(alloc)?))
}

/// The client ends, and an endpoint that nobody opened closes.
fn ending(alloc: Global) -> Result<Step, Fail> {
    let effects = one(alloc, Effect::Closed(inc_of("1.9")?))?;
    Ok(step(By::Actor(1), Head::Ended, effects))
}

/// A step of a client of a server over a link, by its number.
fn step_over_a_link(alloc: Global, number: u32) -> Result<Step, Fail> {
    match number {
        1 => opening(alloc, 1, "client", "1.1"),
        2 => hunting(alloc),
        3 => Ok(ticking(alloc)),
        4 => coming(alloc),
        _ => ending(alloc),
    }
}

/// A packet that brings a session and a peer, and a hunt that it answers.
fn one_over_a_link(alloc: Global) -> Result<Journal, Fail> {
    let mut journal = empty_journal(alloc)?;
    for number in 1..6u32 {
        add(&mut journal, step_over_a_link(alloc, number)?)?;
    }
    Ok(journal)
}

fn mark_text(alloc: Global, mark: &Mark) -> Result<String, Fail> {
    let line = mark.line;
    Ok(format!(in alloc;
        "{}.{} {:?} {:?} {:?} {:?}\n",
        line.step, line.place, mark.by, mark.column, mark.kind, mark.to
    )?)
}

fn tie_text(alloc: Global, tie: &Tie) -> Result<String, Fail> {
    let from = tie.from;
    let to = tie.to;
    Ok(format!(in alloc;
        "{:?} {}.{} {}.{}\n",
        tie.kind, from.step, from.place, to.step, to.place
    )?)
}

/// The marks, a line for each, and then the ties.
fn chart_text(alloc: Global, journal: &Journal) -> Result<String, Fail> {
    let mut text = String::new(alloc);
    for mark in all_marks(alloc, journal)?.as_slice() {
        text.push_str(mark_text(alloc, mark)?.as_str())?;
    }
    for tie in all_ties(alloc, journal)?.as_slice() {
        text.push_str(tie_text(alloc, tie)?.as_str())?;
    }
    Ok(text)
}

#[test]
fn each_line_has_a_mark_in_its_column(rt: HostRuntime) -> Result<(), Fail> {
    let text = chart_text(rt.alloc(), &two_on_a_node(rt.alloc())?)?;
    let wanted = "1.0 Actor(2) Life(2) Open Nowhere
1.1 Actor(2) Life(2) Opened Nowhere
2.0 Actor(1) Life(1) Open Nowhere
2.1 Actor(1) Life(1) Opened Nowhere
3.0 Actor(1) Life(1) Send(Queued) Life(2)
3.1 Actor(1) Life(2) Arrived Nowhere
4.0 Actor(2) Life(2) Take Nowhere
5.0 Actor(1) Life(1) Attach Nowhere
6.0 Actor(2) Life(2) Close Nowhere
6.1 Actor(2) Life(2) Closed Nowhere
6.2 Actor(2) Life(1) Notified Nowhere
7.0 Actor(1) Life(1) Detach(Queued) Nowhere
8.0 Actor(1) Life(1) Send(Dead) Life(2)
Signal 3.0 3.1
Taken 3.1 4.0
Attach 5.0 6.2
Detach 5.0 7.0
";
    assert_eq!(rt; text.as_str(), wanted);
    Ok(())
}

#[test]
fn packets_stand_in_lanes_and_what_they_bring_on_rails(rt: HostRuntime) -> Result<(), Fail> {
    let text = chart_text(rt.alloc(), &one_over_a_link(rt.alloc())?)?;
    let wanted = "1.0 Actor(1) Life(1) Open Nowhere
1.1 Actor(1) Life(1) Opened Nowhere
2.0 Actor(1) Life(1) Hunt Nowhere
3.0 Pump(LinkNo(1)) Lane(LinkNo(1), Second) Tick Nowhere
4.0 Pump(LinkNo(1)) Lane(LinkNo(1), Second) Packet(Swap(1)) Nowhere
4.1 Pump(LinkNo(1)) Rail(LinkNo(1), NodeNo(1)) Up Nowhere
4.2 Pump(LinkNo(1)) Rail(LinkNo(1), NodeNo(1)) Met Nowhere
4.3 Pump(LinkNo(1)) Life(1) Found Nowhere
5.0 Actor(1) Life(1) Ended Nowhere
5.1 Actor(1) Nowhere Closed Nowhere
Hunt 2.0 4.3
";
    assert_eq!(rt; text.as_str(), wanted);
    Ok(())
}
