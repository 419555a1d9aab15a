//! Two links between three nodes: each line is an event, and what comes of it.

use crate::settling::{settle, settle_to_open};
use crate::trunk_calls::{ask, is_quiet, is_up, restart, talk, tick, two_links, used};
use carrier::TickedSide;
use case_words::{
    follow, follow_anew, front, inc_of, link_of, name_of, number_text, session_or_none,
    session_text, side_of, text_of, yes_text,
};
use linx_base::{LinkNo, NodeNo, Side};
use run_trunks::RunTrunks;
use std::alloc::Global;
use std::mem;
use std::test::Fail;

fn tick_text(
    alloc: Global,
    trunks: &mut RunTrunks,
    link: LinkNo,
    side: Side,
) -> Result<String, Fail> {
    match tick(trunks, link, side)? {
        TickedSide::Stays => text_of(alloc, "stays"),
        TickedSide::WentDown { session } => session_text(alloc, session),
    }
}

/// The session of a side and that of its peer.
fn talk_text(alloc: Global, trunks: &RunTrunks, link: LinkNo, side: Side) -> Result<String, Fail> {
    let (mine, peer) = talk(trunks, link, side)?;
    let (mine, peer) = (session_text(alloc, mine)?, session_or_none(alloc, peer)?);
    Ok(format!(in alloc; "{mine} {peer}")?)
}

fn used_text(alloc: Global, trunks: &RunTrunks, link: LinkNo, side: Side) -> Result<String, Fail> {
    let used = used(trunks, link, side).ok_or("no such link")?;
    number_text(alloc, u64::from(used))
}

/// A side asks for this name.
fn ask_text(
    alloc: Global,
    trunks: &mut RunTrunks,
    link: LinkNo,
    side: Side,
    name: &str,
) -> Result<String, Fail> {
    ask(trunks, link, side, &name_of(alloc, name)?)?;
    text_of(alloc, "done")
}

/// The second side publishes an endpoint as soon as it is up.
fn open_text(
    alloc: Global,
    trunks: &mut RunTrunks,
    link: LinkNo,
    endpoint: &str,
) -> Result<String, Fail> {
    let (inc, name) = front(endpoint);
    let name = name_of(alloc, name)?;
    settle_to_open(alloc, trunks, link, inc_of(inc)?, &name)
}

/// What comes of an event at a side of a link.
fn at_side(
    alloc: Global,
    trunks: &mut RunTrunks,
    word: &str,
    link: LinkNo,
    rest: &str,
) -> Result<String, Fail> {
    let (side, rest) = front(rest);
    let side = side_of(side)?;
    match word {
        "tick" => tick_text(alloc, trunks, link, side),
        "ask" => ask_text(alloc, trunks, link, side, rest),
        "up" => yes_text(alloc, is_up(trunks, link, side)),
        "used" => used_text(alloc, trunks, link, side),
        "sessions" => talk_text(alloc, trunks, link, side),
        _ => Err(Fail::from("no such event")),
    }
}

/// What comes of an event on a link.
fn link_text(
    alloc: Global,
    trunks: &mut RunTrunks,
    word: &str,
    rest: &str,
) -> Result<String, Fail> {
    let (link, rest) = front(rest);
    let link = link_of(link)?;
    match word {
        "settle" => settle(alloc, trunks, link),
        "open" => open_text(alloc, trunks, link, rest),
        "quiet" => yes_text(alloc, is_quiet(trunks, link)),
        _ => at_side(alloc, trunks, word, link, rest),
    }
}

/// A node boots again, as `2 3` for node 2 with boot number 3.
fn restart_text(alloc: Global, trunks: &mut RunTrunks, rest: &str) -> Result<String, Fail> {
    let (node, boot) = front(rest);
    restart(trunks, NodeNo(node.parse()?), boot.parse()?)?;
    text_of(alloc, "done")
}

/// What comes of an event: a word, the link and the side that it is at, and what goes with it.
fn event_text(alloc: Global, trunks: &mut RunTrunks, event: &str) -> Result<String, Fail> {
    let (word, rest) = front(event);
    match word {
        "keep" => trunks.keep_all(),
        "undo" => trunks.undo_all(),
        "restart" => return restart_text(alloc, trunks, rest),
        _ => return link_text(alloc, trunks, word, rest),
    }
    text_of(alloc, "done")
}

/// Both links come up.
const BOTH_UP: &str = "tick 1 F: stays
    tick 1 T: stays
    settle 1:
    tick 2 F: stays
    tick 2 T: stays
    settle 2:
    keep: done";

/// Both links come up, and the events follow.
fn follow_up(alloc: Global, trunks: &mut RunTrunks, events: &'static str) -> Result<(), Fail> {
    follow(alloc, trunks, &event_text, BOTH_UP)?;
    follow(alloc, trunks, &event_text, events)
}

/// Two new links come up, and go through the events. They are never dropped, since to prove the
/// drops of all layers takes longer than the tests.
fn follow_both_up(alloc: Global, events: &'static str) -> Result<(), Fail> {
    let mut trunks = two_links(alloc)?;
    let outcome = follow_up(alloc, &mut trunks, events);
    mem::forget(trunks);
    outcome
}

#[test]
fn a_name_is_asked_for_over_one_link(rt: HostRuntime) -> Result<(), Fail> {
    follow_both_up(
        rt.alloc(),
        "quiet 1: yes
        quiet 2: yes
        ask 1 F echo: done
        settle 1: T asked echo
        settle 2:",
    )
}

#[test]
fn a_restart_is_undone_on_both_links(rt: HostRuntime) -> Result<(), Fail> {
    follow_both_up(
        rt.alloc(),
        "sessions 1 F: 1.1 1.1
        sessions 1 T: 1.1 1.1
        sessions 2 F: 1.1 1.1
        sessions 2 T: 1.1 1.1
        restart 2 2: done
        sessions 1 F: 1.1 1.1
        sessions 1 T: 2.1 none
        sessions 2 F: 2.1 none
        sessions 2 T: 1.1 1.1
        undo: done
        sessions 1 F: 1.1 1.1
        sessions 1 T: 1.1 1.1
        sessions 2 F: 1.1 1.1
        sessions 2 T: 1.1 1.1",
    )
}

#[test]
fn a_restart_that_is_kept_is_not_undone(rt: HostRuntime) -> Result<(), Fail> {
    follow_both_up(
        rt.alloc(),
        "restart 2 2: done
        keep: done
        undo: done
        sessions 1 F: 1.1 1.1
        sessions 1 T: 2.1 none
        sessions 2 F: 2.1 none
        sessions 2 T: 1.1 1.1",
    )
}

#[test]
fn an_endpoint_is_met_over_one_link(rt: HostRuntime) -> Result<(), Fail> {
    follow_anew(
        rt.alloc(),
        two_links(rt.alloc())?,
        &event_text,
        "tick 1 F: stays
        tick 1 T: stays
        open 1 2.1 echo: F met 2.1 echo
        used 1 T: 1
        up 1 F: yes
        up 2 F: no",
    )
}
