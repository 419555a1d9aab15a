//! Scripts that run with a worker for each maker, and what holds however their turns fall.

use crate::held_gate::{HeldGate, until_other};
use journal::{By, Journal};
use linx_base::LinkNo;
use linx_outside::{Gate, OpenGate};
use script_lang::parse;
use std::alloc::Global;
use std::sync::Wait;
use std::test::Fail;
use std::thread::Threads;
use workers::{Ran, WorkedRun, run};

const TWO: &str = "node n\nactor p n\nopen a\nrecv 1\nend\nactor q n\nopen b\nhunt a\n\
    recv 251\nsend last 1\nend\n";

/// A receive of r ends at rest, and q's ends by the restart of its node.
const RESTED: &str = "node n\nnode m\nactor p m\nopen a\nrestart n\nend\nactor q n\nopen b\n\
    recv 1\nend\nactor r m\nopen c\nrecv any\nend\n";

const SETTLED: &str = "node m\nnode n\nlink l m n\nplan l > D L D R\nactor p m\nopen a\n\
    hunt l/b\nrecv 251\nsend last 9\nsettle l\nrecv 8\nend\nactor q n\nopen b\nrecv 9\n\
    attach last r\nsend last 8\nrecv 252\nend\n";

const SELF_SENDS: &str = "node n\nactor p n\nopen a\nsend self 1\nrecv any\nclose\nend\n\
    actor q n\nopen a\nsend self 1\nrecv any\nclose\nend\n";

const LINKS: &str = "node m\nnode n\nnode o\nlink l m n\nlink k m o\nactor p m\nopen a\n\
    send self 1\nrecv any\nclose\nend\n";

/// The makers of a journal's steps, in order.
fn makers_of(alloc: Global, journal: &Journal) -> Result<Vec<By>, Fail> {
    let mut makers = Vec::new(alloc);
    for position in 1..=journal.len() {
        if let Some(step) = journal.step(position) {
            makers.push(step.by)?;
        }
    }
    Ok(makers)
}

/// The journal of a run, if it came to its end by its workers alone.
fn ended(worked: WorkedRun) -> Option<Journal> {
    let WorkedRun { ran, gave_up, .. } = worked;
    let Ran { stage, stop } = ran;
    let has_ended = stop.is_none() && stage.is_over() && !gave_up;
    let journal = stage.into_journal();
    if has_ended { Some(journal) } else { None }
}

/// Runs a script to its end, and answers who made each step.
fn makers<R: Threads + Wait + Sync, G: Gate + Sync>(
    rt: &R,
    alloc: Global,
    script: &str,
    gate: &G,
) -> Result<Vec<By>, Fail> {
    let script = parse(alloc, script.as_bytes())?;
    let journal = ended(run(rt, alloc, script, gate)?).ok_or("no end")?;
    makers_of(alloc, &journal)
}

/// The position of a maker's n-th step, from 1, or 0.
fn position(makers: &[By], by: By, n: u64) -> u64 {
    let mut count: u64 = 0;
    let mut position: u64 = 0;
    for maker in makers {
        position = position.wrapping_add(1);
        if *maker == by {
            count = count.wrapping_add(1);
            if count == n {
                return position;
            }
        }
    }
    0
}

#[test]
fn runs_of_waiting_actors_come_to_their_end(rt: HostRuntime) -> Result<(), Fail> {
    for script in [TWO, RESTED, SETTLED, SELF_SENDS, LINKS] {
        for _ in 0..20u32 {
            makers(&rt, rt.alloc(), script, &OpenGate)?;
        }
    }
    Ok(())
}

#[test]
fn a_script_without_makers_is_over(rt: HostRuntime) -> Result<(), Fail> {
    let makers = makers(&rt, rt.alloc(), "node n\n", &OpenGate)?;
    assert!(rt; makers.is_empty());
    Ok(())
}

#[test]
fn actors_take_turns_beside_each_other(rt: HostRuntime) -> Result<(), Fail> {
    let gate = HeldGate::new([
        until_other(1, 1, 2, 4),
        until_other(2, 4, 1, 2),
        until_other(0, 0, 0, 0),
        until_other(0, 0, 0, 0),
    ]);
    let makers = makers(&rt, rt.alloc(), SELF_SENDS, &gate)?;
    let (p, q) = (By::Actor(1), By::Actor(2));
    assert!(rt; gate.gave_up() == 0 && makers.len() == 10);
    assert!(rt; position(&makers, q, 3) < position(&makers, p, 1));
    assert!(rt; position(&makers, p, 1) < position(&makers, q, 4));
    Ok(())
}

#[test]
fn each_link_takes_turns_beside_the_others(rt: HostRuntime) -> Result<(), Fail> {
    let gate = HeldGate::new([
        until_other(2, 1, 3, 4),
        until_other(2, 1, 1, 3),
        until_other(3, 4, 2, 2),
        until_other(1, 3, 2, 2),
    ]);
    let makers = makers(&rt, rt.alloc(), LINKS, &gate)?;
    let (p, l, k) = (By::Actor(1), By::Pump(LinkNo(1)), By::Pump(LinkNo(2)));
    let first = position(&makers, l, 1);
    assert!(rt; gate.gave_up() == 0);
    assert!(rt; position(&makers, k, 3) < first && position(&makers, p, 2) < first);
    assert!(rt; first < position(&makers, k, 4) && first < position(&makers, p, 3));
    Ok(())
}
