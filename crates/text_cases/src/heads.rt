//! What is printed of a step's head. Each line is a head and the words of its first line.

use crate::journals::journal_of;
use journal_text::write_step;
use std::alloc::Global;
use std::test::Fail;

/// Whether this is printed of a journal with this step.
pub fn is_printed(alloc: Global, step: &str, wanted: &str) -> Result<bool, Fail> {
    let journal = journal_of(alloc, true, step)?;
    let mut printed = Vec::new(alloc);
    write_step(&mut printed, &journal, 1)?;
    Ok(printed.as_slice() == wanted.as_bytes())
}

/// Whether the words behind an arrow are printed of the head before it.
fn follows(alloc: Global, line: &str) -> Result<bool, Fail> {
    let (head, wanted) = line.split_once(" -> ").ok_or("no arrow")?;
    let step = format!(in alloc; "1 {head}")?;
    let text = format!(in alloc; "1 A1 {wanted}\n")?;
    is_printed(alloc, step.as_str(), text.as_str())
}

/// It fails at the first line that is printed otherwise.
fn are_printed(alloc: Global, lines: &'static str) -> Result<(), Fail> {
    for line in lines.lines() {
        if !follows(alloc, line.trim())? {
            return Err(Fail::from(line));
        }
    }
    Ok(())
}

#[test]
fn heads_of_commands(rt: HostRuntime) -> Result<(), Fail> {
    are_printed(
        rt.alloc(),
        "open a -> open a
        close -> close
        send 1.1 5 - queued -> send 1.1 5 - queued
        send 1:1.1:2.1 9 4*90 link -> send l:1.1:2.1 9 5a5a5a5a link
        take only:7,8 6.2 -> take only:7,8 6.2
        none not:8 -> none not:8
        waits any -> waits any
        hunt 1/b 251 - -> hunt l/b 251 -
        hunt b 251 aa -> hunt b 251 aa
        attach 1:1.1:2.1 252 - -> attach l:1.1:2.1 252 -
        detach 9 pending -> detach @9 pending
        detach 2 queued -> detach @2 queued
        detach 2 none -> detach @2 none
        ended -> ended",
    )
}

#[test]
fn data_of_more_than_32_bytes_are_printed_by_their_digest(rt: HostRuntime) -> Result<(), Fail> {
    are_printed(
        rt.alloc(),
        "send 1:1.1:2.1 9 32*90 link -> send l:1.1:2.1 9 \
            5a5a5a5a5a5a5a5a5a5a5a5a5a5a5a5a5a5a5a5a5a5a5a5a5a5a5a5a5a5a5a5a link
        send 1.3 9 33*90 dead -> send 1.3 9 33:\
            2bde9738e693aaad3d56d9c2e03bad27e611504d714f63d0a7263d2c4b2e4816 dead",
    )
}

#[test]
fn heads_of_links_and_nodes(rt: HostRuntime) -> Result<(), Fail> {
    are_printed(
        rt.alloc(),
        "cut 1 -> cut l
        mend 2 -> mend ?
        settle 0 -> settle ?
        restart 1 -> restart n
        restart 2 -> restart ?
        wire 1 F deliver -> wire l > deliver
        wire 1 T lose -> wire l < lose
        wire 1 F repeat -> wire l > repeat
        wire 1 F 1 -> wire l > swap1
        wire 1 F 9 -> wire l > swap9
        wire 1 F 10 -> wire l > swap?
        tick 1 T -> tick l <",
    )
}

#[test]
fn heads_of_refusals(rt: HostRuntime) -> Result<(), Fail> {
    are_printed(
        rt.alloc(),
        "refused not-open 3 -> refused not-open
        refused is-open 1.1 -> refused is-open
        refused no-peer -> refused no-peer
        refused no-signal -> refused no-signal
        refused no-ref -> refused no-ref",
    )
}
