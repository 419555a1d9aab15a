//! The logs of incarnations, and the whole text of a journal.

use crate::journals::{SENDS_TO_ITSELF, TEXT, empty_journal, journal_of};
use journal::Journal;
use journal_text::{text, write_log, write_logs};
use linx_base::{Inc, NodeNo};
use std::alloc::Global;
use std::test::Fail;

/// A hunts B, attaches to it three times, and sends to it; B takes that and closes.
const RUN: &str = "1 open a + opened 1.1
    2 open b + opened 1.2
    1 hunt b 251 - + found 1.1 1.2 251 - 3
    2 waits any
    1 take only:251 3.1
    1 attach 1.2 252 -
    1 attach 1.2 300 aa
    1 detach 6 pending
    1 send 1.2 1 - queued + arrived 1.2 1.1 1 -
    2 take any 9.1
    1 waits any
    2 close + closed 1.2 + notified 1.1 1.2 300 aa00 7 closed
    1 take any 12.2
    2 ended
    1 attach 1.2 252 - + notified 1.1 1.2 252 02 15 dead
    1 take any 15.1
    1 none any
    1 ended + closed 1.1";

const LOG_OF_A: &str = "log 1.1 a n\nhunt b 251 -\nfound 1.2 251 -\ntook 1.2 251 -\n\
    attach 1.2 252 -\nattach 1.2 300 aa\ndetach pending\nsent 1.2 1 - queued\n\
    notified 1.2 300 aa00 closed\ntook 1.2 300 aa00\nattach 1.2 252 -\nnotified 1.2 252 02 dead\n\
    took 1.2 252 02\nnone\nclosed\n";

const LOG_OF_B: &str = "log 1.2 b n\narrived 1.1 1 -\ntook 1.1 1 -\nclosed\n";

/// The log of the endpoint of an opening.
fn log(alloc: Global, journal: &Journal, opening: u32) -> Result<Vec<u8>, Fail> {
    let mut log = Vec::new(alloc);
    write_log(&mut log, journal, Inc::of(NodeNo(1), opening))?;
    Ok(log)
}

#[test]
fn log_of_each_endpoint(rt: HostRuntime) -> Result<(), Fail> {
    let run = journal_of(rt.alloc(), true, RUN)?;
    assert!(rt; log(rt.alloc(), &run, 1)?.as_slice() == LOG_OF_A.as_bytes());
    assert!(rt; log(rt.alloc(), &run, 2)?.as_slice() == LOG_OF_B.as_bytes());
    Ok(())
}

#[test]
fn logs_in_order_of_opening(rt: HostRuntime) -> Result<(), Fail> {
    let run = journal_of(rt.alloc(), true, RUN)?;
    let mut logs = Vec::new(rt.alloc());
    write_logs(&mut logs, &run)?;
    let wanted = format!(in rt.alloc(); "{LOG_OF_A}{LOG_OF_B}")?;
    assert!(rt; logs.as_slice() == wanted.as_bytes());
    Ok(())
}

#[test]
fn text_of_a_send_to_oneself(rt: HostRuntime) -> Result<(), Fail> {
    let run = journal_of(rt.alloc(), true, SENDS_TO_ITSELF)?;
    assert!(rt; text(rt.alloc(), &run)?.as_slice() == TEXT.as_bytes());
    Ok(())
}

#[test]
fn no_text_of_no_steps(rt: HostRuntime) -> Result<(), Fail> {
    let run = empty_journal(rt.alloc(), true)?;
    assert!(rt; text(rt.alloc(), &run)?.is_empty());
    Ok(())
}
