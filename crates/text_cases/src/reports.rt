//! What goes out to a sink of a run in which an actor sends to itself.

use crate::journals::{SENDS_TO_ITSELF, TEXT, journal_of};
use linx_outside::MemSink;
use report::{ReportError, write_report, write_summary};
use std::alloc::Global;
use std::test::Fail;

const SUMMARY: &str = "nodes 1\nlinks 0\nendpoints 1\nsent 1\nbytes 0\narrived 1\nfound 0\n\
    notified 0\ntaken 1\nnone 0\n";

/// A sink that takes 10 bytes a write, and fails at these calls.
fn sink(alloc: Global, fails: &[u64]) -> Result<MemSink, Fail> {
    Ok(MemSink::new(alloc, 10, 4096, Vec::from_slice(alloc, fails)?)?)
}

/// Writes the report of the run to a sink.
fn report_to(alloc: Global, sink: &mut MemSink) -> Result<Result<(), ReportError>, Fail> {
    let run = journal_of(alloc, false, SENDS_TO_ITSELF)?;
    Ok(write_report(alloc, &run, sink))
}

#[test]
fn text_in_pieces(rt: HostRuntime) -> Result<(), Fail> {
    let mut sink = sink(rt.alloc(), &[])?;
    let written = report_to(rt.alloc(), &mut sink)?;
    assert!(rt; written == Ok(()));
    assert!(rt; sink.held() == TEXT.as_bytes());
    Ok(())
}

#[test]
fn front_of_the_text_before_a_fault(rt: HostRuntime) -> Result<(), Fail> {
    let mut sink = sink(rt.alloc(), &[2])?;
    let written = report_to(rt.alloc(), &mut sink)?;
    assert!(rt; written == Err(ReportError::WriteFault));
    assert!(rt; sink.held() == b"log 1.1 a ".as_slice());
    Ok(())
}

#[test]
fn summary_of_a_run(rt: HostRuntime) -> Result<(), Fail> {
    let run = journal_of(rt.alloc(), false, SENDS_TO_ITSELF)?;
    let mut sink = sink(rt.alloc(), &[])?;
    write_summary(rt.alloc(), &run, &mut sink)?;
    assert!(rt; sink.held() == SUMMARY.as_bytes());
    Ok(())
}
