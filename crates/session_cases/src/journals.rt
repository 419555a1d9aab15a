//! The text of the journal that a session leaves.

use crate::talking::{joined, serve_for_text};
use linx_outside::{MemSink, MemSource};
use request_stream::ServeStop;
use std::test::Fail;

/// A client opens `a`, has a timer of 5 with the signal 300, which the clock's 5 sends to itself, and
/// takes it. A clock's 4 is too late, and a part of a request is the end.
const ASKED: [&str; 6] = [
    "000000050101000061",
    "0000000c08010000000000050000012c",
    "0000000c0b0000000000000000000005",
    "000000080401000000000000",
    "0000000c0b0000000000000000000004",
    "000000",
];

const TEXT: &str = "log 1.1 a g\n\
    sent 1.1 300 - queued\n\
    arrived 1.1 300 -\n\
    took 1.1 300 -\n\
    journal 3\n\
    1 A1 open a\n\
    + opened 1.1\n\
    2 A1 send 1.1 300 - queued\n\
    + arrived 1.1 1.1 300 -\n\
    3 A1 take any 2.1\n";

#[test]
fn a_torn_session_has_the_steps_of_its_requests(rt: HostRuntime) -> Result<(), Fail> {
    let alloc = rt.alloc();
    let mut source = MemSource::new(joined(alloc, &ASKED)?, 1, Vec::new(alloc));
    let mut sink = MemSink::new(alloc, 4096, 4096, Vec::new(alloc))?;
    let (ended, text) = serve_for_text(alloc, &mut source, &mut sink)?;
    assert!(rt; ended == Err(ServeStop::Torn { at: 69 }));
    assert!(rt; text.as_slice() == TEXT.as_bytes());
    Ok(())
}
