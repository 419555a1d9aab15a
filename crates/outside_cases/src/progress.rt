//! What is told of the progress of many runs.

use linx_outside::{MemSink, Sink};
use run_progress::{EachSecond, Progress, Untold};
use std::alloc::Global;
use std::cell::Cell;
use std::io;
use std::io::ErrorKind;
use std::test::Fail;
use std::time::{Clock, Duration};

/// A clock that is set by hand, in milliseconds. At midnight it fails.
#[derive(Drop)]
struct Hands {
    millis: Cell<u64>,
}

impl Clock for Hands {
    fn monotonic(&self) -> io::Result<Duration> {
        match self.millis.get() {
            0 => Err(io::Error::from(ErrorKind::Other)),
            millis => Ok(Duration::from_millis(millis)),
        }
    }

    fn since_1970(&self) -> io::Result<Duration> {
        self.monotonic()
    }
}

/// At which moment so many runs were made, and whether it is told.
type Row = (u64, u64, bool);

/// Whether a sink is told what rows say, from half a second on, of 100,000 runs.
fn tells<K: Sink>(sink: &mut K, rows: &[Row]) -> bool {
    let clock = Hands {
        millis: Cell::new(500),
    };
    let mut progress = EachSecond::new(&clock, sink);
    let mut same = true;
    for &(millis, runs, is_told) in rows {
        clock.millis.set(millis);
        same = same && progress.made(runs, 100_000) == is_told;
    }
    same
}

/// A sink that takes 10 bytes a write, and fails at these calls.
fn sink(alloc: Global, fails: &[u64]) -> Result<MemSink, Fail> {
    Ok(MemSink::new(alloc, 10, 4096, fails.to_vec(alloc)?)?)
}

#[test]
fn a_line_comes_each_second(rt: HostRuntime) -> Result<(), Fail> {
    let mut sink = sink(rt.alloc(), &[])?;
    let rows = [
        (1499, 11_999, false),
        (1500, 12_000, true),
        (2499, 12_001, false),
        (5200, 99_999, true),
        (6199, 100_000, false),
    ];
    assert!(rt; tells(&mut sink, &rows));
    assert!(rt; sink.held() == b"runs 12000 of 100000\nruns 99999 of 100000\n".as_slice());
    Ok(())
}

#[test]
fn behind_a_fault_of_the_sink_nothing_more_is_told(rt: HostRuntime) -> Result<(), Fail> {
    let mut sink = sink(rt.alloc(), &[2])?;
    assert!(rt; tells(&mut sink, &[(1500, 12_000, false), (9000, 13_000, false)]));
    assert!(rt; sink.held() == b"runs 12000".as_slice());
    Ok(())
}

#[test]
fn behind_a_fault_of_the_clock_nothing_more_is_told(rt: HostRuntime) -> Result<(), Fail> {
    let mut sink = sink(rt.alloc(), &[])?;
    let rows = [
        (1500, 12_000, true),
        (0, 13_000, false),
        (9000, 14_000, false),
    ];
    assert!(rt; tells(&mut sink, &rows));
    assert!(rt; sink.held() == b"runs 12000 of 100000\n".as_slice());
    Ok(())
}

#[test]
fn untold_progress_is_told_nowhere(rt: HostRuntime) {
    let mut untold = Untold;
    assert!(rt; !untold.made(12_000, 100_000));
}
