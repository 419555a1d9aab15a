//! Progress in lines on a sink.

ghost use Rattle.std.specs.Prelude.{◌≡◌, ◌⊎◌, None, Some};
ghost use Rattle.std.specs.Bool.{OnFalse, OnTrue};
ghost use Rattle.std.specs.Io.KnownBytes.{Appends};
ghost use Rattle.linx_outside.specs.Counts.{NeverFalls};
ghost use Rattle.run_progress.specs.Lines.{progress_line};
ghost use Rattle.run_progress.specs.Seconds.{IsSecondBehind};
ghost use Rattle.run_progress.specs.Telling.{WritesNoLine};

use crate::line::progress_line;
use crate::progress::Progress;
use linx_outside::{Sink, write_all};
use std::time::{Clock, Instant};

/// Says it in a line on a sink, a second or more behind the line before, or behind the moment when
/// this was made. After a fault of the clock or of the sink it says nothing more.
#[derive(Drop)]
pub struct EachSecond<'a, R, K> {
    clock: &'a R,
    sink: &'a mut K,
    // When the last line was written, or this was made; `None` after a fault.
    last: Option<Instant>,
}

impl<'a, R: Clock, K: Sink> EachSecond<'a, R, K> {
    /// Nothing was said yet.
    pub fn new(clock: &'a R, sink: &'a mut K) -> EachSecond<'a, R, K>
        ensures same_sink { result.sink.ghost_name ≡ sink.entry.ghost_name }
        ensures untouched { result.sink.now ≡ sink.old }
    {
        let last = Instant::now(clock).ok();
        EachSecond { clock, sink, last }
    }

    /// Says it at this moment.
    fn say(&mut self, now: Instant, runs: u64, of: u64) -> bool
        ensures same_sink { self.new.sink.ghost_name ≡ self.old.sink.ghost_name }
        ensures told { OnTrue result (Appends (K.held self.old.sink.now) (K.held self.new.sink.now)
            (progress_line runs of)) }
        ensures counts_nothing { OnTrue result
            (K.faults self.new.sink.now ≡ K.faults self.old.sink.now) }
        ensures moment { OnTrue result (self.new.last ≡ Some now) }
        ensures untold { OnFalse result (WritesNoLine K.held K.faults K.last_count self.old.sink.now
            self.new.sink.now (progress_line runs of)) }
        ensures stopped { OnFalse result (self.new.last ≡ None) }
        ensures never_falls { NeverFalls K.last_count (K.faults self.old.sink.now)
            (K.faults self.new.sink.now) }
    {
        match write_all(self.sink, progress_line(runs, of).as_slice()) {
            Ok(()) => {
                self.last = Some(now);
                true
            }
            Err(_) => {
                self.last = None;
                false
            }
        }
    }
}

impl<R: Clock, K: Sink> Progress for EachSecond<'_, R, K> {
    fn made(&mut self, runs: u64, of: u64) -> bool
        // Of a line that was written.
        ensures told { OnTrue result (Appends (K.held self.old.sink.now) (K.held self.new.sink.now)
            (progress_line runs of)) }
        ensures counts_nothing { OnTrue result
            (K.faults self.new.sink.now ≡ K.faults self.old.sink.now) }
        ensures a_second_behind { OnTrue result (IsSecondBehind self.old.last self.new.last) }

        // Where none was.
        ensures untold { OnFalse result (WritesNoLine K.held K.faults K.last_count self.old.sink.now
            self.new.sink.now (progress_line runs of)) }
        ensures waits { OnFalse result
            ((self.new.last ≡ self.old.last) ⊎ (self.new.last ≡ None)) }
        ensures stops_at_faults { OnFalse result
            ((self.new.sink.now ≡ self.old.sink.now) ⊎ (self.new.last ≡ None)) }

        // Whatever the answer.
        ensures same_sink { self.new.sink.ghost_name ≡ self.old.sink.ghost_name }
        ensures never_falls { NeverFalls K.last_count (K.faults self.old.sink.now)
            (K.faults self.new.sink.now) }
    {
        let Some(last) = self.last else {
            return false;
        };
        match Instant::now(self.clock) {
            Ok(now) if now.duration_since(last).as_secs() == 0 => false,
            Ok(now) => self.say(now, runs, of),
            Err(_) => {
                self.last = None;
                false
            }
        }
    }
}
