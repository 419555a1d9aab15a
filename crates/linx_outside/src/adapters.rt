//! std's readers and writers as sources and sinks. A source tells what its reader has left and a
//! sink what its writer holds, where std knows it. Of a slice and a vector it does; of a file and
//! the standard streams it doesn't, and nothing here says what stands behind those.
ghost use Rattle.std.specs.Prelude.{◌≡◌, Some};
ghost use Rattle.linx_outside.specs.Counts.{HasFaulted, NeverFalls, raised, last_u64};
ghost use Rattle.linx_outside.specs.Reading.{read_answer, IfGot, IfReadFailed};
ghost use Rattle.linx_outside.specs.Writing.{write_answer, IfTook, IfWriteFailed};

use crate::sink::{Sink, WriteAnswer};
use crate::source::{ReadAnswer, Source};
use std::io;
use std::io::{Read, Write};
use std::marker::Model;

/// A reader or a writer of std, and how many faults it had.
#[derive(Drop)]
pub struct Adapted<T> {
    inner: T,
    faults: u64,
}

// It is seen as the reader or writer, and its faults so far.
impl<T> Model for Adapted<T> {
    ghost use Rattle.linx_outside.specs.Contents.{WithFaults};

    ghost Value = { WithFaults T };

    ghost view = { λ adapted. record { inner = adapted.inner; faults = adapted.faults } };
}

/// A reader of std as a source. Each error that the reader gives is a fault, an interrupted read
/// too.
pub type ReadFrom<R> = Adapted<R>;

/// A writer of std as a sink. Each error that the writer gives is a fault, and so is a write that
/// takes nothing of a piece that isn't empty. It never flushes.
pub type WriteTo<W> = Adapted<W>;

impl<T> Adapted<T> {
    /// With no fault so far.
    pub fn new(inner: T) -> Adapted<T>
        ensures inner { result.inner ≡ inner }
        ensures faults { result.faults ≡ 0 }
    {
        Adapted { inner, faults: 0 }
    }

    // Counts a fault. The count stands still at its last value.
    fn count_fault(&mut self)
        ensures raised_once { self.new ≡ record self.old { faults = raised self.old.faults } }
        ensures has_faulted { HasFaulted (Some last_u64) self.old.faults self.new.faults }
        ensures never_falls { NeverFalls (Some last_u64) self.old.faults self.new.faults }
    {
        self.faults = self.faults.saturating_add(1);
    }

    // What a read of std is to a source, which counts it if it is a fault.
    fn answer_to_read(&mut self, read: io::Result<usize>) -> ReadAnswer
        ensures answer { result ≡ read_answer read }
        ensures got { IfGot result (λ _. self.new ≡ self.old) }
        ensures failed { IfReadFailed result
            (self.new ≡ record self.old { faults = raised self.old.faults }) }
        ensures never_falls { NeverFalls (Some last_u64) self.old.faults self.new.faults }
    {
        match read {
            Ok(count) => ReadAnswer::Got(count),
            Err(_) => {
                self.count_fault();
                ReadAnswer::Failed
            }
        }
    }

    // What a write of std is to a sink, which counts it if it is a fault, for a piece of this size.
    fn answer_to_write(&mut self, written: io::Result<usize>, size: usize) -> WriteAnswer
        ensures answer { result ≡ write_answer written size }
        ensures took { IfTook result (λ _. self.new ≡ self.old) }
        ensures failed { IfWriteFailed result
            (self.new ≡ record self.old { faults = raised self.old.faults }) }
        ensures never_falls { NeverFalls (Some last_u64) self.old.faults self.new.faults }
    {
        match written {
            Ok(count) if count > 0 || size == 0 => WriteAnswer::Took(count),
            _ => {
                self.count_fault();
                WriteAnswer::Failed
            }
        }
    }
}

impl<R: Read> Source for Adapted<R> {
    ghost left = { λ adapted. R.remaining adapted.inner };

    ghost faults = { λ adapted. adapted.faults };

    ghost last_count = { Some last_u64 };

    ghost is_faultless = { λ _. ⊥ };

    fn read(&mut self, buffer: &mut [u8]) -> ReadAnswer {
        let read = self.inner.read(buffer);
        self.answer_to_read(read)
    }
}

impl<W: Write> Sink for Adapted<W> {
    ghost held = { λ adapted. W.contents adapted.inner };

    ghost faults = { λ adapted. adapted.faults };

    ghost last_count = { Some last_u64 };

    ghost can_take = { λ _ _. ⊥ };

    fn write(&mut self, piece: &[u8]) -> WriteAnswer {
        let written = self.inner.write(piece);
        self.answer_to_write(written, piece.len())
    }
}
