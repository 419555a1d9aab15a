ghost use Rattle.std.specs.Prelude.{◌≡◌, ◌<◌, ◌≤◌, None, Some, IfSome, length};
ghost use Rattle.linx_outside.specs.Counts.{HasFaulted, NeverFalls, last_u64};

use crate::make_fault::MakeFault;
use crate::new_file::NewFile;
use linx_outside::{Sink, WriteAnswer, WriteFault};
use std::fs;
use std::io::Write;

/// A file of the system, by its path. What it holds is not told. What is written goes to the system
/// at once. Each error that the system gives for a write is a fault; so is a write that takes nothing of a
/// piece that isn't empty, and one before the file was made.
#[derive(Drop)]
pub struct SystemNewFile<'a, R: fs::Files> {
    system: &'a R,
    file: Option<R::File>,
    faults: u64,
}

impl<'a, R: fs::Files> SystemNewFile<'a, R> {
    /// A file that wasn't made yet.
    pub fn new(system: &'a R) -> SystemNewFile<'a, R>
        ensures { result.faults ≡ 0 }
    {
        SystemNewFile {
            system,
            file: None,
            faults: 0,
        }
    }

    // How many bytes of a piece the system took; none where it is no write, or a fault.
    fn taken(&mut self, piece: &[u8]) -> Option<usize>
        ensures within { IfSome result (λ n. n ≤ length piece.now) }
        ensures some { IfSome result (λ n. 0 < length piece.now → 0 < n) }
        ensures counts_nothing { self.new.faults ≡ self.old.faults }
    {
        match self.file.as_mut()?.write(piece) {
            Ok(count) if count > 0 || piece.is_empty() => Some(count),
            _ => None,
        }
    }

    // Counts a fault. The count stands still at its last value.
    fn count_fault(&mut self)
        ensures has_faulted { HasFaulted (Some last_u64) self.old.faults self.new.faults }
        ensures never_falls { NeverFalls (Some last_u64) self.old.faults self.new.faults }
    {
        self.faults = self.faults.saturating_add(1);
    }
}

impl<R: fs::Files> Sink for SystemNewFile<'_, R> {
    ghost held = { λ _. None };

    ghost faults = { λ file. file.faults };

    ghost last_count = { Some last_u64 };

    ghost can_take = { λ _ _. ⊥ };

    fn write(&mut self, piece: &[u8]) -> WriteAnswer {
        match self.taken(piece) {
            Some(count) => WriteAnswer::Took(count),
            None => {
                self.count_fault();
                WriteAnswer::Failed
            }
        }
    }
}

impl<R: fs::Files> NewFile for SystemNewFile<'_, R> {
    ghost at_first = { None };

    ghost refuses = { λ _ _ _. Unit {0} };

    fn make(&mut self, name: &str) -> Result<(), MakeFault> {
        match fs::create(self.system, name) {
            Ok(file) => {
                self.file = Some(file);
                Ok(())
            }
            Err(error) => Err(MakeFault::of(error.kind())),
        }
    }

    fn finish(&mut self) -> Result<(), WriteFault> {
        if let Some(file) = self.file.as_mut()
            && file.flush().is_ok()
        {
            return Ok(());
        }
        self.count_fault();
        Err(WriteFault)
    }
}
