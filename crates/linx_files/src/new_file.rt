ghost use Rattle.std.specs.Prelude.{◌≡◌, ℕ, List, Option, IfErr, OnErr, OnOk};
ghost use Rattle.std.specs.Io.KnownBytes.{Keeps};
ghost use Rattle.linx_outside.specs.Counts.{HasFaulted, NeverFalls};

use crate::make_fault::MakeFault;
use linx_outside::{Sink, WriteFault};

/// A file that is made by its name, and then written as a sink.
pub trait NewFile: Sink {
    ghost use Rattle.linx_files.specs.declared.make_fault.MakeFault.{MakeFault};

    // What it holds once it was made: no bytes, where it tells its bytes.
    ghost at_first: { Option (List ℕ) };

    // It may be refused under this name for this reason.
    ghost refuses: { Self → List ℕ → MakeFault → Type 0 };

    /// Makes the file of a name. Where there is one of this name, what that one held is gone.
    fn make(&mut self, name: &str) -> Result<(), MakeFault>
        ensures made { OnOk result (Self.held self.new ≡ at_first) }
        ensures refused { IfErr result (λ why. refuses self.old name.now why) }
        ensures untouched { OnErr result (self.new ≡ self.old) }
        ensures counts_nothing { Self.faults self.new ≡ Self.faults self.old };

    /// Passes on what was written and is still held back. What was written is in the file then, or
    /// a fault is counted.
    fn finish(&mut self) -> Result<(), WriteFault>
        ensures kept { Keeps (Self.held self.old) (Self.held self.new) }
        ensures counts_nothing { OnOk result (Self.faults self.new ≡ Self.faults self.old) }
        ensures faulted { OnErr result
            (HasFaulted Self.last_count (Self.faults self.old) (Self.faults self.new)) }
        ensures never_falls { NeverFalls Self.last_count (Self.faults self.old)
            (Self.faults self.new) };
}
