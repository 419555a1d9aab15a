ghost use Rattle.std.specs.Prelude.{◌≡◌, ◌+◌, ◌-◌, ◌≤◌, List, [], false, true, Some, IfErr};
ghost use Rattle.std.specs.Prelude.{OnErr, OnOk, length, option_map};
ghost use Rattle.std.specs.Result.{result_err};
ghost use Rattle.std.specs.Io.KnownBytes.{Keeps};
ghost use Rattle.linx_outside.specs.Counts.{HasFaulted, NeverFalls, last_u64};
ghost use Rattle.linx_files.specs.Making.{held_of, refusal_of};

use crate::make_fault::MakeFault;
use crate::new_file::NewFile;
use linx_outside::{MemSink, Sink, WriteAnswer, WriteFault};

/// One file in memory, or why it can't be made. There is a folder for its name alone. What is
/// written goes to a sink in memory, which holds nothing as long as nothing is written.
#[derive(Drop)]
pub struct MemNewFile<'a> {
    name: &'a str,
    refusal: Option<MakeFault>,
    is_made: bool,
    sink: MemSink,
}

impl<'a> MemNewFile<'a> {
    /// A file that wasn't made yet, and can be made under this name alone, if there is no reason
    /// against it.
    pub fn new(name: &'a str, refusal: Option<MakeFault>, sink: MemSink) -> MemNewFile<'a>
        ensures name { result.name.now ≡ name.now }
        ensures refusal { result.refusal ≡ refusal }
        ensures unmade { result.is_made ≡ false }
        ensures sink { result.sink ≡ sink }
    {
        MemNewFile {
            name,
            refusal,
            is_made: false,
            sink,
        }
    }

    /// The bytes that it holds; `None` where it wasn't made.
    pub fn held(&self) -> Option<&[u8]>
        ensures { option_map (λ bytes. bytes.now) result ≡ held_of self.now }
    {
        if self.is_made {
            Some(self.sink.held())
        } else {
            None
        }
    }
}

impl Sink for MemNewFile<'_> {
    ghost held = { λ file. Some file.sink.held };

    ghost faults = { λ file. file.sink.faults };

    ghost last_count = { Some last_u64 };

    ghost can_take = { λ file room. (file.sink.plan.fails ≡ [])
        × (length file.sink.held + room ≤ file.sink.room) };

    fn write(&mut self, piece: &[u8]) -> WriteAnswer {
        self.sink.write(piece)
    }
}

impl NewFile for MemNewFile<'_> {
    ghost at_first = { Some [] };

    ghost refuses = { λ file name why. refusal_of file name ≡ Some why };

    fn make(&mut self, name: &str) -> Result<(), MakeFault>
        ensures answer { result_err result ≡ refusal_of self.old name.now }
        ensures after { OnOk result (self.new ≡ record self.old { is_made = true }) }

        ensures made { OnOk result (Some self.new.sink.held ≡ Some []) }
        ensures refused { IfErr result (λ why. refusal_of self.old name.now ≡ Some why) }
        ensures untouched { OnErr result (self.new ≡ self.old) }
        ensures counts_nothing { self.new.sink.faults ≡ self.old.sink.faults }
    {
        if self.is_made || !self.sink.held().is_empty() {
            return Err(MakeFault::Other);
        }
        if name != self.name {
            return Err(MakeFault::NoFolder);
        }
        if let Some(why) = self.refusal {
            return Err(why);
        }
        self.is_made = true;
        Ok(())
    }

    fn finish(&mut self) -> Result<(), WriteFault>
        ensures done { OnErr result ⊥ }
        ensures same { self.new ≡ self.old }

        ensures kept { Keeps (Some self.old.sink.held) (Some self.new.sink.held) }
        ensures counts_nothing { OnOk result (self.new.sink.faults ≡ self.old.sink.faults) }
        ensures faulted { OnErr result
            (HasFaulted (Some last_u64) self.old.sink.faults self.new.sink.faults) }
        ensures never_falls { NeverFalls (Some last_u64) self.old.sink.faults
            self.new.sink.faults }
    {
        Ok(())
    }
}
