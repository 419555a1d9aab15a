ghost use Rattle.std.specs.Prelude.{◌≡◌, ◌++◌, [], OnOk, OnErr, IfOk};

use crate::blob::Blob;
use crate::memory::NoMemory;
use std::alloc::Global;
use std::marker::Model;

/// Bytes that grow at their end, which contracts see as a list.
#[derive(Drop)]
pub struct Bytes {
    grown: Vec<u8>,
}

impl Model for Bytes {
    ghost use Rattle.std.specs.Prelude.{List, ℕ};

    ghost Value = { List ℕ };

    ghost view = { λ b. b.grown.items };
}

impl Bytes {
    /// No bytes as yet, with room for so many.
    pub fn with_room(alloc: Global, room: usize) -> Result<Bytes, NoMemory>
        ensures { IfOk result (λ bytes. bytes ≡ []) }
    {
        Ok(Bytes {
            grown: Vec::with_capacity(alloc, room)?,
        })
    }

    /// Adds bytes at the end. A refusal changes nothing.
    pub fn extend(&mut self, bytes: &[u8]) -> Result<(), NoMemory>
        ensures ok { OnOk result (self.new ≡ self.old ++ bytes.now) }
        ensures err { OnErr result (self.new ≡ self.old) }
    {
        self.grown.extend_from_slice(bytes)?;
        Ok(())
    }

    /// A blob of the bytes, which are not copied. A refusal frees them.
    pub fn into_blob(self) -> Result<Blob, NoMemory>
        ensures { IfOk result (λ blob. blob ≡ self) }
    {
        Blob::shared(self.grown)
    }
}
