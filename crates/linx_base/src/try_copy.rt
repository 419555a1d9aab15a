ghost use Rattle.std.specs.Prelude.{◌≡◌, IfOk};

use crate::memory::NoMemory;

/// A value of which another can be made that equals it. Bytes that never change are shared by
/// both, so a copy costs a pointer for each shared part.
pub trait TryCopy: Sized {
    /// Another value, equal to this one.
    fn copy(&self) -> Result<Self, NoMemory>
        ensures { IfOk result (λ copy. copy ≡ self.now) };
}

impl TryCopy for u32 {
    fn copy(&self) -> Result<u32, NoMemory> {
        Ok(*self)
    }
}
