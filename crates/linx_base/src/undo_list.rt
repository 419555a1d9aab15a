ghost use Rattle.std.specs.Prelude.{◌≡◌, [], ◌∷◌, ◌++◌, OnOk, OnErr};
ghost use Rattle.linx_base.specs.Both.{still};

use crate::memory::NoMemory;
use std::alloc::Global;
use std::marker::Model;

/// A list that grows at its end, with a way back: what an event added either stays, or is cut off
/// again. Contracts see the list as it was when the event began, and as it is now.
#[derive(Drop)]
pub struct UndoList<T> {
    elements: Vec<T>,
    kept: usize,
}

impl<T> Model for UndoList<T> {
    ghost use Rattle.std.specs.Prelude.{◌≤◌, List, length, take};
    ghost use Rattle.linx_base.specs.Both.{Both};

    ghost Value = { Both (List T) };

    ghost view = { λ l. record { was = take l.kept l.elements.items; is = l.elements.items } };

    ghost invariant = { λ l. l.kept ≤ length l.elements.items };
}

impl<T> UndoList<T> {
    /// The empty list. It takes no memory.
    pub fn new(alloc: Global) -> UndoList<T>
        ensures { result ≡ still [] }
    {
        UndoList {
            elements: Vec::new(alloc),
            kept: 0,
        }
    }

    /// Adds a value at the end. A refusal frees the value and changes nothing.
    pub fn push(&mut self, value: T) -> Result<(), NoMemory>
    where
        T: Drop,
        ensures ok { OnOk result (self.new.is ≡ self.old.is ++ value ∷ []) }
        ensures was { self.new.was ≡ self.old.was }
        ensures err { OnErr result (self.new ≡ self.old) }
    {
        self.elements.push(value)?;
        Ok(())
    }

    /// What is now stays. It takes no memory.
    pub fn keep(&mut self)
        ensures { self.new ≡ still self.old.is }
    {
        self.kept = self.elements.len();
    }

    /// What was is again. It takes no memory.
    pub fn undo(&mut self)
    where
        T: Drop,
        ensures { self.new ≡ still self.old.was }
    {
        self.elements.truncate(self.kept);
    }
}
