ghost use Rattle.std.specs.Prelude.{◌≡◌, [], ◌∷◌, ◌++◌, drop, slice_get, OnOk, OnErr};
ghost use Rattle.std.specs.Option.{option_copied};
ghost use Rattle.linx_base.specs.Both.{still};

use crate::memory::NoMemory;
use std::alloc::Global;
use std::marker::Model;

/// A queue that grows at its end and is handed out from its front, with a way back. Contracts see
/// the queue as it was when an event began, and as it is now.
#[derive(Drop)]
pub struct UndoQueue<T> {
    /// What was and what is share the list: an element that went out stays until the event is kept.
    elements: Vec<T>,
    /// How many of the first elements went out since the event began.
    gone: usize,
    old_len: usize,
}

impl<T> Model for UndoQueue<T> {
    ghost use Rattle.std.specs.Prelude.{◌≤◌, List, length, take, drop};
    ghost use Rattle.linx_base.specs.Both.{Both};

    ghost Value = { Both (List T) };

    ghost view = { λ q. record {
      was = take q.old_len q.elements.items;
      is = drop q.gone q.elements.items;
    } };

    ghost invariant = { λ q.
        (q.gone ≤ length q.elements.items) × (q.old_len ≤ length q.elements.items) };
}

impl<T> UndoQueue<T> {
    /// The empty queue. It takes no memory.
    pub fn new(alloc: Global) -> UndoQueue<T>
        ensures { result ≡ still [] }
    {
        UndoQueue {
            elements: Vec::new(alloc),
            gone: 0,
            old_len: 0,
        }
    }

    /// Adds an element at the end. A refusal frees it and changes nothing.
    pub fn push(&mut self, element: T) -> Result<(), NoMemory>
    where
        T: Drop,
        ensures is { OnOk result (self.new.is ≡ self.old.is ++ element ∷ []) }
        ensures was { self.new.was ≡ self.old.was }
        ensures err { OnErr result (self.new ≡ self.old) }
    {
        self.elements.push(element)?;
        Ok(())
    }

    /// The first element, `None` exactly where there is none.
    pub fn first(&self) -> Option<&T>
        ensures { option_copied result ≡ slice_get self.now.is 0 }
    {
        self.elements.get(self.gone)
    }

    /// The first element goes out; nothing where there is none. It takes no memory.
    pub fn pass(&mut self)
        ensures is { self.new.is ≡ drop 1 self.old.is }
        ensures was { self.new.was ≡ self.old.was }
    {
        if self.gone < self.elements.len() {
            self.gone += 1;
        }
    }

    /// No element is left to go out. It takes no memory.
    pub fn clear(&mut self)
        ensures is { self.new.is ≡ [] }
        ensures was { self.new.was ≡ self.old.was }
    {
        self.gone = self.elements.len();
    }

    /// What is now stays. It takes no memory.
    pub fn keep(&mut self)
    where
        T: Drop,
        ensures { self.new ≡ still self.old.is }
    {
        let rest = self.elements.len() - self.gone;
        self.elements.rotate_left(self.gone);
        self.elements.truncate(rest);
        self.gone = 0;
        self.old_len = rest;
    }

    /// What was is again. It takes no memory.
    pub fn undo(&mut self)
    where
        T: Drop,
        ensures { self.new ≡ still self.old.was }
    {
        self.elements.truncate(self.old_len);
        self.gone = 0;
    }
}
