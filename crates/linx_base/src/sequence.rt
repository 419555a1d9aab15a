ghost use Rattle.std.specs.Prelude.{◌≡◌, ◌==◌, [], ◌∷◌, ◌++◌, length, OnOk, OnErr, slice_get, IfOk};
ghost use Rattle.std.specs.Option.{option_copied};

use crate::memory::NoMemory;
use crate::try_copy::TryCopy;
use std::alloc::Global;
use std::marker::Model;

/// A list of plain values, which contracts see as a list. It is emptied by `into_vec` and a `for`,
/// which moves each element once.
#[derive(Drop)]
pub struct Sequence<T> {
    elements: Vec<T>,
}

impl<T> Model for Sequence<T> {
    ghost use Rattle.std.specs.Prelude.{List};

    ghost Value = { List T };

    ghost view = { λ s. s.elements.items };
}

impl<T> Sequence<T> {
    /// The empty list. It takes no memory.
    pub fn new(alloc: Global) -> Sequence<T>
        ensures { result ≡ [] }
    {
        Sequence {
            elements: Vec::new(alloc),
        }
    }

    /// The list of one value, with room for no more. A refusal frees the value.
    pub fn one(alloc: Global, value: T) -> Result<Sequence<T>, NoMemory>
    where
        T: Drop,
        ensures { IfOk result (λ list. list ≡ value ∷ []) }
    {
        let mut elements = Vec::with_capacity(alloc, 1)?;
        elements.push(value)?;
        Ok(Sequence { elements })
    }

    /// The list that a vector holds. It takes no memory.
    pub fn of(elements: Vec<T>) -> Sequence<T>
        ensures { result ≡ elements.items }
    {
        Sequence { elements }
    }

    /// The vector that holds the list. It takes no memory.
    pub fn into_vec(self) -> Vec<T>
        ensures { result.items ≡ self }
    {
        self.elements
    }

    /// Adds a value at the end. A refusal frees the value and changes nothing.
    pub fn push(&mut self, value: T) -> Result<(), NoMemory>
    where
        T: Drop,
        ensures ok { OnOk result (self.new ≡ self.old ++ value ∷ []) }
        ensures err { OnErr result (self.new ≡ self.old) }
    {
        self.elements.push(value)?;
        Ok(())
    }

    /// How many elements there are.
    pub fn len(&self) -> usize
        ensures { result ≡ length self.now }
    {
        self.elements.len()
    }

    /// Whether there are no elements.
    pub fn is_empty(&self) -> bool
        ensures { result ≡ (length self.now == 0) }
    {
        self.elements.is_empty()
    }

    /// The element at place k from 0, `None` exactly where k isn't below the length.
    pub fn get(&self, k: usize) -> Option<&T>
        ensures { option_copied result ≡ slice_get self.now k }
    {
        self.elements.get(k)
    }

    /// The elements, in order.
    pub fn as_slice(&self) -> &[T]
        ensures { result.now ≡ self.now }
    {
        self.elements.as_slice()
    }
}

/// Copies of some values, in their order.
fn copies<T: TryCopy + Drop>(alloc: Global, values: &[T]) -> Result<Vec<T>, NoMemory>
    ensures { IfOk result (λ made. made.items ≡ values.now) }
{
    let mut made = Vec::with_capacity(alloc, values.len())?;
    for value in values {
        made.push(value.copy()?)?;
    }
    Ok(made)
}

impl<T: TryCopy + Drop> TryCopy for Sequence<T> {
    fn copy(&self) -> Result<Sequence<T>, NoMemory> {
        Ok(Sequence {
            elements: copies(*self.elements.allocator(), &self.elements)?,
        })
    }
}
