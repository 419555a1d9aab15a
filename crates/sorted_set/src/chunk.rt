ghost use Rattle.std.specs.Prelude.{◌≡◌, ◌==◌, ◌<◌, ◌≤◌, [], ◌∷◌, ◌++◌, drop, length, IfOk, OnOk};
ghost use Rattle.std.specs.Prelude.{OnErr, slice_get};
ghost use Rattle.std.specs.Option.{option_copied};
ghost use Rattle.std.specs.BTreeMap.{is_at};
ghost use Rattle.std.specs.BTreeSet.{insert_key};
ghost use Rattle.std.specs.Set.{remove_key};
ghost use Rattle.sorted_set.specs.Sorted.{Ascends, elements_from};
ghost use Rattle.sorted_set.specs.Chunks.{begins_by};

use linx_base::NoMemory;
use std::alloc::Global;
use std::marker::Model;

/// The most elements of a chunk.
pub(crate) const CHUNK_MOST: usize = 128;

/// Neighbours in a sorted set.
#[derive(Drop)]
pub(crate) struct Chunk<T> {
    elements: Vec<T>,
}

impl<T> Model for Chunk<T> {
    ghost use Rattle.std.specs.Prelude.{List};

    ghost Value = { List T };

    ghost view = { λ c. c.elements.items };
}

impl<T> Chunk<T> {
    /// Its elements from a place on.
    pub(crate) fn part_from(&self, first: usize) -> &[T]
        requires { first ≤ length self.now }
        ensures { result.now ≡ drop first self.now }
    {
        &self.elements[first..]
    }
}

impl<T: Ord + Drop> Chunk<T> {
    /// A chunk of one element. A refusal frees it.
    pub(crate) fn of(alloc: Global, element: T) -> Result<Chunk<T>, NoMemory>
        ensures { IfOk result (λ chunk. chunk ≡ element ∷ []) }
    {
        let mut elements = Vec::new(alloc);
        elements.push(element)?;
        Ok(Chunk { elements })
    }

    /// How many elements the chunk has.
    pub(crate) fn len(&self) -> usize
        ensures { result ≡ length self.now }
    {
        self.elements.len()
    }

    /// Whether the chunk has no elements.
    pub(crate) fn is_empty(&self) -> bool
        ensures { result ≡ (length self.now == 0) }
    {
        self.elements.is_empty()
    }

    /// The element at place k from 0; `None` exactly where there are at most k.
    pub(crate) fn get(&self, k: usize) -> Option<&T>
        ensures { option_copied result ≡ slice_get self.now k }
    {
        self.elements.get(k)
    }

    /// Whether the chunk doesn't begin above this element.
    pub(crate) fn begins_by(&self, element: &T) -> bool
        ensures { result ≡ begins_by T.cmp element.now self.now }
    {
        match self.elements.first() {
            Some(first) => element.cmp(first).is_ge(),
            None => true,
        }
    }

    /// How many elements are below this one.
    pub(crate) fn count_below(&self, element: &T) -> usize
        requires { Ascends T.cmp self.now }
        ensures within { result ≤ length self.now }
        ensures rest { elements_from T.cmp element.now self.now ≡ drop result self.now }
    {
        match self.elements.binary_search(element) {
            Ok(at) => at,
            Err(at) => at,
        }
    }

    /// Adds an element at its place, unless an equal one is there. A refusal frees it and changes
    /// nothing.
    pub(crate) fn insert(&mut self, element: T) -> Result<(), NoMemory>
        requires { Ascends T.cmp self.old }
        ensures ok { OnOk result (self.new ≡ insert_key T.cmp self.old element) }
        ensures err { OnErr result (self.new ≡ self.old) }
    {
        if let Err(at) = self.elements.binary_search(&element) {
            self.elements.insert(at, element)?;
        }
        Ok(())
    }

    /// Removes the element that equals this one, if there is one.
    pub(crate) fn remove(&mut self, element: &T)
        requires { Ascends T.cmp self.old }
        ensures { self.new ≡ remove_key (is_at (T.cmp element.now)) self.old }
    {
        if let Ok(at) = self.elements.binary_search(element) {
            self.elements.remove(at);
        }
    }

    /// Gives the second half away. A refusal changes nothing.
    pub(crate) fn split(&mut self) -> Result<Chunk<T>, NoMemory>
        requires { 1 < length self.old }
        ensures ok { IfOk result (λ back. self.old ≡ self.new ++ back) }
        ensures halves { IfOk result (λ back. (0 < length self.new) × (0 < length back)) }
        ensures err { OnErr result (self.new ≡ self.old) }
    {
        let half = self.elements.len() / 2;
        Ok(Chunk {
            elements: self.elements.split_off(half)?,
        })
    }
}
