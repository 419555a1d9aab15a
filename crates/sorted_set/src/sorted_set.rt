ghost use Rattle.std.specs.Prelude.{◌≡◌, [], OnOk, OnErr, slice_get};
ghost use Rattle.std.specs.Option.{option_copied};
ghost use Rattle.std.specs.BTreeMap.{is_at};
ghost use Rattle.std.specs.BTreeSet.{insert_key};
ghost use Rattle.std.specs.Set.{remove_key};
ghost use Rattle.sorted_set.specs.Sorted.{Ascends, elements_from};

use crate::chunk::Chunk;
use crate::chunks;
use crate::rest::Rest;
use linx_base::NoMemory;
use std::alloc::Global;
use std::marker::Model;

/// A set of elements, which contracts see as their list in order.
#[derive(Drop)]
pub struct SortedSet<T: Ord> {
    chunks: Vec<Chunk<T>>,
}

impl<T: Ord> Model for SortedSet<T> {
    ghost use Rattle.std.specs.Prelude.{List};
    ghost use Rattle.sorted_set.specs.Chunks.{AreChunks, joined};

    ghost Value = { List T };

    ghost view = { λ s. joined s.chunks.items };

    ghost invariant = { λ s. AreChunks T.cmp s.chunks.items };
}

impl<T: Ord + Drop> SortedSet<T> {
    /// The empty set. It takes no memory.
    pub fn new(alloc: Global) -> SortedSet<T>
        ensures { result ≡ [] }
    {
        SortedSet {
            chunks: Vec::new(alloc),
        }
    }

    /// Adds an element, unless an equal one is there. A refusal frees it and changes nothing.
    pub fn insert(&mut self, element: T) -> Result<(), NoMemory>
        ensures ok { OnOk result (self.new ≡ insert_key T.cmp self.old element) }
        ensures err { OnErr result (self.new ≡ self.old) }
        ensures ascending { Ascends T.cmp self.new }
    {
        chunks::insert(&mut self.chunks, element)
    }

    /// Removes the element that equals this one, if there is one. It takes no memory.
    pub fn remove(&mut self, element: &T)
        ensures elements { self.new ≡ remove_key (is_at (T.cmp element.now)) self.old }
        ensures ascending { Ascends T.cmp self.new }
    {
        chunks::remove(&mut self.chunks, element);
    }

    /// The k-th element, from 0, of those that aren't below this one. `None` exactly where there
    /// are at most k.
    pub fn nth_from(&self, from: &T, k: usize) -> Option<&T>
        ensures nth { option_copied result ≡ slice_get (elements_from T.cmp from.now self.now) k }
        ensures ascending { Ascends T.cmp self.now }
    {
        chunks::nth_from(&self.chunks, from, k)
    }

    /// The elements that aren't below this one, in order.
    pub fn rest_from(&self, from: &T) -> Rest<'_, T>
        ensures rest { result ≡ elements_from T.cmp from.now self.now }
        ensures ascending { Ascends T.cmp self.now }
    {
        chunks::rest_from(&self.chunks, from)
    }
}
