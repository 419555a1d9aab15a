ghost use Rattle.std.specs.Prelude.{◌≡◌, ◌++◌, drop, length, slice_get};
ghost use Rattle.std.specs.Option.{option_copied};
ghost use Rattle.sorted_set.specs.Chunks.{AreFilled, IsReady, joined};

use crate::chunk::Chunk;
use std::marker::Model;

/// A walk over elements of a sorted set, in order. Contracts see it as those that are still to
/// come.
#[derive(Drop)]
pub struct Rest<'a, T> {
    here: &'a [T],
    later: &'a [Chunk<T>],
}

impl<'a, T> Model for Rest<'a, T> {
    ghost use Rattle.std.specs.Prelude.{List, ◌++◌};
    ghost use Rattle.sorted_set.specs.Chunks.{IsReady, joined};

    ghost Value = { List T };

    ghost view = { λ r. r.here.now ++ joined r.later.now };

    ghost invariant = { λ r. IsReady r.here.now r.later.now };
}

impl<'a, T> Rest<'a, T> {
    fn made(here: &'a [T], later: &'a [Chunk<T>]) -> Rest<'a, T>
        requires { IsReady here.now later.now }
        ensures { result ≡ here.now ++ joined later.now }
    {
        Rest { here, later }
    }

    /// The walk over these chunks, where none of this one is left.
    fn begun(here: &'a [T], later: &'a [Chunk<T>]) -> Rest<'a, T>
        requires filled { AreFilled later.now }
        requires none { length here.now ≡ 0 }
        ensures { result ≡ here.now ++ joined later.now }
    {
        match later.first() {
            Some(chunk) => Rest::made(chunk.part_from(0), &later[1..]),
            None => Rest::made(here, later),
        }
    }

    /// The walk over these elements, and then over these chunks.
    pub(crate) fn of(here: &'a [T], later: &'a [Chunk<T>]) -> Rest<'a, T>
        requires { AreFilled later.now }
        ensures { result ≡ here.now ++ joined later.now }
    {
        if here.is_empty() {
            return Rest::begun(here, later);
        }
        Rest::made(here, later)
    }

    /// The next element. `None` exactly where none is left.
    pub fn first(&self) -> Option<&'a T>
        ensures { option_copied result ≡ slice_get self.now 0 }
    {
        self.here.first()
    }

    /// Goes past the next element, if one is left.
    pub fn pass(&mut self)
        ensures { self.new ≡ drop 1 self.old }
    {
        if self.here.is_empty() {
            return;
        }
        *self = Rest::of(&self.here[1..], self.later);
    }
}
