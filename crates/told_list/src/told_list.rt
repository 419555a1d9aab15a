ghost use Rattle.std.specs.Prelude.{◌≡◌, [], ◌∷◌, ◌++◌};
ghost use Rattle.linx_base.specs.Both.{still};
ghost use Rattle.told_list.specs.Told.{listed};

use std::marker::Model;
use std::mem;
use std::snapshot::Snapshot;

/// Items, of which the newest alone is there. The ones before it stand for clauses to read.
#[derive(Drop)]
enum Told<T: Drop> {
    /// None.
    Start,
    /// One behind the others.
    More { item: T, before: Snapshot<Told<T>> },
    /// The same once more.
    Same(Snapshot<Told<T>>),
}

/// A list for contracts to read, which takes no memory, with a way back: they see it as it was when
/// the event began, and as it is now.
#[derive(Drop)]
pub struct ToldList<T: Drop> {
    was: Snapshot<Told<T>>,
    is: Snapshot<Told<T>>,
}

impl<T: Drop> Model for ToldList<T> {
    ghost use Rattle.std.specs.Prelude.{List};
    ghost use Rattle.linx_base.specs.Both.{Both};
    ghost use Rattle.told_list.specs.Told.{listed};

    ghost Value = { Both (List T) };

    ghost view = { λ l. record { was = listed l.was.value; is = listed l.is.value } };
}

/// No items.
fn none<T: Drop>() -> Snapshot<Told<T>>
    ensures { listed result.value ≡ [] }
{
    Snapshot::of(&Told::Start)
}

/// One item more.
fn more<T: Drop>(before: Snapshot<Told<T>>, item: T) -> Snapshot<Told<T>>
    ensures { listed result.value ≡ listed before.value ++ item ∷ [] }
{
    Snapshot::of(&Told::More { item, before })
}

/// The same items, twice.
fn twice<T: Drop>(items: Snapshot<Told<T>>) -> (Snapshot<Told<T>>, Snapshot<Told<T>>)
    ensures first { listed result.0.value ≡ listed items.value }
    ensures second { listed result.1.value ≡ listed items.value }
{
    let items = Told::Same(items);
    (Snapshot::of(&items), Snapshot::of(&items))
}

impl<T: Drop> ToldList<T> {
    /// The empty list.
    pub fn new() -> ToldList<T>
        ensures { result ≡ still [] }
    {
        ToldList {
            was: none(),
            is: none(),
        }
    }

    /// One item more, at the end.
    pub fn push(&mut self, item: T)
        ensures is { self.new.is ≡ self.old.is ++ item ∷ [] }
        ensures was { self.new.was ≡ self.old.was }
    {
        let before = mem::replace(&mut self.is, none());
        self.is = more(before, item);
    }

    /// What is now stays.
    pub fn keep(&mut self)
        ensures { self.new ≡ still self.old.is }
    {
        let (was, is) = twice(mem::replace(&mut self.is, none()));
        self.was = was;
        self.is = is;
    }

    /// What was is again.
    pub fn undo(&mut self)
        ensures { self.new ≡ still self.old.was }
    {
        let (was, is) = twice(mem::replace(&mut self.was, none()));
        self.was = was;
        self.is = is;
    }
}
