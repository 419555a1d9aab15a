//! The table under a lock: what its seats know, and what each kind of step tells.
use crate::story::{Made, Story};
use atomic_table::{Join, Play, Seat, Split, TableRule};
use std::collections::LinkedList;
use std::snapshot::Snapshot;

/// The number of a pass, what no step changes, and the steps that the pass has seen.
pub(crate) struct Front<E, F> {
    pub(crate) number: u32,
    pub(crate) fixed: F,
    pub(crate) seen: LinkedList<Made<E>>,
}

/// What a seat at the table knows. No value of it is made. It has one front, or those of all seats
/// that were joined to it.
pub(crate) struct Known<E, F> {
    pub(crate) holds: bool,
    pub(crate) deals: bool,
    pub(crate) fronts: LinkedList<Front<E, F>>,
}

/// What the table is told once: the state as it was put in, and the number of passes.
#[derive(Drop)]
pub(crate) struct About<S> {
    pub(crate) state: Snapshot<S>,
    pub(crate) seats: u32,
}

/// A seat at the table of a lock.
pub(crate) type Seating<S> = Seat<Option<S>, Known<<S as Story>::Step, <S as Story>::Fixed>>;

/// The rule of the table.
pub(crate) struct Turns;

impl<S: Story> TableRule<Option<S>, Known<S::Step, S::Fixed>, About<S>> for Turns {
    ghost use Rattle.std.specs.Prelude.{[]};
    ghost use Rattle.turn_lock.specs.Turns.{OneStory, dealing, front};

    ghost holds = { λ about. OneStory S.story S.fixed about };

    ghost first = { λ about. dealing (front 1 (S.fixed about.state.value) []) };
}

/// A try to take the slot.
pub(crate) struct Try;

impl<S: Story> Play<Option<S>, Known<S::Step, S::Fixed>> for Try {
    ghost use Rattle.turn_lock.specs.Turns.{tried};

    ghost then = { tried S.story S.fixed };
}

/// A mark, that a thread may sleep until the next give.
pub(crate) struct Mark;

impl<S: Story> Play<Option<S>, Known<S::Step, S::Fixed>> for Mark {
    ghost use Rattle.turn_lock.specs.Turns.{marked};

    ghost then = { marked };
}

/// A give of the slot.
pub(crate) struct Give;

impl<S: Story> Play<Option<S>, Known<S::Step, S::Fixed>> for Give {
    ghost use Rattle.turn_lock.specs.Turns.{gave};

    ghost then = { gave S.story S.fixed };
}

/// Before the lock is handed out: a seat for the next number.
pub(crate) struct Deal;

impl<E, F> Split<Known<E, F>> for Deal {
    ghost use Rattle.turn_lock.specs.Turns.{dealt, dealt_next};

    ghost left = { dealt };

    ghost right = { dealt_next };
}

/// While the lock is closed: two seats as one.
pub(crate) struct Gather;

impl<E, F> Join<Known<E, F>> for Gather {
    ghost use Rattle.turn_lock.specs.Turns.{joined, spent};

    ghost both = { joined };

    ghost spent = { spent };
}
