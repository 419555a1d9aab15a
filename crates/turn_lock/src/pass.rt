//! A pass, and a pass that holds the state.
ghost use Rattle.std.specs.Prelude.{◌≡◌, [], ◌∷◌, false};
ghost use Rattle.std.specs.Borrow.{sem};
ghost use Rattle.turn_lock.specs.Turns.{HasFront, HasFronts, pass_view};

use crate::story::Story;
use crate::turns::{Known, Seating};
use atomic_table::Seat;
use std::marker::Model;

/// A numbered seat at the table of a lock.
#[derive(Drop)]
pub(crate) struct Place<S: Story> {
    pub(crate) number: u32,
    pub(crate) seat: Seat<Option<S>, Known<S::Step, S::Fixed>>,
}

impl<S: Story> Model for Place<S> {
    ghost use Rattle.turn_lock.specs.Turns.{PlaceView, HasFront, place_view};

    ghost Value = { PlaceView S S.Step S.Fixed };

    ghost view = { λ p. place_view S.any_fixed p.seat.table_id p.number p.seat.me };

    ghost invariant = { λ p. HasFront S.any_fixed p.number p.seat.me.0 };
}

/// The right to take turns under one number. It has the bytes of that number alone.
#[derive(Drop)]
pub struct Pass<S: Story> {
    pub(crate) place: Place<S>,
}

impl<S: Story> Model for Pass<S> {
    ghost use Rattle.std.specs.Prelude.{◌≡◌};
    ghost use Rattle.turn_lock.specs.Passes.{PassView};
    ghost use Rattle.turn_lock.specs.Turns.{at_rest};

    ghost Value = { PassView S.Step S.Fixed };

    ghost view = { λ p. p.place.pass };

    ghost invariant = { λ p. p.place ≡ at_rest p.place.pass };
}

impl<S: Story> Pass<S> {
    /// Its number, from 1.
    pub fn number(&self) -> u32
        ensures { result ≡ self.now.number }
    {
        self.place.number
    }

    // The pass of this number, from a seat that rests.
    pub(crate) fn of(number: u32, seat: Seating<S>) -> Pass<S>
        requires rests { (seat.me.1 ≡ []) × (seat.me.0.holds ≡ false) }
        requires front { HasFront S.any_fixed number seat.me.0 }
        ensures { result ≡ pass_view S.any_fixed seat.table_id number seat.me.0 }
    {
        Pass {
            place: Place { number, seat },
        }
    }

    // Its seat.
    pub(crate) fn into_seat(self) -> Seating<S>
        ensures { (result.table_id ≡ self.lock) × HasFronts (self ∷ []) result.me }
    {
        let Pass { place } = self;
        let Place { number: _, seat } = place;
        seat
    }
}

/// A pass while it holds the state: its front is the story that it found.
pub struct Turn<S: Story> {
    pub(crate) place: Place<S>,
}

impl<S: Story> Model for Turn<S> {
    ghost use Rattle.std.specs.Prelude.{◌≡◌};
    ghost use Rattle.turn_lock.specs.Passes.{PassView};
    ghost use Rattle.turn_lock.specs.Turns.{with_nothing};

    ghost Value = { PassView S.Step S.Fixed };

    ghost view = { λ p. p.place.pass };

    ghost invariant = { λ p. p.place ≡ with_nothing p.place.pass };
}

/// The state, out of the lock, and the turn that brings it back. It has no `Drop`: give it back.
pub struct Held<S: Story> {
    pub turn: Turn<S>,
    pub state: S,
}

impl<S: Story> Held<S> {
    ghost use Rattle.std.specs.Borrow.{Lends};
    ghost use Rattle.turn_lock.specs.contracts.pass.Held.{the_row};
    ghost use Rattle.turn_lock.specs.Holding.{held_with};

    /// The number of the pass that holds the state, from 1.
    pub fn number(&self) -> u32
        ensures { result ≡ self.now.turn.number }
    {
        self.turn.place.number
    }

    /// The state, to read and to change.
    pub fn state(&mut self) -> &mut S
        ensures* writes_back { sem 𝓛
            (Lends (the_row S.row S.Step.row S.Fixed.row S.Story) S.row
            self.entry result (held_with self.old)) }
        ensures value { result.now ≡ self.old.state }
    {
        &mut self.state
    }
}
