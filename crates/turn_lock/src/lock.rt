//! The lock. Its table has one word and one slot. The word is 0 where no pass holds the state,
//! which stands in the slot then. Else it is twice the number of the pass that does, and 1 more
//! where a thread may sleep until the state is given back. That 1 is the mark: a give that doesn't
//! find it wakes nobody.
ghost use Rattle.std.specs.Prelude.{◌≡◌, ◌+◌, ◌<◌, ◌≤◌, List, [], ◌++◌, ◌↔◌, All, Contains};
ghost use Rattle.std.specs.Prelude.{IfOk, IfErr, OnOk, IsSomeAnd, IsTrue, MatchBool, MatchOption};
ghost use Rattle.std.specs.Prelude.{vec_capacity, vec_len};
ghost use Rattle.turn_lock.specs.Passes.{IsPassOf, AreDealt, HasEach, IsLeastMissing, TellsOfEach};
ghost use Rattle.turn_lock.specs.Passes.{numbers, own_steps};
ghost use Rattle.turn_lock.specs.Stories.{RestsFor, IsAddedBy, AllMadeUpTo, made_by};
ghost use Rattle.turn_lock.specs.Turns.{front, dealing, at_rest, with_state, with_nothing, Wins};
ghost use Rattle.turn_lock.specs.Turns.{HasFronts, IsReady};
ghost use Rattle.turn_lock.specs.declared.story.Made.{Made};

use crate::pass::{Held, Pass, Place, Turn};
use crate::story::Story;
use crate::turns::{About, Deal, Gather, Give, Known, Mark, Seating, Try, Turns};
use atomic_table::Table;
use linx_base::NoMemory;
use std::alloc::Global;
use std::hint::spin_loop;
use std::marker::Model;
use std::snapshot::Snapshot;
use std::sync::Wait;

// How often a thread looks at the word before it sleeps: about as long as it takes to sleep and be
// woken.
const LOOKS: u32 = 1000;

/// A state that one pass at a time may hold.
#[derive(Drop)]
pub struct TurnLock<S: Story> {
    table: Table<Option<S>, Known<S::Step, S::Fixed>, About<S>, Turns, Global>,
    seats: u32,
}

impl<S: Story> Model for TurnLock<S> {
    ghost use Rattle.std.specs.Prelude.{◌≡◌, ◌<◌};
    ghost use Rattle.turn_lock.specs.Passes.{LockView};

    ghost Value = { LockView };

    ghost view = { λ l. record { id = l.table.shared.table_id; seats = l.seats } };

    ghost invariant = { λ l. (l.table.shared.table_id.words ≡ 1)
        × (l.table.shared.table_id.slots ≡ 1)
        × (l.table.shared.key.seats ≡ l.seats) × (0 < l.seats) };
}

/// A pass of the lock was not among those that it was to be closed with. All come back.
#[derive(Drop)]
pub struct CloseRefused<S: Story> {
    pub lock: TurnLock<S>,
    pub passes: Vec<Pass<S>>,
    /// The least number of a pass that was not there.
    pub missing: u32,
}

impl<S: Story> TurnLock<S> {
    /// Puts a state with no steps behind a lock of 1 to 96 passes, and deals out the passes,
    /// numbered from 1. `NoMemory` drops the state.
    pub fn new(alloc: Global, state: S, seats: u32) -> Result<(TurnLock<S>, Vec<Pass<S>>), NoMemory>
    where
        S: Drop,
        requires fresh { S.story state ≡ [] }
        requires seats { (0 < seats) × (seats ≤ 96) }
        ensures { IfOk result (λ r. (r.0.seats ≡ seats) × AreDealt r.0 (S.fixed state) r.1.items) }
    {
        let about = About {
            state: Snapshot::of(&state),
            seats,
        };
        let mut passes = Vec::with_capacity(alloc, seats as usize)?;
        let mut slots = Vec::with_capacity(alloc, 1)?;
        slots.push_reserved(Some(state));
        let Ok((table, seat)) = Table::new(alloc, &[0], slots, &about) else {
            return Err(NoMemory);
        };
        let lock = TurnLock { table, seats };
        lock.deal(&about, seat, &mut passes);
        Ok((lock, passes))
    }

    // Deals out the passes, of which the first has the seat.
    fn deal(&self, about: &About<S>, seat: Seating<S>, passes: &mut Vec<Pass<S>>)
        requires lock { seat.table_id ≡ self.now.id }
        requires seat { seat.me ≡ (dealing (front 1 (S.fixed about.now.state.value) []), []) }
        requires none { (passes.old.items ≡ []) × (vec_len passes.old ≡ 0) }
        requires room { (vec_capacity passes.old ≡ self.now.seats) × (0 < self.now.seats) }
        ensures { AreDealt self.now (S.fixed about.now.state.value) passes.new.items }
    {
        let mut last = seat;
        for number in 1..self.seats {
            let next = self.table.shared.split_seat::<Deal>(&mut last);
            passes.push_reserved(Pass::of(number, last));
            last = next;
        }
        passes.push_reserved(Pass::of(self.seats, last));
    }

    /// Waits until no pass holds the state, and takes it.
    pub fn take<R: Wait>(&self, rt: &R, pass: Pass<S>) -> Held<S>
        requires { IsPassOf self.now pass }
        ensures turn { result.turn ≡ record pass { front = S.story result.state } }
        ensures rests { RestsFor pass.number (S.story result.state) pass.front }
        ensures own { own_steps result.turn ≡ own_steps pass }
        ensures fixed { S.fixed result.state ≡ pass.fixed }
    {
        let Pass { mut place } = pass;
        self.wait(rt, &mut place);
        let state = self.take_out(&mut place);
        Held {
            turn: Turn { place },
            state,
        }
    }

    // Waits until no pass holds the state, and takes the slot.
    //
    // No wake is lost. A thread sets the mark before its last look at the word, which `park` takes:
    // it lets the thread sleep only where the word still says this turn with the mark. The mark
    // leaves the word by a give alone, which reads it as it writes 0, and then wakes a sleeper. Who
    // was woken can't know whether others sleep still, so it takes the slot with the mark, or sets
    // the mark again before it sleeps, and the next give wakes the next.
    fn wait<R: Wait>(&self, rt: &R, place: &mut Place<S>)
        requires lock { IsPassOf self.now place.old.pass }
        requires rests { place.old ≡ at_rest place.old.pass }
        ensures { Wins S.story S.fixed place.old.pass place.new }
    {
        let held = u64::from(place.number) * 2;
        if self.look_often(place, held) {
            return;
        }
        for _ in rt.forever() {
            self.sleep(rt, place);
            if self.look_often(place, held + 1) {
                return;
            }
        }
        unreachable!()
    }

    // Looks for a while: most turns are short, and to sleep and be woken takes longer.
    fn look_often(&self, place: &mut Place<S>, held: u64) -> bool
        requires { IsReady self.now held place.old }
        ensures { MatchBool result (Wins S.story S.fixed place.old.pass place.new)
            (place.new ≡ place.old) }
    {
        for _ in 0..LOOKS {
            if self.look(place, held) {
                return true;
            }
            spin_loop();
        }
        false
    }

    // Takes the slot if no pass holds the state, and says whether it did. The word is `held` then.
    fn look(&self, place: &mut Place<S>, held: u64) -> bool
        requires { IsReady self.now held place.old }
        ensures { MatchBool result (Wins S.story S.fixed place.old.pass place.new)
            (place.new ≡ place.old) }
    {
        let shared = &self.table.shared;
        if shared.peek(0) != 0 {
            return false;
        }
        shared.compare_exchange::<Try>(&mut place.seat, 0, 0, held) == 0
    }

    // Marks the word and sleeps until a give, unless no pass holds the state. It may also return
    // for no reason.
    fn sleep<R: Wait>(&self, rt: &R, place: &mut Place<S>)
        requires { IsPassOf self.now place.old.pass }
        ensures { place.new ≡ place.old }
    {
        let shared = &self.table.shared;
        let found = shared.peek(0);
        if found < 2 {
            return;
        }
        let awaited = found / 2 * 2 + 1;
        shared.compare_exchange::<Mark>(&mut place.seat, 0, found, awaited);
        shared.park(rt, 0, u32::try_from(awaited).unwrap_or(0));
    }

    // Takes the state out of the slot.
    fn take_out(&self, place: &mut Place<S>) -> S
        requires lock { IsPassOf self.now place.old.pass }
        requires held { (x : S) × (place.old ≡ with_state x place.old.pass) }
        ensures state { place.old ≡ with_state result place.old.pass }
        ensures taken { place.new ≡ with_nothing place.old.pass }
    {
        let slot = self.table.shared.exchange(&mut place.seat, 0, None);
        let Some(state) = slot else { unreachable!() };
        state
    }

    /// Gives the state back, with the steps that were added.
    pub fn give(&self, held: Held<S>) -> Pass<S>
        requires lock { IsPassOf self.now held.turn }
        requires added { IsAddedBy held.turn.number (S.story held.state) held.turn.front }
        requires fixed { S.fixed held.state ≡ held.turn.fixed }
        ensures pass { result ≡ record held.turn { front = S.story held.state } }
        ensures own { (added : List (Made S.Step)) → S.story held.state ≡ added ++ held.turn.front
            → own_steps result ≡ added ++ own_steps held.turn }
    {
        let Held { turn, state } = held;
        let Turn { mut place } = turn;
        let found = self.put_back(&mut place, state);
        self.wake(found);
        Pass { place }
    }

    // Puts the state into the slot, and gives the slot back. Answers the word before.
    fn put_back(&self, place: &mut Place<S>, state: S) -> u64
        requires lock { IsPassOf self.now place.old.pass }
        requires out { place.old ≡ with_nothing place.old.pass }
        requires added { IsAddedBy place.old.pass.number (S.story state) place.old.pass.front }
        requires fixed { S.fixed state ≡ place.old.pass.fixed }
        ensures { place.new ≡ at_rest (record place.old.pass { front = S.story state }) }
    {
        let shared = &self.table.shared;
        let slot = shared.exchange(&mut place.seat, 0, Some(state));
        let None = slot else { unreachable!() };
        shared.swap::<Give>(&mut place.seat, 0, 0)
    }

    // Wakes a thread if the word that a give found has the mark.
    fn wake(&self, found: u64) {
        if found % 2 == 1 {
            self.table.shared.wake_one(0);
        }
    }

    /// Closes the lock and gives the state, if all passes of the lock are there.
    pub fn close(self, passes: Vec<Pass<S>>) -> Result<S, CloseRefused<S>>
        requires { All (IsPassOf self) passes.items }
        ensures each { OnOk result (HasEach self passes.items) }
        ensures fixed { IfOk result (λ x. All (λ p. S.fixed x ≡ p.fixed) passes.items) }
        ensures rests { IfOk result (λ x.
            All (λ p. RestsFor p.number (S.story x) p.front) passes.items) }
        ensures own { IfOk result (λ x.
            All (λ p. made_by p.number (S.story x) ≡ own_steps p) passes.items) }
        ensures makers { IfOk result (λ x. AllMadeUpTo self.seats (S.story x)) }
        ensures missing { IfErr result (λ e. IsLeastMissing self passes.items e.missing) }
        ensures back { IfErr result (λ e. (e.lock ≡ self) × (e.passes.items ≡ passes.items)) }
    {
        if let Some(missing) = self.first_missing(passes.as_slice()) {
            return Err(CloseRefused {
                lock: self,
                passes,
                missing,
            });
        }
        let Some(state) = self.finish(passes) else {
            unreachable!()
        };
        Ok(state)
    }

    // The least number of a pass that is not among these.
    fn first_missing(&self, passes: &[Pass<S>]) -> Option<u32>
        ensures some { 0 < self.now.seats }
        ensures missing { MatchOption result (HasEach self.now passes.now)
            (IsLeastMissing self.now passes.now) }
    {
        for index in 0..self.seats {
            if !has_number(passes, index + 1) {
                return Some(index + 1);
            }
        }
        None
    }

    // What stands in the slot of a lock that no pass holds, since all are here.
    fn finish(self, passes: Vec<Pass<S>>) -> Option<S>
        requires of { All (IsPassOf self) passes.items }
        requires each { (0 < self.seats) × HasEach self passes.items }
        ensures { IsSomeAnd result (TellsOfEach self.seats S.story S.fixed passes.items) }
    {
        let seat = self.gather(passes);
        let TurnLock { table, seats: _ } = self;
        let mut closed = table.close_with(seat);
        let slot = closed.take(0);
        closed.free();
        slot
    }

    // One seat, which knows what all these passes know.
    fn gather(&self, mut passes: Vec<Pass<S>>) -> Seating<S>
        requires of { All (IsPassOf self.now) passes.items }
        requires some { 0 < vec_len passes }
        ensures { (result.table_id ≡ self.now.id) × HasFronts passes.items result.me }
    {
        let Some(pass) = passes.pop() else {
            unreachable!()
        };
        let mut seat = pass.into_seat();
        while let Some(pass) = passes.pop() {
            self.table
                .shared
                .join_seat::<Gather>(&mut seat, pass.into_seat());
        }
        seat
    }
}

fn has_number<S: Story>(passes: &[Pass<S>], number: u32) -> bool
    ensures { IsTrue result ↔ Contains (numbers passes.now) number }
{
    for pass in passes {
        if pass.number() == number {
            return true;
        }
    }
    false
}
