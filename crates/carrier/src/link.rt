//! Both ends of a link and what is in flight. After a refusal the event is to be undone.
ghost use Rattle.std.specs.Prelude.{◌≡◌, ◌≤◌, ◌<◌, length, IfOk, OnOk, ◌++◌, slice_get, Some};
ghost use Rattle.linx_base.specs.Both.{still};
ghost use Rattle.linx_base.specs.Frames.{IsMessage};
ghost use Rattle.linx_base.specs.Numbers.{boot_of};
ghost use Rattle.linx_base.specs.Sides.{other_of};
ghost use Rattle.ethcm_headers.specs.declared.packets.Packet.{Packet};
ghost use Rattle.ethcm_session.specs.Table.{HasNext};
ghost use Rattle.ethcm_window.specs.Sending.{left_of};
ghost use Rattle.ethcm_end.specs.Rules.{input_of};
ghost use Rattle.ethcm_end.specs.Sound.{IsPiece};
ghost use Rattle.ethcm_end.specs.States.{peer_of};
ghost use Rattle.carrier.specs.Events.{delivered, drained, flight_from, half_of, handed_as};
ghost use Rattle.carrier.specs.Events.{handed_by, is_quiet, left_after, lost_from, new_link};
ghost use Rattle.carrier.specs.Events.{offered_to, recorded, restarted_at, swapped_from, HasNextAt};
ghost use Rattle.carrier.specs.Events.{link_told_by, ticked_at};
ghost use Rattle.lossy_wire.specs.Flight.{HasOnlyGrown};
ghost use Rattle.carrier.specs.Spelling.{HasOnlyGrownFrom};

use crate::flight::Flight;
use crate::half::Half;
use crate::handed::{Handed, TickedSide};
use linx_base::{Message, NoMemory, Session, Side};
use std::alloc::Global;
use std::marker::Model;

/// Both sides of a link and what is in flight between them, with a way back. Contracts see the link
/// as it was when the event began, and as it is now.
#[derive(Drop)]
pub(crate) struct Link {
    first: Half,
    second: Half,
    there: Flight,
    back: Flight,
}

impl Model for Link {
    ghost use Rattle.linx_base.specs.Both.{Both};
    ghost use Rattle.carrier.specs.Events.{LinkState};

    ghost Value = { Both LinkState };

    ghost view = { λ l. record {
      was = record {
        first = l.first.was;
        second = l.second.was;
        there = l.there.was;
        back = l.back.was;
      };
      is = record {
        first = l.first.is;
        second = l.second.is;
        there = l.there.is;
        back = l.back.is;
      };
    } };
}

/// The packet at place k has come, and stays in its place or is gone.
fn leave(flight: &mut Flight, k: usize, keep: bool)
    requires within { k < length flight.old.is }
    requires grown { HasOnlyGrown flight.old }
    ensures is { flight.new.is ≡ left_after keep k flight.old.is }
    ensures was { flight.new.was ≡ flight.old.was }
{
    if keep {
        return;
    }
    flight.lose(k);
}

/// The packet at place k of a flight comes to a side, which sends into the other flight.
fn come(
    half: &mut Half,
    out: &mut Flight,
    flight: &mut Flight,
    k: usize,
    keep: bool,
) -> Result<Handed, NoMemory>
    requires within { k < length flight.old.is }
    requires grown { HasOnlyGrown flight.old }
    requires counted { HasNext half.old.is.end.talk.mine }
    ensures half { OnOk result ((p : Packet) → slice_get flight.old.is k ≡ Some p
        → half.new.is
        ≡ recorded half.old.is (drained (input_of half.old.is.end p).state)
        (input_of half.old.is.end p).answer) }
    ensures half_was { half.new.was ≡ half.old.was }
    ensures out { OnOk result ((p : Packet) → slice_get flight.old.is k ≡ Some p
        → out.new.is ≡ out.old.is ++ (input_of half.old.is.end p).state.out) }
    ensures out_was { out.new.was ≡ out.old.was }
    ensures flight { OnOk result (flight.new.is ≡ left_after keep k flight.old.is) }
    ensures flight_was { flight.new.was ≡ flight.old.was }
    ensures handed { IfOk result (λ handed. (p : Packet) → slice_get flight.old.is k ≡ Some p
        → handed ≡ handed_as half.old.is.end.talk.mine p.src (input_of half.old.is.end p).answer) }
{
    let handed = half.receive(flight.at(k), out)?;
    leave(flight, k, keep);
    Ok(handed)
}

impl Link {
    /// A link before anything happened. It takes no memory.
    pub(crate) fn new(alloc: Global, window: u32, piece: u32) -> Link
        requires { IsPiece piece }
        ensures { result ≡ still (new_link window piece) }
    {
        Link {
            first: Half::new(alloc, window, piece),
            second: Half::new(alloc, window, piece),
            there: Flight::new(alloc),
            back: Flight::new(alloc),
        }
    }

    /// The packet at place k from a side comes to the other one.
    pub(crate) fn deliver(&mut self, from: Side, k: usize, keep: bool) -> Result<Handed, NoMemory>
        requires within { k < length (flight_from from self.old.is) }
        requires grown { HasOnlyGrownFrom from self.old }
        requires counted { HasNextAt (other_of from) self.old.is }
        ensures is { OnOk result (self.new.is ≡ delivered from k keep self.old.is) }
        ensures was { self.new.was ≡ self.old.was }
        ensures handed { IfOk result (λ handed. handed ≡ handed_by from k self.old.is) }
    {
        match from {
            Side::First => {
                let handed = come(&mut self.second, &mut self.back, &mut self.there, k, keep)?;
                Ok(handed)
            }
            Side::Second => {
                let handed = come(&mut self.first, &mut self.there, &mut self.back, k, keep)?;
                Ok(handed)
            }
        }
    }

    /// A side is ticked.
    pub(crate) fn tick(&mut self, side: Side) -> Result<TickedSide, NoMemory>
        requires counted { HasNextAt side self.old.is }
        ensures is { OnOk result (self.new.is ≡ ticked_at side self.old.is) }
        ensures was { self.new.was ≡ self.old.was }
        ensures ticked { IfOk result (λ ticked. ticked ≡ link_told_by side self.old.is) }
    {
        match side {
            Side::First => {
                let ticked = self.first.tick(&mut self.there)?;
                Ok(ticked)
            }
            Side::Second => {
                let ticked = self.second.tick(&mut self.back)?;
                Ok(ticked)
            }
        }
    }

    /// A message is offered to a side.
    pub(crate) fn offer(&mut self, side: Side, message: &Message) -> Result<(), NoMemory>
        requires message { IsMessage message.now }
        requires left { 1024 ≤ left_of (half_of side self.old.is).end.tx }
        ensures is { OnOk result (self.new.is ≡ offered_to side message.now self.old.is) }
        ensures was { self.new.was ≡ self.old.was }
    {
        match side {
            Side::First => {
                self.first.offer(message, &mut self.there)?;
                Ok(())
            }
            Side::Second => {
                self.second.offer(message, &mut self.back)?;
                Ok(())
            }
        }
    }

    /// A side boots again, with a later boot number.
    pub(crate) fn restart(&mut self, side: Side, boot: u32) -> Result<(), NoMemory>
        requires { boot_of (half_of side self.old.is).end.talk.mine < boot }
        ensures is { OnOk result (self.new.is ≡ restarted_at side boot self.old.is) }
        ensures was { self.new.was ≡ self.old.was }
    {
        match side {
            Side::First => {
                self.first.restart(boot)?;
                Ok(())
            }
            Side::Second => {
                self.second.restart(boot)?;
                Ok(())
            }
        }
    }

    /// The packet at place k from a side is lost.
    pub(crate) fn lose(&mut self, from: Side, k: usize)
        requires within { k < length (flight_from from self.old.is) }
        requires grown { HasOnlyGrownFrom from self.old }
        ensures is { self.new.is ≡ lost_from from k self.old.is }
        ensures was { self.new.was ≡ self.old.was }
    {
        match from {
            Side::First => self.there.lose(k),
            Side::Second => self.back.lose(k),
        }
    }

    /// The packets at places k and n from a side are exchanged.
    pub(crate) fn swap(&mut self, from: Side, k: usize, n: usize)
        requires first { k < length (flight_from from self.old.is) }
        requires second { n < length (flight_from from self.old.is) }
        requires grown { HasOnlyGrownFrom from self.old }
        ensures is { self.new.is ≡ swapped_from from k n self.old.is }
        ensures was { self.new.was ≡ self.old.was }
    {
        match from {
            Side::First => self.there.swap(k, n),
            Side::Second => self.back.swap(k, n),
        }
    }

    /// How many packets from a side are in flight.
    pub(crate) fn in_flight(&self, from: Side) -> usize
        ensures { result ≡ length (flight_from from self.now.is) }
    {
        match from {
            Side::First => self.there.len(),
            Side::Second => self.back.len(),
        }
    }

    /// A side of the link.
    fn half(&self, side: Side) -> &Half
        ensures { result.now.is ≡ half_of side self.now.is }
    {
        match side {
            Side::First => &self.first,
            Side::Second => &self.second,
        }
    }

    /// The session of a side.
    pub(crate) fn mine(&self, side: Side) -> Session
        ensures { result ≡ (half_of side self.now.is).end.talk.mine }
    {
        self.half(side).mine()
    }

    /// The session of a side's peer, `None` exactly while it is connecting.
    pub(crate) fn peer(&self, side: Side) -> Option<Session>
        ensures { result ≡ peer_of (half_of side self.now.is).end }
    {
        self.half(side).peer()
    }

    /// How many numbers a side has left to give to frames.
    pub(crate) fn frames_left(&self, side: Side) -> u32
        ensures { result ≡ left_of (half_of side self.now.is).end.tx }
    {
        self.half(side).frames_left()
    }

    /// Whether nothing is in flight, and neither end has work.
    pub(crate) fn is_quiet(&self) -> bool
        ensures { result ≡ is_quiet self.now.is }
    {
        let still = self.there.is_empty() && self.back.is_empty();
        still && !self.first.has_work() && !self.second.has_work()
    }

    /// What is now stays. It takes no memory.
    pub(crate) fn keep(&mut self)
        ensures { self.new ≡ still self.old.is }
    {
        self.first.keep();
        self.second.keep();
        self.there.keep();
        self.back.keep();
    }

    /// What was is again. It takes no memory.
    pub(crate) fn undo(&mut self)
        ensures { self.new ≡ still self.old.was }
    {
        self.first.undo();
        self.second.undo();
        self.there.undo();
        self.back.undo();
    }
}
