ghost use Rattle.std.specs.Prelude.{◌≡◌, ◌≤◌, ◌<◌, true, length, IfOk, OnOk, OnErr, IsSome};
ghost use Rattle.linx_base.specs.declared.identity.Side.{Side as AnySide};
ghost use Rattle.linx_base.specs.Both.{still};
ghost use Rattle.linx_base.specs.Frames.{IsMessage};
ghost use Rattle.linx_base.specs.Numbers.{boot_of, first_session};
ghost use Rattle.linx_base.specs.Sides.{other_of};
ghost use Rattle.ethcm_window.specs.Sending.{left_of};
ghost use Rattle.ethcm_end.specs.Sound.{IsPiece};
ghost use Rattle.ethcm_end.specs.States.{peer_of};
ghost use Rattle.carrier.specs.Events.{delivered, flight_from, half_of, handed_by, is_quiet};
ghost use Rattle.carrier.specs.Events.{lost_from, new_link, offered_to, restarted_at, HasNextAt};
ghost use Rattle.carrier.specs.Events.{link_told_by, swapped_from, ticked_at};
ghost use Rattle.carrier.specs.Spelling.{HasOnlyGrownFrom};
ghost use Rattle.carrier.specs.Keeping.{KeepsLink};
ghost use Rattle.carrier.specs.Laws.{BeginsBoot, CarrierPromises, DownForGreater, IsComplete};
ghost use Rattle.carrier.specs.Laws.{Offers, TellsRightly, handed_of};

use crate::handed::{Handed, TickedSide};
use crate::link::Link;
use linx_base::{Message, NoMemory, Session, Side};
use std::alloc::Global;
use std::marker::Model;

/// Both ends of a link, the packets in flight between them, and the record of all their sessions,
/// with a way back: what an event did either stays, or is undone. An event is a `keep` or an `undo`
/// and the calls since the one before it. Contracts see the link as it was when the event began,
/// and as it is now; what holds of a link holds of both.
#[derive(Drop)]
pub struct Carrier {
    link: Link,
}

impl Model for Carrier {
    ghost use Rattle.linx_base.specs.Both.{Both};
    ghost use Rattle.carrier.specs.Events.{LinkState};
    ghost use Rattle.carrier.specs.Keeping.{KeepsLink};

    ghost Value = { Both LinkState };

    ghost view = { λ c. c.link };

    ghost invariant = { λ c. KeepsLink c.link.was × KeepsLink c.link.is };
}

/// `Link::tick`, and what it tells; what holds of a link still holds.
fn beat(link: &mut Link, side: Side) -> Result<TickedSide, NoMemory>
    requires counted { HasNextAt side link.old.is }
    requires keeps { KeepsLink link.old.is }
    ensures is { OnOk result (link.new.is ≡ ticked_at side link.old.is) }
    ensures was { link.new.was ≡ link.old.was }
    ensures ticked { IfOk result (λ ticked. ticked ≡ link_told_by side link.old.is) }
    ensures keeps { OnOk result (KeepsLink link.new.is) }
    ensures told { IfOk result (λ ticked. TellsRightly (half_of side link.old.is)
        (half_of side link.new.is) (half_of (other_of side) link.old.is) (handed_of ticked)) }
    ensures other { OnOk result
        (half_of (other_of side) link.new.is ≡ half_of (other_of side) link.old.is) }
{
    let ticked = link.tick(side)?;
    Ok(ticked)
}

/// `Link::offer` to a side that is up, and what it tells; what holds of a link still holds.
fn send(link: &mut Link, side: Side, message: &Message) -> Result<(), NoMemory>
    requires up { IsSome (peer_of (half_of side link.old.is).end) }
    requires message { IsMessage message.now }
    requires left { 1024 ≤ left_of (half_of side link.old.is).end.tx }
    requires keeps { KeepsLink link.old.is }
    ensures is { OnOk result (link.new.is ≡ offered_to side message.now link.old.is) }
    ensures was { link.new.was ≡ link.old.was }
    ensures keeps { OnOk result (KeepsLink link.new.is) }
    ensures told { OnOk result (Offers (half_of side link.old.is) (half_of side link.new.is)
        message.now) }
    ensures other { OnOk result
        (half_of (other_of side) link.new.is ≡ half_of (other_of side) link.old.is) }
{
    link.offer(side, message)?;
    Ok(())
}

/// `Link::restart`, and what it tells; what holds of a link still holds.
fn boot_again(link: &mut Link, side: Side, boot: u32) -> Result<(), NoMemory>
    requires later { boot_of (half_of side link.old.is).end.talk.mine < boot }
    requires keeps { KeepsLink link.old.is }
    ensures is { OnOk result (link.new.is ≡ restarted_at side boot link.old.is) }
    ensures was { link.new.was ≡ link.old.was }
    ensures keeps { OnOk result (KeepsLink link.new.is) }
    ensures told { OnOk result (BeginsBoot (half_of side link.old.is)
        (half_of side link.new.is) (first_session boot)) }
    ensures other { OnOk result
        (half_of (other_of side) link.new.is ≡ half_of (other_of side) link.old.is) }
{
    link.restart(side, boot)?;
    Ok(())
}

impl Carrier {
    /// A link whose ends are in the first session of boot 1, with nothing in flight. Its window is
    /// at least one frame, and its pieces have 64 to 8,192 bytes. It takes no memory.
    pub fn new(alloc: Global, window: u32, piece: u32) -> Carrier
        requires window { 1 ≤ window }
        requires piece { IsPiece piece }
        ensures new { result ≡ still (new_link window piece) }
        ensures grown { (from : AnySide) → HasOnlyGrownFrom from result }
    {
        Carrier {
            link: Link::new(alloc, window, piece),
        }
    }

    /// The packet at place k from a side comes to the other one. It then stays in its place, or is
    /// gone, in an event that has lost or exchanged none from that side yet. A refusal undoes the
    /// event.
    pub fn deliver(&mut self, from: Side, k: usize, keep: bool) -> Result<Handed, NoMemory>
        requires within { k < length (flight_from from self.old.is) }
        requires grown { HasOnlyGrownFrom from self.old }
        requires counted { HasNextAt (other_of from) self.old.is }
        ensures is { OnOk result (self.new.is ≡ delivered from k keep self.old.is) }
        ensures was { self.new.was ≡ self.old.was }
        ensures handed { IfOk result (λ handed. handed ≡ handed_by from k self.old.is) }
        ensures err { OnErr result (self.new ≡ still self.old.was) }
        // What is handed up says what became of the side, which goes down only for a greater
        // session of the other one; that one stays as it is.
        ensures told { IfOk result (λ handed. TellsRightly (half_of (other_of from) self.old.is)
            (half_of (other_of from) self.new.is) (half_of from self.old.is) handed) }
        ensures told_down { IfOk result (λ handed. DownForGreater
            (half_of (other_of from) self.old.is) (half_of from self.old.is) handed) }
        ensures sender { OnOk result (half_of from self.new.is ≡ half_of from self.old.is) }
    {
        match self.link.deliver(from, k, keep) {
            Ok(handed) => Ok(handed),
            Err(_) => {
                self.link.undo();
                Err(NoMemory)
            }
        }
    }

    /// A side is ticked. A refusal undoes the event.
    pub fn tick(&mut self, side: Side) -> Result<TickedSide, NoMemory>
        requires counted { HasNextAt side self.old.is }
        ensures is { OnOk result (self.new.is ≡ ticked_at side self.old.is) }
        ensures was { self.new.was ≡ self.old.was }
        ensures ticked { IfOk result (λ ticked. ticked ≡ link_told_by side self.old.is) }
        ensures err { OnErr result (self.new ≡ still self.old.was) }
        // What the tick means says what became of the side; the other one stays as it is.
        ensures told { IfOk result (λ ticked. TellsRightly (half_of side self.old.is)
            (half_of side self.new.is) (half_of (other_of side) self.old.is) (handed_of ticked)) }
        ensures other { OnOk result
            (half_of (other_of side) self.new.is ≡ half_of (other_of side) self.old.is) }
    {
        match beat(&mut self.link, side) {
            Ok(ticked) => Ok(ticked),
            Err(_) => {
                self.link.undo();
                Err(NoMemory)
            }
        }
    }

    /// A message is offered to a side that is up. Its pieces and the record share its bytes. A
    /// refusal undoes the event.
    pub fn offer(&mut self, side: Side, message: &Message) -> Result<(), NoMemory>
        requires up { IsSome (peer_of (half_of side self.old.is).end) }
        requires message { IsMessage message.now }
        // A message has at most 1,024 pieces, and each gets a number.
        requires left { 1024 ≤ left_of (half_of side self.old.is).end.tx }
        ensures is { OnOk result (self.new.is ≡ offered_to side message.now self.old.is) }
        ensures was { self.new.was ≡ self.old.was }
        ensures err { OnErr result (self.new ≡ still self.old.was) }
        // The message is recorded, and the other side stays as it is.
        ensures told { OnOk result (Offers (half_of side self.old.is) (half_of side self.new.is)
            message.now) }
        ensures other { OnOk result
            (half_of (other_of side) self.new.is ≡ half_of (other_of side) self.old.is) }
    {
        match send(&mut self.link, side, message) {
            Ok(()) => Ok(()),
            Err(_) => {
                self.link.undo();
                Err(NoMemory)
            }
        }
    }

    /// A side boots again, with a later boot number. A refusal undoes the event.
    pub fn restart(&mut self, side: Side, boot: u32) -> Result<(), NoMemory>
        requires { boot_of (half_of side self.old.is).end.talk.mine < boot }
        ensures is { OnOk result (self.new.is ≡ restarted_at side boot self.old.is) }
        ensures was { self.new.was ≡ self.old.was }
        ensures err { OnErr result (self.new ≡ still self.old.was) }
        // The session is recorded, and the other side stays as it is.
        ensures told { OnOk result (BeginsBoot (half_of side self.old.is)
            (half_of side self.new.is) (first_session boot)) }
        ensures other { OnOk result
            (half_of (other_of side) self.new.is ≡ half_of (other_of side) self.old.is) }
    {
        match boot_again(&mut self.link, side, boot) {
            Ok(()) => Ok(()),
            Err(_) => {
                self.link.undo();
                Err(NoMemory)
            }
        }
    }

    /// The packet at place k from a side is lost, in an event that has lost or exchanged none from
    /// that side yet. It takes no memory.
    pub fn lose(&mut self, from: Side, k: usize)
        requires within { k < length (flight_from from self.old.is) }
        requires grown { HasOnlyGrownFrom from self.old }
        ensures is { self.new.is ≡ lost_from from k self.old.is }
        ensures was { self.new.was ≡ self.old.was }
    {
        self.link.lose(from, k);
    }

    /// The packets at places k and n from a side are exchanged, in an event that has lost or
    /// exchanged none from that side yet. It takes no memory.
    pub fn swap(&mut self, from: Side, k: usize, n: usize)
        requires first { k < length (flight_from from self.old.is) }
        requires second { n < length (flight_from from self.old.is) }
        requires grown { HasOnlyGrownFrom from self.old }
        ensures is { self.new.is ≡ swapped_from from k n self.old.is }
        ensures was { self.new.was ≡ self.old.was }
    {
        self.link.swap(from, k, n);
    }

    /// How many packets from a side are in flight.
    pub fn in_flight(&self, from: Side) -> usize
        ensures { result ≡ length (flight_from from self.now.is) }
    {
        self.link.in_flight(from)
    }

    /// The session of a side.
    pub fn mine(&self, side: Side) -> Session
        ensures { result ≡ (half_of side self.now.is).end.talk.mine }
    {
        self.link.mine(side)
    }

    /// The session of a side's peer, `None` exactly while it is connecting.
    pub fn peer(&self, side: Side) -> Option<Session>
        ensures { result ≡ peer_of (half_of side self.now.is).end }
    {
        self.link.peer(side)
    }

    /// How many numbers a side has left to give to frames.
    pub fn frames_left(&self, side: Side) -> u32
        ensures { result ≡ left_of (half_of side self.now.is).end.tx }
    {
        self.link.frames_left(side)
    }

    /// Whether nothing is in flight, and neither end has work. Then both sides are up with each
    /// other, and all that was offered in their sessions was handed up.
    pub fn quiet(&self) -> bool
        ensures quiet { result ≡ is_quiet self.now.is }
        ensures complete { result ≡ true → IsComplete self.now.is }
    {
        self.link.is_quiet()
    }

    /// What holds of the link at every moment, whatever happened. It does nothing.
    pub fn promises(&self)
        ensures keeps { KeepsLink self.now.is }
        ensures kept { KeepsLink self.now.was }
        ensures promises { CarrierPromises self.now.is }
        ensures promised { CarrierPromises self.now.was }
    {
        let _ = &self.link;
    }

    /// What is now stays, and the next event begins. It takes no memory.
    pub fn keep(&mut self)
        ensures is { self.new ≡ still self.old.is }
        // No packet was lost or exchanged yet.
        ensures grown { (from : AnySide) → HasOnlyGrownFrom from self.new }
    {
        self.link.keep();
    }

    /// What was is again, and the next event begins. It takes no memory.
    pub fn undo(&mut self)
        ensures was { self.new ≡ still self.old.was }
        // No packet was lost or exchanged yet.
        ensures grown { (from : AnySide) → HasOnlyGrownFrom from self.new }
    {
        self.link.undo();
    }
}
