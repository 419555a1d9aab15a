ghost use Rattle.std.specs.Prelude.{◌≡◌, ◌≤◌, ◌<◌, true, ◌&&◌, length, map, IfOk, IsOk, OnOk};
ghost use Rattle.std.specs.Prelude.{OnErr};
ghost use Rattle.linx_base.specs.declared.identity.Side.{Side as AnySide};
ghost use Rattle.linx_base.specs.Both.{still};
ghost use Rattle.linx_base.specs.Sides.{other_of};
ghost use Rattle.link_addresses.specs.Meanings.{used_in};
ghost use Rattle.ethcm_window.specs.Sending.{left_of};
ghost use Rattle.ethcm_end.specs.Sound.{IsPiece};
ghost use Rattle.ethcm_end.specs.States.{peer_of};
ghost use Rattle.carrier.specs.Events.{flight_from, half_of, handed_by, is_quiet, HasNextAt};
ghost use Rattle.carrier.specs.Events.{link_told_by};
ghost use Rattle.trunk_record.specs.Sayings.{heard_as, is_live};
ghost use Rattle.trunk_record.specs.Trunks.{IsQuiet, IsTrunk};
ghost use Rattle.rlnh_end.specs.declared.heard.Heard.{Heard as AnyHeard};
ghost use Rattle.trunk.specs.Calls.{HasNumbersFor, MayCall, SaysNothing, TellsCall, makes};
ghost use Rattle.trunk.specs.Events.{HasNumbersLeft, IsReading, delivered, kept_of, lost_from};
ghost use Rattle.trunk.specs.Events.{new_trunk, side_of, swapped_from, tables_of, ticked_at};
ghost use Rattle.trunk.specs.Events.{told_by};
ghost use Rattle.trunk.specs.Keeping.{KeepsTrunk};
ghost use Rattle.trunk.specs.Laws.{MayPublish, MaySend};
ghost use Rattle.trunk.specs.Parts.{HasOnlyGrownAt};
ghost use Rattle.trunk.specs.Promises.{TrunkPromises};
ghost use Rattle.trunk.specs.Publishing.{can_publish};
ghost use Rattle.trunk.specs.Tells.{DownForLater, TellsNotes, TellsSide, noted_of, up_of_tick};

use crate::call::SideCall;
use crate::parts::Parts;
use crate::steps;
use crate::up::TrunkUp;
use carrier::TickedSide;
use linx_base::{Inc, Name, NoMemory, Session, Side, Signal};
use std::alloc::Global;
use std::marker::Model;

/// A trunk: a link, an RLNH end on each of its sides, and the record of what both sides said and
/// were given, with a way back: what an event did either stays, or is undone. An event is a `keep`
/// or an `undo` and the calls since the one before it. Contracts see the trunk as it was when the
/// event began, and as it is now; what holds of a trunk holds of both.
#[derive(Drop)]
pub struct Trunk {
    parts: Parts,
}

impl Model for Trunk {
    ghost use Rattle.linx_base.specs.Both.{Both};
    ghost use Rattle.trunk.specs.Events.{TrunkState};
    ghost use Rattle.trunk.specs.Keeping.{KeepsTrunk};

    ghost Value = { Both TrunkState };

    ghost view = { λ t. t.parts };

    ghost invariant = { λ t. KeepsTrunk t.parts.was × KeepsTrunk t.parts.is };
}

/// The number of an incarnation, which fits 64 bits.
fn number_of(inc: Inc) -> u64
    ensures { result ≡ inc.0 }
{
    inc.0
}

impl Trunk {
    /// A trunk whose sides are in the first session of boot 1, with nothing in flight. Its window
    /// is at least one frame, and its pieces have 64 to 8,192 bytes. It takes no memory.
    pub fn new(alloc: Global, window: u32, piece: u32) -> Trunk
        requires window { 1 ≤ window }
        requires piece { IsPiece piece }
        ensures new { result ≡ still (new_trunk window piece) }
        ensures grown { (from : AnySide) → HasOnlyGrownAt from result }
    {
        Trunk {
            parts: Parts::new(alloc, window, piece),
        }
    }

    /// The packet at place k from a side comes to the other one. It then stays in its place, or is
    /// gone, in an event that has lost or exchanged none from that side yet. A refusal undoes the
    /// event.
    pub fn deliver(&mut self, from: Side, k: usize, keep: bool) -> Result<TrunkUp, NoMemory>
        requires within { k < length (flight_from from self.old.is.link) }
        requires grown { HasOnlyGrownAt from self.old }
        requires counted { HasNextAt (other_of from) self.old.is.link }
        // What the side says to a message gets numbers.
        requires left { HasNumbersLeft (other_of from) self.old.is }
        // What comes has a reading; the trunk and what is handed up are those of each.
        ensures is_read { OnOk result
            ((heard : AnyHeard) × IsReading (handed_by from k self.old.is.link) heard) }
        ensures is { OnOk result ((heard : AnyHeard)
            → IsReading (handed_by from k self.old.is.link) heard
            → self.new.is ≡ delivered from k keep heard self.old.is) }
        ensures up { IfOk result (λ up. (heard : AnyHeard)
            → IsReading (handed_by from k self.old.is.link) heard
            → up ≡ told_by from k heard self.old.is) }
        ensures was { self.new.was ≡ self.old.was }
        ensures err { OnErr result (self.new ≡ still self.old.was) }
        // What is handed up says how the side's record and its notes grow. It goes down only for a
        // later session of the other side, which stays as it is.
        ensures told { IfOk result (λ up. TellsSide (kept_of (other_of from) self.old.is)
            (kept_of (other_of from) self.new.is) (kept_of from self.old.is) up) }
        ensures told_notes { IfOk result (λ up. TellsNotes (noted_of (other_of from) self.old.is)
            (noted_of (other_of from) self.new.is) up) }
        ensures told_down { IfOk result (λ up. DownForLater (kept_of (other_of from) self.old.is)
            (kept_of from self.old.is) up) }
        ensures sender { OnOk result (side_of from self.new.is ≡ side_of from self.old.is) }
    {
        match steps::deliver(&mut self.parts, from, k, keep) {
            Ok(up) => Ok(up),
            Err(_) => {
                self.parts.undo();
                Err(NoMemory)
            }
        }
    }

    /// A side is ticked. A refusal undoes the event.
    pub fn tick(&mut self, side: Side) -> Result<TickedSide, NoMemory>
        requires counted { HasNextAt side self.old.is.link }
        ensures is { OnOk result (self.new.is ≡ ticked_at side self.old.is) }
        ensures ticked { IfOk result (λ ticked. ticked ≡ link_told_by side self.old.is.link) }
        ensures was { self.new.was ≡ self.old.was }
        ensures err { OnErr result (self.new ≡ still self.old.was) }
        // What the tick means says what became of the side; the other one stays as it is.
        ensures told { IfOk result (λ ticked. TellsSide (kept_of side self.old.is)
            (kept_of side self.new.is) (kept_of (other_of side) self.old.is) (up_of_tick ticked)) }
        ensures other { OnOk result
            (side_of (other_of side) self.new.is ≡ side_of (other_of side) self.old.is) }
    {
        match steps::tick(&mut self.parts, side) {
            Ok(ticked) => Ok(ticked),
            Err(_) => {
                self.parts.undo();
                Err(NoMemory)
            }
        }
    }

    /// A side is called: where it is up, it says what the call asks for, as that an endpoint opened
    /// whose name it has noted. Who sends has met a peer, so its side is up; the sender is published
    /// first where it isn't yet. Or the side boots again. A refusal undoes the event.
    pub fn call(&mut self, side: Side, call: SideCall<'_>) -> Result<(), NoMemory>
        requires may { MayCall call side self.old.is }
        requires numbers { HasNumbersFor call side self.old.is }
        ensures is { OnOk result (self.new.is ≡ makes call.entry side self.old.is) }
        ensures was { self.new.was ≡ self.old.was }
        ensures err { OnErr result (self.new ≡ still self.old.was) }
        // A side that isn't up says nothing, and needs no memory for it.
        ensures free { SaysNothing call.entry side self.old.is → IsOk result }
        // What the side says, and what becomes of its notes; the other side stays as it is.
        ensures told { OnOk result (TellsCall call.entry side self.old.is self.new.is) }
        ensures other { OnOk result
            (side_of (other_of side) self.new.is ≡ side_of (other_of side) self.old.is) }
    {
        match steps::call(&mut self.parts, side, call) {
            Ok(()) => Ok(()),
            Err(_) => {
                self.parts.undo();
                Err(NoMemory)
            }
        }
    }

    /// The packet at place k from a side is lost, in an event that has lost or exchanged none from
    /// that side yet. It takes no memory.
    pub fn lose(&mut self, from: Side, k: usize)
        requires within { k < length (flight_from from self.old.is.link) }
        requires grown { HasOnlyGrownAt from self.old }
        ensures is { self.new.is ≡ lost_from from k self.old.is }
        ensures was { self.new.was ≡ self.old.was }
    {
        self.parts.lose(from, k);
    }

    /// The packets at places k and n from a side are exchanged, in an event that has lost or
    /// exchanged none from that side yet. It takes no memory.
    pub fn swap(&mut self, from: Side, k: usize, n: usize)
        requires first { k < length (flight_from from self.old.is.link) }
        requires second { n < length (flight_from from self.old.is.link) }
        requires grown { HasOnlyGrownAt from self.old }
        ensures is { self.new.is ≡ swapped_from from k n self.old.is }
        ensures was { self.new.was ≡ self.old.was }
    {
        self.parts.swap(from, k, n);
    }

    /// How many packets from a side are in flight.
    pub fn in_flight(&self, from: Side) -> usize
        ensures { result ≡ length (flight_from from self.now.is.link) }
    {
        self.parts.in_flight(from)
    }

    /// The session of a side.
    pub fn mine(&self, side: Side) -> Session
        ensures value { result ≡ (half_of side self.now.is.link).end.talk.mine }
        ensures kept { result ≡ (kept_of side self.now.is).now.session }
    {
        self.parts.mine(side)
    }

    /// The session of a side's peer, `None` exactly while it is connecting.
    pub fn peer(&self, side: Side) -> Option<Session>
        ensures value { result ≡ peer_of (half_of side self.now.is.link).end }
        ensures kept { result ≡ (kept_of side self.now.is).now.peer }
    {
        self.parts.peer(side)
    }

    /// How many numbers a side has left to give to frames.
    pub fn frames_left(&self, side: Side) -> u32
        ensures { result ≡ left_of (half_of side self.now.is.link).end.tx }
    {
        self.parts.frames_left(side)
    }

    /// The number of addresses that a side has given to its endpoints, live or closing.
    pub fn used(&self, side: Side) -> u32
        ensures { result ≡ used_in (tables_of side self.now.is).own }
    {
        self.parts.used(side)
    }

    /// Whether a side has met an endpoint of the other side, and wasn't told that it is gone.
    pub fn is_met(&self, side: Side, inc: Inc) -> bool
        ensures { result ≡ is_live inc (map heard_as (kept_of side self.now.is).now.given) }
    {
        self.parts.is_met(side, inc)
    }

    /// Whether a side has published an endpoint in its session, and not unpublished it since.
    pub fn is_published(&self, side: Side, inc: Inc) -> bool
        ensures { result ≡ is_live inc (kept_of side self.now.is).now.said }
    {
        self.parts.is_published(side, inc)
    }

    /// Whether it is sure, with no list of the endpoints that a side unpublished, that it may
    /// publish one: an address is left, and the endpoint is published already, or newer than each
    /// that the side unpublished in its session.
    pub fn may_publish(&self, side: Side, inc: Inc, name: &Name) -> bool
        ensures value { result ≡ can_publish (side_of side self.now.is) inc }
        ensures may { result ≡ true → MayPublish (side_of side self.now.is) inc name.now }
    {
        // The bytes of a name spell one.
        name.bytes();
        let number = number_of(inc);
        if self.parts.used(side) == u32::MAX {
            return false;
        }
        self.is_published(side, inc) || self.parts.newest_unpublished(side) < number
    }

    /// Whether it is sure that a side may send a signal from an endpoint to a peer: it may publish
    /// the endpoint, and has met the peer.
    pub fn may_send(&self, side: Side, from: Inc, name: &Name, to: Inc, signal: &Signal) -> bool
        ensures value { result ≡ (can_publish (side_of side self.now.is) from
            && is_live to (map heard_as (kept_of side self.now.is).now.given)) }
        ensures may { result ≡ true
            → MaySend (side_of side self.now.is) from name.now to signal.now }
    {
        // A signal's number and data are within bounds.
        let _number = signal.number();
        let _data = signal.bytes();
        self.may_publish(side, from, name) && self.is_met(side, to)
    }

    /// Whether nothing is in flight, and neither end of the link has work. Then both sides are up
    /// with each other, and all that was said in their sessions was given.
    pub fn quiet(&self) -> bool
        ensures quiet { result ≡ is_quiet self.now.is.link }
        ensures complete { result ≡ true
            → IsQuiet self.now.is.first.kept self.now.is.second.kept }
    {
        self.parts.is_quiet()
    }

    /// What holds of the trunk at every moment, whatever happened. It does nothing.
    pub fn promises(&self)
        ensures keeps { KeepsTrunk self.now.is }
        ensures kept { KeepsTrunk self.now.was }
        ensures records { IsTrunk self.now.is.first.kept self.now.is.second.kept }
        ensures promises { TrunkPromises self.now.is }
        ensures promised { TrunkPromises self.now.was }
    {
        let _ = &self.parts;
    }

    /// What is now stays, and the next event begins. It takes no memory.
    pub fn keep(&mut self)
        ensures is { self.new ≡ still self.old.is }
        // No packet was lost or exchanged yet.
        ensures grown { (from : AnySide) → HasOnlyGrownAt from self.new }
    {
        self.parts.keep();
    }

    /// What was is again, and the next event begins. It takes no memory.
    pub fn undo(&mut self)
        ensures was { self.new ≡ still self.old.was }
        // No packet was lost or exchanged yet.
        ensures grown { (from : AnySide) → HasOnlyGrownAt from self.new }
    {
        self.parts.undo();
    }
}
