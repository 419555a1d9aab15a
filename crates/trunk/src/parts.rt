//! The parts of a trunk: both sides, and the link between them. After a refusal the event is to be
//! undone.
ghost use Rattle.std.specs.Prelude.{◌≡◌, ◌≤◌, ◌<◌, ◌*◌, length, IfOk, OnOk, IsSome, is_some};
ghost use Rattle.std.specs.List.{AllByRecursion};
ghost use Rattle.linx_base.specs.Both.{still};
ghost use Rattle.linx_base.specs.Frames.{IsMessage};
ghost use Rattle.linx_base.specs.Numbers.{boot_of};
ghost use Rattle.linx_base.specs.Sides.{other_of};
ghost use Rattle.link_addresses.specs.Meanings.{address_of, used_in};
ghost use Rattle.ethcm_window.specs.Sending.{left_of};
ghost use Rattle.ethcm_end.specs.Sound.{IsPiece};
ghost use Rattle.ethcm_end.specs.States.{peer_of};
ghost use Rattle.carrier.specs.Events.{flight_from, half_of, handed_by, is_quiet, HasNextAt};
ghost use Rattle.carrier.specs.Events.{delivered as links_delivered, ticked_at as links_ticked};
ghost use Rattle.carrier.specs.Events.{link_told_by, restarted_at as links_restarted};
ghost use Rattle.carrier.specs.Laws.{TellsRightly, handed_of};
ghost use Rattle.rlnh_end.specs.declared.heard.Heard.{Heard as AnyHeard};
ghost use Rattle.rlnh_end.specs.Hearing.{IsRead, hears};
ghost use Rattle.rlnh_end.specs.States.{addr_met};
ghost use Rattle.trunk.specs.Events.{new_trunk, side_of, tables_of, taken_out, told_up};
ghost use Rattle.trunk.specs.Events.{kept_of, lost_from, swapped_from, with_link};
ghost use Rattle.trunk.specs.Calls.{MaySay, saying_of};
ghost use Rattle.trunk.specs.Publishing.{newest_unpublished};
ghost use Rattle.trunk.specs.Parts.{HasOnlyGrownAt, offers_to, sends_at, side_begins, side_ends};
ghost use Rattle.trunk.specs.Parts.{side_hears, side_says, with_side};

use crate::call::SideCall;
use crate::half::Half;
use crate::up::TrunkUp;
use carrier::{Carrier, Handed, TickedSide};
use linx_base::{Inc, Message, NoMemory, Session, Side};
use std::alloc::Global;
use std::marker::Model;

/// The link of a trunk and what stands above it on both sides, with a way back. Contracts see the
/// trunk as it was when the event began, and as it is now.
#[derive(Drop)]
pub struct Parts {
    link: Carrier,
    first: Half,
    second: Half,
}

impl Model for Parts {
    ghost use Rattle.linx_base.specs.Both.{Both};
    ghost use Rattle.trunk.specs.Events.{TrunkState};

    ghost Value = { Both TrunkState };

    ghost view = { λ p. record {
      was = record { link = p.link.was; first = p.first.was; second = p.second.was };
      is = record { link = p.link.is; first = p.first.is; second = p.second.is };
    } };
}

/// All that the RLNH end of a side has to say goes over the link.
fn send_all(link: &mut Carrier, at: Side, half: &mut Half) -> Result<(), NoMemory>
    requires up { IsSome (peer_of (half_of at link.old.is).end) }
    requires messages { AllByRecursion IsMessage half.old.is.end.out }
    // A message has at most 1,024 pieces.
    requires left { length half.old.is.end.out * 1024 ≤ left_of (half_of at link.old.is).end.tx }
    ensures link { OnOk result (link.new.is ≡ offers_to at half.old.is.end.out link.old.is) }
    ensures link_was { link.new.was ≡ link.old.was }
    ensures half { OnOk result
        (half.new.is ≡ record half.old.is { end = taken_out half.old.is.end }) }
    ensures half_was { half.new.was ≡ half.old.was }
{
    'sending: while let Some(message) = half.next_out() {
        link.offer(at, message)?;
        half.pass();
    }
    Ok(())
}

impl Parts {
    /// A trunk before anything happened. It takes no memory.
    pub fn new(alloc: Global, window: u32, piece: u32) -> Parts
        requires window { 1 ≤ window }
        requires piece { IsPiece piece }
        ensures { result ≡ still (new_trunk window piece) }
    {
        Parts {
            link: Carrier::new(alloc, window, piece),
            first: Half::new(alloc),
            second: Half::new(alloc),
        }
    }

    /// The packet at place k from a side comes to the end of the link at the other one.
    pub fn bring(&mut self, from: Side, k: usize, keep: bool) -> Result<Handed, NoMemory>
        requires within { k < length (flight_from from self.old.is.link) }
        requires grown { HasOnlyGrownAt from self.old }
        requires counted { HasNextAt (other_of from) self.old.is.link }
        ensures is { let link = links_delivered from k keep self.old.is.link in
            OnOk result (self.new.is ≡ with_link self.old.is link) }
        ensures was { self.new.was ≡ self.old.was }
        ensures handed { IfOk result (λ handed. handed ≡ handed_by from k self.old.is.link) }
        ensures told { IfOk result (λ handed.
            TellsRightly (half_of (other_of from) self.old.is.link)
            (half_of (other_of from) self.new.is.link) (half_of from self.old.is.link) handed) }
    {
        let handed = self.link.deliver(from, k, keep)?;
        Ok(handed)
    }

    /// The end of the link at a side is ticked.
    pub fn beat(&mut self, side: Side) -> Result<TickedSide, NoMemory>
        requires counted { HasNextAt side self.old.is.link }
        ensures is { let link = links_ticked side self.old.is.link in
            OnOk result (self.new.is ≡ with_link self.old.is link) }
        ensures was { self.new.was ≡ self.old.was }
        ensures ticked { IfOk result (λ ticked. ticked ≡ link_told_by side self.old.is.link) }
        ensures told { IfOk result (λ ticked. TellsRightly (half_of side self.old.is.link)
            (half_of side self.new.is.link) (half_of (other_of side) self.old.is.link)
            (handed_of ticked)) }
    {
        let ticked = self.link.tick(side)?;
        Ok(ticked)
    }

    /// The end of the link at a side boots again.
    pub fn boot_again(&mut self, side: Side, boot: u32) -> Result<(), NoMemory>
        requires { boot_of (half_of side self.old.is.link).end.talk.mine < boot }
        ensures is { let link = links_restarted side boot self.old.is.link in
            OnOk result (self.new.is ≡ with_link self.old.is link) }
        ensures was { self.new.was ≡ self.old.was }
    {
        self.link.restart(side, boot)?;
        Ok(())
    }

    /// The packet at place k from a side is lost.
    pub fn lose(&mut self, from: Side, k: usize)
        requires within { k < length (flight_from from self.old.is.link) }
        requires grown { HasOnlyGrownAt from self.old }
        ensures is { self.new.is ≡ lost_from from k self.old.is }
        ensures was { self.new.was ≡ self.old.was }
    {
        self.link.lose(from, k);
    }

    /// The packets at places k and n from a side are exchanged.
    pub fn swap(&mut self, from: Side, k: usize, n: usize)
        requires first { k < length (flight_from from self.old.is.link) }
        requires second { n < length (flight_from from self.old.is.link) }
        requires grown { HasOnlyGrownAt from self.old }
        ensures is { self.new.is ≡ swapped_from from k n self.old.is }
        ensures was { self.new.was ≡ self.old.was }
    {
        self.link.swap(from, k, n);
    }

    /// How many packets from a side are in flight.
    pub fn in_flight(&self, from: Side) -> usize
        ensures { result ≡ length (flight_from from self.now.is.link) }
    {
        self.link.in_flight(from)
    }

    /// The session of a side's peer, `None` exactly while it is connecting.
    pub fn peer(&self, side: Side) -> Option<Session>
        ensures { result ≡ peer_of (half_of side self.now.is.link).end }
    {
        self.link.peer(side)
    }

    /// How many numbers a side has left to give to frames.
    pub fn frames_left(&self, side: Side) -> u32
        ensures { result ≡ left_of (half_of side self.now.is.link).end.tx }
    {
        self.link.frames_left(side)
    }

    /// Whether nothing is in flight, and neither end of the link has work.
    pub fn is_quiet(&self) -> bool
        ensures { result ≡ is_quiet self.now.is.link }
    {
        self.link.quiet()
    }

    /// The session of a side.
    pub fn mine(&self, side: Side) -> Session
        ensures { result ≡ (half_of side self.now.is.link).end.talk.mine }
    {
        self.link.mine(side)
    }

    /// What a side has to say goes over the link.
    pub fn send_out(&mut self, side: Side) -> Result<(), NoMemory>
        requires up { IsSome (peer_of (half_of side self.old.is.link).end) }
        requires messages { AllByRecursion IsMessage (side_of side self.old.is).end.out }
        requires left { length (side_of side self.old.is).end.out * 1024
            ≤ left_of (half_of side self.old.is.link).end.tx }
        ensures is { OnOk result (self.new.is ≡ sends_at side self.old.is) }
        ensures was { self.new.was ≡ self.old.was }
    {
        match side {
            Side::First => {
                send_all(&mut self.link, side, &mut self.first)?;
                Ok(())
            }
            Side::Second => {
                send_all(&mut self.link, side, &mut self.second)?;
                Ok(())
            }
        }
    }

    /// A side goes up with this session of the other side.
    pub fn begin(&mut self, side: Side, peer: Session) -> Result<(), NoMemory>
        ensures is { OnOk result (self.new.is
            ≡ with_side side self.old.is (side_begins (side_of side self.old.is) peer)) }
        ensures was { self.new.was ≡ self.old.was }
    {
        match side {
            Side::First => {
                self.first.begin(peer)?;
                Ok(())
            }
            Side::Second => {
                self.second.begin(peer)?;
                Ok(())
            }
        }
    }

    /// The session of a side is over, and this one begins.
    pub fn begin_session(&mut self, side: Side, next: Session) -> Result<(), NoMemory>
        ensures is { OnOk result (self.new.is
            ≡ with_side side self.old.is (side_ends (side_of side self.old.is) next)) }
        ensures was { self.new.was ≡ self.old.was }
    {
        match side {
            Side::First => {
                self.first.begin_session(next)?;
                Ok(())
            }
            Side::Second => {
                self.second.begin_session(next)?;
                Ok(())
            }
        }
    }

    /// A message comes to a side.
    pub fn hear(&mut self, side: Side, m: &Message) -> Result<TrunkUp, NoMemory>
        ensures is_read { OnOk result ((heard : AnyHeard) × IsRead m.now heard) }
        ensures is { OnOk result ((heard : AnyHeard) → IsRead m.now heard → self.new.is
            ≡ with_side side self.old.is (side_hears (side_of side self.old.is) heard)) }
        ensures up { IfOk result (λ up. (heard : AnyHeard) → IsRead m.now heard
            → up ≡ told_up (hears (tables_of side self.old.is) heard).up) }
        ensures was { self.new.was ≡ self.old.was }
    {
        match side {
            Side::First => {
                let up = self.first.hear(m)?;
                Ok(up)
            }
            Side::Second => {
                let up = self.second.hear(m)?;
                Ok(up)
            }
        }
    }

    /// A side says what a call asks for.
    pub fn say(&mut self, side: Side, call: SideCall<'_>) -> Result<(), NoMemory>
        requires may { MaySay call (tables_of side self.old.is) }
        ensures is { let made = saying_of call.entry (tables_of side self.old.is) in
            OnOk result (self.new.is
            ≡ with_side side self.old.is (side_says (side_of side self.old.is) made)) }
        ensures was { self.new.was ≡ self.old.was }
    {
        match side {
            Side::First => {
                self.first.say(call)?;
                Ok(())
            }
            Side::Second => {
                self.second.say(call)?;
                Ok(())
            }
        }
    }

    /// A side above its link.
    fn half(&self, side: Side) -> &Half
        ensures { result.now.is ≡ side_of side self.now.is }
    {
        match side {
            Side::First => &self.first,
            Side::Second => &self.second,
        }
    }

    /// The number of addresses of a side that are live or closing.
    pub fn used(&self, side: Side) -> u32
        ensures { result ≡ used_in (tables_of side self.now.is).own }
    {
        self.half(side).used()
    }

    /// Whether a side has met an endpoint of the other side that isn't gone.
    pub fn is_met(&self, side: Side, inc: Inc) -> bool
        ensures { result ≡ is_some (addr_met (tables_of side self.now.is).met inc) }
    {
        self.half(side).is_met(inc)
    }

    /// Whether an endpoint of a side has an address.
    pub fn is_published(&self, side: Side, inc: Inc) -> bool
        ensures { result ≡ is_some (address_of (tables_of side self.now.is).own inc) }
    {
        self.half(side).is_published(inc)
    }

    /// The greatest number of an endpoint that a side unpublished in its session, 0 where it did
    /// none.
    pub fn newest_unpublished(&self, side: Side) -> u64
        ensures { result ≡ newest_unpublished (kept_of side self.now.is).now.said }
    {
        self.half(side).newest_unpublished()
    }

    /// Whether a side is up.
    pub fn is_up(&self, side: Side) -> bool
        ensures { result ≡ is_some (peer_of (half_of side self.now.is.link).end) }
    {
        self.peer(side).is_some()
    }

    /// What is now stays. It takes no memory.
    pub fn keep(&mut self)
        ensures { self.new ≡ still self.old.is }
    {
        self.link.keep();
        self.first.keep();
        self.second.keep();
    }

    /// What was is again. It takes no memory.
    pub fn undo(&mut self)
        ensures { self.new ≡ still self.old.was }
    {
        self.link.undo();
        self.first.undo();
        self.second.undo();
    }
}
