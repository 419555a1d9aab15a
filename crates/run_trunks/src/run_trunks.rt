//! The links of a run, each with its trunk: the calls of an event on one link, or on the links of a
//! node, and what keeps or undoes the event.
ghost use Rattle.std.specs.Prelude.{◌≡◌, ◌<◌, ◌-◌, length, map, is_some, IfOk, IsOk, OnErr, OnOk};
ghost use Rattle.linx_base.specs.Both.{still};
ghost use Rattle.linx_base.specs.Numbers.{boot_of};
ghost use Rattle.linx_base.specs.Sides.{other_of};
ghost use Rattle.link_addresses.specs.Meanings.{used_in};
ghost use Rattle.ethcm_end.specs.States.{peer_of};
ghost use Rattle.ethcm_window.specs.Sending.{left_of};
ghost use Rattle.carrier.specs.Events.{HasNextAt, flight_from, half_of, handed_by, is_quiet};
ghost use Rattle.carrier.specs.Events.{link_told_by};
ghost use Rattle.rlnh_end.specs.declared.heard.Heard.{Heard as AnyHeard};
ghost use Rattle.trunk.specs.Calls.{HasNumbersFor, MayCall, SaysNothing, makes};
ghost use Rattle.trunk.specs.Events.{IsReading, asked_at, closed_at, delivered, kept_of, lost_from};
ghost use Rattle.trunk.specs.Events.{new_trunk, opened_at, published_at, restarted_at, sent_at};
ghost use Rattle.trunk.specs.Events.{HasNumbersLeft, side_of, swapped_from, tables_of, ticked_at};
ghost use Rattle.trunk.specs.Events.{told_by};
ghost use Rattle.trunk.specs.Keeping.{KeepsTrunk};
ghost use Rattle.trunk.specs.Laws.{MayPublish, MaySend};
ghost use Rattle.trunk.specs.Parts.{HasOnlyGrownAt};
ghost use Rattle.trunk.specs.Promises.{TrunkPromises};
ghost use Rattle.trunk_record.specs.Trunks.{IsTrunk};
ghost use Rattle.link_laws.specs.Ends.{node_at};
ghost use Rattle.trunk_moves.specs.Packets.{place_of};
ghost use Rattle.trunk_moves.specs.Trunks.{side_on};
ghost use Rattle.run_trunks.specs.Calls.{IsDown};
ghost use Rattle.run_trunks.specs.Changes.{AllGrant, at_link, each_does};
ghost use Rattle.run_trunks.specs.States.{AllFit, HasLink, both_at, kept, kept_at, new_trunks};
ghost use Rattle.run_trunks.specs.States.{over, resting, trunks_of, undone};

use crate::{links, slots};
use carrier::TickedSide;
use linx_base::{Inc, LinkDecl, LinkNo, Name, NoMemory, NodeNo, Session, Side, Signal};
use std::alloc::Global;
use std::marker::Model;
use trunk::{SideCall, Trunk, TrunkUp};

/// The links of a run, each with its trunk, with a way back. An event is a keep or an undo of all
/// and the calls since the one before it. Contracts see the trunks as they were when the event
/// began, and as they are now. A call that is refused undoes the event, on all links. A session has
/// 2^32 - 1 numbers for frames, and a boot as many sessions: whoever calls has some left, as every
/// run of 200,000 steps has.
#[derive(Drop)]
pub struct RunTrunks {
    links: Vec<LinkDecl>,
    trunks: Vec<Trunk>,
}

impl Model for RunTrunks {
    ghost use Rattle.std.specs.Prelude.{◌≡◌, length};
    ghost use Rattle.run_trunks.specs.States.{TrunksState, is_of, was_of};

    ghost Value = { TrunksState };

    ghost view = { λ r. record {
      links = r.links.items;
      was = was_of r.trunks.items;
      is = is_of r.trunks.items;
    } };

    ghost invariant = { λ r. length r.trunks.items ≡ length r.links.items };
}

/// A new trunk for each link.
fn trunks_over(alloc: Global, links: &[LinkDecl]) -> Result<Vec<Trunk>, NoMemory>
    requires { AllFit links.now }
    ensures { IfOk result (λ trunks. trunks.items
        ≡ map (λ link. still (new_trunk link.window link.piece)) links.now) }
{
    let mut trunks = Vec::new(alloc);
    for link in links {
        trunks.push(Trunk::new(alloc, link.window, link.piece))?;
    }
    Ok(trunks)
}

/// The place of a link, from 0.
fn place_of(link: LinkNo) -> usize
    requires { 0 < link.0 }
    ensures { result ≡ link.0 - 1 }
{
    (link.0 - 1) as usize
}

impl RunTrunks {
    /// New trunks of these links, whose windows are at least one frame, and whose pieces have 64 to
    /// 8,192 bytes.
    pub fn new(alloc: Global, links: &[LinkDecl]) -> Result<RunTrunks, NoMemory>
        requires fit { AllFit links.now }
        ensures { IfOk result (λ trunks. trunks ≡ resting links.now (new_trunks links.now)) }
    {
        let trunks = trunks_over(alloc, links)?;
        let links = Vec::from_slice(alloc, links)?;
        Ok(RunTrunks { links, trunks })
    }

    /// A side of a link is called.
    fn call(&mut self, link: LinkNo, side: Side, call: SideCall<'_>) -> Result<(), NoMemory>
        requires of_run { HasLink self.old link }
        requires may { MayCall call side (trunks_of self.old.is link.0) }
        requires numbers { HasNumbersFor call side (trunks_of self.old.is link.0) }
        ensures is { OnOk result
            (self.new.is ≡ at_link link (makes call.entry side) self.old.is) }
        ensures was { self.new.was ≡ self.old.was }
        ensures links { self.new.links ≡ self.old.links }
        ensures err { OnErr result (self.new ≡ undone self.old) }
        ensures free { SaysNothing call.entry side (trunks_of self.old.is link.0) → IsOk result }
    {
        slots::call(&mut self.trunks, place_of(link), side, call)
    }

    /// The side of each link that is on a node is called.
    fn call_all(&mut self, node: NodeNo, call: SideCall<'_>) -> Result<(), NoMemory>
        requires may { AllGrant self.old.links node.0 self.old.is (MayCall call) }
        requires numbers { AllGrant self.old.links node.0 self.old.is (HasNumbersFor call) }
        ensures is { OnOk result
            (self.new.is ≡ each_does self.old.links node.0 (makes call.entry) self.old.is) }
        ensures was { self.new.was ≡ self.old.was }
        ensures links { self.new.links ≡ self.old.links }
        ensures err { OnErr result (self.new ≡ undone self.old) }
        ensures free { AllGrant self.old.links node.0 self.old.is (SaysNothing call.entry)
            → IsOk result }
    {
        slots::call_all(&self.links, &mut self.trunks, node, call)
    }

    /// An endpoint of a node opened: the side of each link that is on the node publishes it where
    /// its name is noted.
    pub fn opened(&mut self, node: NodeNo, inc: Inc, name: &Name) -> Result<(), NoMemory>
        requires may { AllGrant self.old.links node.0 self.old.is
            (λ side t. MayPublish (side_of side t) inc name.now) }
        requires numbers { AllGrant self.old.links node.0 self.old.is HasNumbersLeft }
        ensures is { OnOk result (self.new.is
            ≡ each_does self.old.links node.0 (λ side. opened_at side inc name.now) self.old.is) }
        ensures was { self.new.was ≡ self.old.was }
        ensures links { self.new.links ≡ self.old.links }
        ensures err { OnErr result (self.new ≡ undone self.old) }
        // Sides that aren't up say nothing, and need no memory for it.
        ensures free { AllGrant self.old.links node.0 self.old.is IsDown → IsOk result }
    {
        self.call_all(node, SideCall::Opened(inc, name))
    }

    /// An endpoint of a node closed: the side of each link that is on the node says so where it is
    /// published.
    pub fn closed(&mut self, node: NodeNo, inc: Inc) -> Result<(), NoMemory>
        requires numbers { AllGrant self.old.links node.0 self.old.is HasNumbersLeft }
        ensures is { OnOk result (self.new.is
            ≡ each_does self.old.links node.0 (λ side. closed_at side inc) self.old.is) }
        ensures was { self.new.was ≡ self.old.was }
        ensures links { self.new.links ≡ self.old.links }
        ensures err { OnErr result (self.new ≡ undone self.old) }
        // Sides that aren't up say nothing, and need no memory for it.
        ensures free { AllGrant self.old.links node.0 self.old.is IsDown → IsOk result }
    {
        self.call_all(node, SideCall::Closed(inc))
    }

    /// A node boots again, later than any side of a link that is on it: so does each such side.
    pub fn restarted(&mut self, node: NodeNo, boot: u32) -> Result<(), NoMemory>
        requires may { AllGrant self.old.links node.0 self.old.is
            (λ side t. boot_of (half_of side t.link).end.talk.mine < boot) }
        ensures is { OnOk result (self.new.is
            ≡ each_does self.old.links node.0 (λ side. restarted_at side boot) self.old.is) }
        ensures was { self.new.was ≡ self.old.was }
        ensures links { self.new.links ≡ self.old.links }
        ensures err { OnErr result (self.new ≡ undone self.old) }
    {
        self.call_all(node, SideCall::Restarted(boot))
    }

    /// A side was asked for the name of an endpoint, and publishes it.
    pub fn published(
        &mut self,
        link: LinkNo,
        side: Side,
        inc: Inc,
        name: &Name,
    ) -> Result<(), NoMemory>
        requires of_run { HasLink self.old link }
        requires may { MayPublish (side_of side (trunks_of self.old.is link.0)) inc name.now }
        requires numbers { HasNumbersLeft side (trunks_of self.old.is link.0) }
        ensures is { OnOk result
            (self.new.is ≡ at_link link (published_at side inc name.now) self.old.is) }
        ensures was { self.new.was ≡ self.old.was }
        ensures links { self.new.links ≡ self.old.links }
        ensures err { OnErr result (self.new ≡ undone self.old) }
        // A side that isn't up says nothing, and needs no memory for it.
        ensures free { IsDown side (trunks_of self.old.is link.0) → IsOk result }
    {
        self.call(link, side, SideCall::Published(inc, name))
    }

    /// A side asks the other one for a name.
    pub fn asked(&mut self, link: LinkNo, side: Side, name: &Name) -> Result<(), NoMemory>
        requires of_run { HasLink self.old link }
        requires numbers { HasNumbersLeft side (trunks_of self.old.is link.0) }
        ensures is { OnOk result (self.new.is ≡ at_link link (asked_at side name.now) self.old.is) }
        ensures was { self.new.was ≡ self.old.was }
        ensures links { self.new.links ≡ self.old.links }
        ensures err { OnErr result (self.new ≡ undone self.old) }
        // A side that isn't up says nothing, and needs no memory for it.
        ensures free { IsDown side (trunks_of self.old.is link.0) → IsOk result }
    {
        self.call(link, side, SideCall::Asked(name))
    }

    /// A side sends a signal, from an endpoint of this name to a peer.
    pub fn sent(
        &mut self,
        link: LinkNo,
        side: Side,
        from: Inc,
        name: &Name,
        to: Inc,
        signal: &Signal,
    ) -> Result<(), NoMemory>
        requires of_run { HasLink self.old link }
        requires may { MaySend (side_of side (trunks_of self.old.is link.0)) from name.now to
            signal.now }
        requires numbers { HasNumbersLeft side (trunks_of self.old.is link.0) }
        ensures is { OnOk result (self.new.is
            ≡ at_link link (sent_at side from name.now to signal.now) self.old.is) }
        ensures was { self.new.was ≡ self.old.was }
        ensures links { self.new.links ≡ self.old.links }
        ensures err { OnErr result (self.new ≡ undone self.old) }
    {
        self.call(link, side, SideCall::Sent(from, name, to, signal))
    }

    /// The packet at place 0 from a side comes to the other one, and stays in its place or is gone,
    /// in an event that has lost or exchanged none from that side yet.
    pub fn deliver(&mut self, link: LinkNo, from: Side, keep: bool) -> Result<TrunkUp, NoMemory>
        requires of_run { HasLink self.old link }
        requires flies { 0 < length (flight_from from (trunks_of self.old.is link.0).link) }
        requires grown { HasOnlyGrownAt from (both_at self.old link) }
        requires counted { HasNextAt (other_of from) (trunks_of self.old.is link.0).link }
        requires numbers { HasNumbersLeft (other_of from) (trunks_of self.old.is link.0) }
        // What comes has a reading; the trunk and what is handed up are those of each.
        ensures is_read { OnOk result ((heard : AnyHeard)
            × IsReading (handed_by from 0 (trunks_of self.old.is link.0).link) heard) }
        ensures is { OnOk result ((heard : AnyHeard)
            → IsReading (handed_by from 0 (trunks_of self.old.is link.0).link) heard
            → self.new.is ≡ at_link link (delivered from 0 keep heard) self.old.is) }
        ensures up { IfOk result (λ up. (heard : AnyHeard)
            → IsReading (handed_by from 0 (trunks_of self.old.is link.0).link) heard
            → up ≡ told_by from 0 heard (trunks_of self.old.is link.0)) }
        ensures was { self.new.was ≡ self.old.was }
        ensures links { self.new.links ≡ self.old.links }
        ensures err { OnErr result (self.new ≡ undone self.old) }
    {
        slots::deliver(&mut self.trunks, place_of(link), from, keep)
    }

    /// A side is ticked.
    pub fn tick(&mut self, link: LinkNo, side: Side) -> Result<TickedSide, NoMemory>
        requires of_run { HasLink self.old link }
        requires counted { HasNextAt side (trunks_of self.old.is link.0).link }
        ensures is { OnOk result (self.new.is ≡ at_link link (ticked_at side) self.old.is) }
        ensures ticked { IfOk result (λ ticked. ticked
            ≡ link_told_by side (trunks_of self.old.is link.0).link) }
        ensures was { self.new.was ≡ self.old.was }
        ensures links { self.new.links ≡ self.old.links }
        ensures err { OnErr result (self.new ≡ undone self.old) }
    {
        slots::tick(&mut self.trunks, place_of(link), side)
    }

    /// The packet at place 0 from a side is lost, in an event that has lost or exchanged none from
    /// that side yet. It takes no memory.
    pub fn lose(&mut self, link: LinkNo, from: Side)
        requires of_run { HasLink self.old link }
        requires flies { 0 < length (flight_from from (trunks_of self.old.is link.0).link) }
        requires grown { HasOnlyGrownAt from (both_at self.old link) }
        ensures is { self.new.is ≡ at_link link (lost_from from 0) self.old.is }
        ensures was { self.new.was ≡ self.old.was }
        ensures links { self.new.links ≡ self.old.links }
    {
        slots::lose(&mut self.trunks, place_of(link), from);
    }

    /// The packet at place 0 from a side is exchanged with the one at place k, or with the last one
    /// where there are fewer, in an event that has lost or exchanged none from that side yet. It
    /// takes no memory.
    pub fn swap(&mut self, link: LinkNo, from: Side, k: u8)
        requires of_run { HasLink self.old link }
        requires flies { 0 < length (flight_from from (trunks_of self.old.is link.0).link) }
        requires grown { HasOnlyGrownAt from (both_at self.old link) }
        ensures is { let count = length (flight_from from (trunks_of self.old.is link.0).link) in
            self.new.is ≡ at_link link (swapped_from from 0 (place_of k count)) self.old.is }
        ensures was { self.new.was ≡ self.old.was }
        ensures links { self.new.links ≡ self.old.links }
    {
        slots::swap(&mut self.trunks, place_of(link), from, k);
    }

    /// What the trunk of a link is now stays. It takes no memory.
    pub fn keep(&mut self, link: LinkNo)
        requires of_run { HasLink self.old link }
        ensures { self.new ≡ kept_at link self.old }
    {
        slots::keep(&mut self.trunks, place_of(link));
    }

    /// What is now stays, on all links, and the next event begins. It takes no memory.
    pub fn keep_all(&mut self)
        ensures { self.new ≡ kept self.old }
    {
        slots::keep_all(&mut self.trunks);
    }

    /// What was is again, on all links, and the next event begins. It takes no memory.
    pub fn undo_all(&mut self)
        ensures { self.new ≡ undone self.old }
    {
        slots::undo_all(&mut self.trunks);
    }

    /// How many links there are; each has its trunk.
    pub fn count(&self) -> usize
        ensures links { result ≡ length self.now.links }
        ensures was { result ≡ length self.now.was }
        ensures is { result ≡ length self.now.is }
    {
        self.links.len()
    }

    /// The node at a side of a link.
    pub fn node_of(&self, link: LinkNo, side: Side) -> NodeNo
        requires of_run { HasLink self.now link }
        ensures { result.0 ≡ node_at (over self.now.links) link side }
    {
        links::node_of(&self.links[place_of(link)], side)
    }

    /// The side of a link that is on a node, if one is.
    pub fn side_on(&self, link: LinkNo, node: NodeNo) -> Option<Side>
        requires of_run { HasLink self.now link }
        ensures { result ≡ side_on (over self.now.links) node.0 link }
    {
        links::side_on(&self.links[place_of(link)], node)
    }

    /// The trunk of a link.
    fn trunk(&self, link: LinkNo) -> &Trunk
        requires of_run { HasLink self.now link }
        ensures is { result.now.is ≡ trunks_of self.now.is link.0 }
        ensures was { result.now.was ≡ trunks_of self.now.was link.0 }
    {
        &self.trunks[place_of(link)]
    }

    /// How many packets from a side are in flight.
    pub fn in_flight(&self, link: LinkNo, from: Side) -> usize
        requires of_run { HasLink self.now link }
        ensures { result ≡ length (flight_from from (trunks_of self.now.is link.0).link) }
    {
        self.trunk(link).in_flight(from)
    }

    /// The session of a side.
    pub fn session(&self, link: LinkNo, side: Side) -> Session
        requires of_run { HasLink self.now link }
        ensures value { result
            ≡ (half_of side (trunks_of self.now.is link.0).link).end.talk.mine }
        ensures kept { result ≡ (kept_of side (trunks_of self.now.is link.0)).now.session }
    {
        self.trunk(link).mine(side)
    }

    /// The session of a side's peer, `None` exactly while it is connecting.
    pub fn peer(&self, link: LinkNo, side: Side) -> Option<Session>
        requires of_run { HasLink self.now link }
        ensures value { result
            ≡ peer_of (half_of side (trunks_of self.now.is link.0).link).end }
        ensures kept { result ≡ (kept_of side (trunks_of self.now.is link.0)).now.peer }
    {
        self.trunk(link).peer(side)
    }

    /// Whether a side is up with a peer.
    pub fn is_up(&self, link: LinkNo, side: Side) -> bool
        requires of_run { HasLink self.now link }
        ensures { result ≡ is_some (kept_of side (trunks_of self.now.is link.0)).now.peer }
    {
        self.peer(link, side).is_some()
    }

    /// The number of addresses that a side has given to its endpoints, live or closing.
    pub fn used(&self, link: LinkNo, side: Side) -> u32
        requires of_run { HasLink self.now link }
        ensures { result ≡ used_in (tables_of side (trunks_of self.now.is link.0)).own }
    {
        self.trunk(link).used(side)
    }

    /// How many numbers are left to a side in its session.
    pub fn frames_left(&self, link: LinkNo, side: Side) -> u32
        requires of_run { HasLink self.now link }
        ensures { result ≡ left_of (half_of side (trunks_of self.now.is link.0).link).end.tx }
    {
        self.trunk(link).frames_left(side)
    }

    /// Whether nothing of a link is in flight, and neither of its ends has work.
    pub fn is_quiet(&self, link: LinkNo) -> bool
        requires of_run { HasLink self.now link }
        ensures { result ≡ is_quiet (trunks_of self.now.is link.0).link }
    {
        self.trunk(link).quiet()
    }

    /// What holds of the trunk of a link at every moment, whatever happened. It does nothing.
    pub fn promises(&self, link: LinkNo)
        requires of_run { HasLink self.now link }
        ensures keeps { KeepsTrunk (trunks_of self.now.is link.0) }
        ensures kept { KeepsTrunk (trunks_of self.now.was link.0) }
        ensures records { IsTrunk (trunks_of self.now.is link.0).first.kept
            (trunks_of self.now.is link.0).second.kept }
        ensures promises { TrunkPromises (trunks_of self.now.is link.0) }
    {
        self.trunk(link).promises();
    }
}
