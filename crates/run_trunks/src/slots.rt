//! The trunks by the places of their links: what happens to one of them, or to those of a node,
//! and what a refusal leaves, which is what all were when the event began.
ghost use Rattle.std.specs.Prelude.{◌≡◌, ◌<◌, length, slice_set, IfOk, IsOk, OnErr, OnOk};
ghost use Rattle.linx_base.specs.Sides.{other_of};
ghost use Rattle.carrier.specs.Events.{HasNextAt, flight_from, handed_by, link_told_by};
ghost use Rattle.rlnh_end.specs.declared.heard.Heard.{Heard as AnyHeard};
ghost use Rattle.trunk.specs.Calls.{HasNumbersFor, MayCall, SaysNothing, makes};
ghost use Rattle.trunk.specs.Events.{IsReading, delivered, lost_from, swapped_from, ticked_at};
ghost use Rattle.trunk.specs.Events.{HasNumbersLeft, told_by};
ghost use Rattle.trunk.specs.Parts.{HasOnlyGrownAt};
ghost use Rattle.trunk_moves.specs.Packets.{place_of};
ghost use Rattle.run_trunks.specs.Changes.{AllGrant, at_place, each_does};
ghost use Rattle.run_trunks.specs.States.{is_of, trunk_at, was_of};

use crate::call::call_side_if;
use crate::links::side_on;
use carrier::TickedSide;
use linx_base::{LinkDecl, NoMemory, NodeNo, Side};
use trunk::{SideCall, Trunk, TrunkUp};

/// What is now stays.
pub(crate) fn keep_all(trunks: &mut [Trunk])
    ensures is { is_of trunks.new ≡ is_of trunks.old }
    ensures was { was_of trunks.new ≡ is_of trunks.old }
{
    for trunk in trunks.iter_mut() {
        trunk.keep();
    }
}

/// What was is again.
pub(crate) fn undo_all(trunks: &mut [Trunk])
    ensures is { is_of trunks.new ≡ was_of trunks.old }
    ensures was { was_of trunks.new ≡ was_of trunks.old }
{
    for trunk in trunks.iter_mut() {
        trunk.undo();
    }
}

/// A side of the link at a place is called.
pub(crate) fn call(
    trunks: &mut [Trunk],
    place: usize,
    side: Side,
    call: SideCall<'_>,
) -> Result<(), NoMemory>
    requires within { place < length trunks.old }
    requires may { MayCall call side (trunk_at (is_of trunks.old) place) }
    requires numbers { HasNumbersFor call side (trunk_at (is_of trunks.old) place) }
    ensures is { OnOk result
        (is_of trunks.new ≡ at_place place (makes call.entry side) (is_of trunks.old)) }
    ensures was { was_of trunks.new ≡ was_of trunks.old }
    ensures free { SaysNothing call.entry side (trunk_at (is_of trunks.old) place) → IsOk result }
    ensures err { OnErr result (is_of trunks.new ≡ was_of trunks.old) }
{
    match trunks[place].call(side, call) {
        Ok(()) => Ok(()),
        Err(_) => {
            undo_all(trunks);
            Err(NoMemory)
        }
    }
}

/// The side of each link that is on a node is called, up to the first refusal.
fn call_each(
    links: &[LinkDecl],
    trunks: &mut [Trunk],
    node: NodeNo,
    call: SideCall<'_>,
) -> Result<(), NoMemory>
    requires same { length trunks.old ≡ length links.now }
    requires may { AllGrant links.now node.0 (is_of trunks.old) (MayCall call) }
    requires numbers { AllGrant links.now node.0 (is_of trunks.old) (HasNumbersFor call) }
    ensures is { OnOk result (is_of trunks.new
        ≡ each_does links.now node.0 (makes call.entry) (is_of trunks.old)) }
    ensures was { was_of trunks.new ≡ was_of trunks.old }
    ensures free { AllGrant links.now node.0 (is_of trunks.old) (SaysNothing call.entry)
        → IsOk result }
{
    for (place, link) in links.iter().enumerate() {
        call_side_if(&mut trunks[place], side_on(link, node), call)?;
    }
    Ok(())
}

/// The side of each link that is on a node is called.
pub(crate) fn call_all(
    links: &[LinkDecl],
    trunks: &mut [Trunk],
    node: NodeNo,
    call: SideCall<'_>,
) -> Result<(), NoMemory>
    requires same { length trunks.old ≡ length links.now }
    requires may { AllGrant links.now node.0 (is_of trunks.old) (MayCall call) }
    requires numbers { AllGrant links.now node.0 (is_of trunks.old) (HasNumbersFor call) }
    ensures is { OnOk result (is_of trunks.new
        ≡ each_does links.now node.0 (makes call.entry) (is_of trunks.old)) }
    ensures was { was_of trunks.new ≡ was_of trunks.old }
    ensures free { AllGrant links.now node.0 (is_of trunks.old) (SaysNothing call.entry)
        → IsOk result }
    ensures err { OnErr result (is_of trunks.new ≡ was_of trunks.old) }
{
    match call_each(links, trunks, node, call) {
        Ok(()) => Ok(()),
        Err(_) => {
            undo_all(trunks);
            Err(NoMemory)
        }
    }
}

/// The packet at place 0 from a side of the link at a place comes to the other one.
pub(crate) fn deliver(
    trunks: &mut [Trunk],
    place: usize,
    from: Side,
    keep: bool,
) -> Result<TrunkUp, NoMemory>
    requires within { place < length trunks.old }
    requires flies { 0 < length (flight_from from (trunk_at (is_of trunks.old) place).link) }
    requires grown { HasOnlyGrownAt from (record {
      was = trunk_at (was_of trunks.old) place;
      is = trunk_at (is_of trunks.old) place;
    }) }
    requires counted { HasNextAt (other_of from) (trunk_at (is_of trunks.old) place).link }
    requires numbers { HasNumbersLeft (other_of from) (trunk_at (is_of trunks.old) place) }
    ensures is_read { OnOk result ((heard : AnyHeard)
        × IsReading (handed_by from 0 (trunk_at (is_of trunks.old) place).link) heard) }
    ensures is { OnOk result ((heard : AnyHeard)
        → IsReading (handed_by from 0 (trunk_at (is_of trunks.old) place).link) heard
        → is_of trunks.new ≡ at_place place (delivered from 0 keep heard) (is_of trunks.old)) }
    ensures up { IfOk result (λ up. (heard : AnyHeard)
        → IsReading (handed_by from 0 (trunk_at (is_of trunks.old) place).link) heard
        → up ≡ told_by from 0 heard (trunk_at (is_of trunks.old) place)) }
    ensures was { was_of trunks.new ≡ was_of trunks.old }
    ensures err { OnErr result (is_of trunks.new ≡ was_of trunks.old) }
{
    match trunks[place].deliver(from, 0, keep) {
        Ok(up) => Ok(up),
        Err(_) => {
            undo_all(trunks);
            Err(NoMemory)
        }
    }
}

/// A side of the link at a place is ticked.
pub(crate) fn tick(trunks: &mut [Trunk], place: usize, side: Side) -> Result<TickedSide, NoMemory>
    requires within { place < length trunks.old }
    requires counted { HasNextAt side (trunk_at (is_of trunks.old) place).link }
    ensures is { OnOk result
        (is_of trunks.new ≡ at_place place (ticked_at side) (is_of trunks.old)) }
    ensures ticked { IfOk result (λ ticked. ticked
        ≡ link_told_by side (trunk_at (is_of trunks.old) place).link) }
    ensures was { was_of trunks.new ≡ was_of trunks.old }
    ensures err { OnErr result (is_of trunks.new ≡ was_of trunks.old) }
{
    match trunks[place].tick(side) {
        Ok(ticked) => Ok(ticked),
        Err(_) => {
            undo_all(trunks);
            Err(NoMemory)
        }
    }
}

/// The packet at place 0 from a side of the link at a place is lost.
pub(crate) fn lose(trunks: &mut [Trunk], place: usize, from: Side)
    requires within { place < length trunks.old }
    requires flies { 0 < length (flight_from from (trunk_at (is_of trunks.old) place).link) }
    requires grown { HasOnlyGrownAt from (record {
      was = trunk_at (was_of trunks.old) place;
      is = trunk_at (is_of trunks.old) place;
    }) }
    ensures is { is_of trunks.new ≡ at_place place (lost_from from 0) (is_of trunks.old) }
    ensures was { was_of trunks.new ≡ was_of trunks.old }
{
    trunks[place].lose(from, 0);
}

/// The place of a packet that a swap names, or the last one of so many where there are fewer.
fn place_within(k: u8, count: usize) -> usize
    requires { 0 < count }
    ensures place { result ≡ place_of k count }
    ensures within { result < count }
{
    let named = usize::from(k);
    if named < count { named } else { count - 1 }
}

/// The packet at place 0 from a side of the link at a place is exchanged with the one at place k,
/// or with the last one where there are fewer.
pub(crate) fn swap(trunks: &mut [Trunk], place: usize, from: Side, k: u8)
    requires within { place < length trunks.old }
    requires flies { 0 < length (flight_from from (trunk_at (is_of trunks.old) place).link) }
    requires grown { HasOnlyGrownAt from (record {
      was = trunk_at (was_of trunks.old) place;
      is = trunk_at (is_of trunks.old) place;
    }) }
    ensures is { let count = length (flight_from from (trunk_at (is_of trunks.old) place).link) in
        is_of trunks.new
        ≡ at_place place (swapped_from from 0 (place_of k count)) (is_of trunks.old) }
    ensures was { was_of trunks.new ≡ was_of trunks.old }
{
    let trunk = &mut trunks[place];
    let count = trunk.in_flight(from);
    trunk.swap(from, 0, place_within(k, count));
}

/// What the trunk at a place is now stays.
pub(crate) fn keep(trunks: &mut [Trunk], place: usize)
    requires { place < length trunks.old }
    ensures is { is_of trunks.new ≡ is_of trunks.old }
    ensures was { was_of trunks.new
        ≡ slice_set (was_of trunks.old) place (trunk_at (is_of trunks.old) place) }
{
    trunks[place].keep();
}
