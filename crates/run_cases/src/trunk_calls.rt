//! Calls of the trunks of two links between three nodes, each tried only where its conditions hold.
ghost use Rattle.std.specs.Prelude.{◌≡◌, ◌<◌, [], true};
ghost use Rattle.linx_base.specs.Numbers.{boot_of};
ghost use Rattle.linx_base.specs.declared.identity.Side.TheVariants as AnySide;
ghost use Rattle.carrier.specs.Events.{HasNextAt, half_of};
ghost use Rattle.trunk.specs.Events.{HasNumbersLeft, kept_of};
ghost use Rattle.run_trunks.specs.States.{HasLink, trunks_of};

use carrier::TickedSide;
use linx_base::{Inc, LinkDecl, LinkNo, Name, NodeNo, Session, Side};
use run_trunks::RunTrunks;
use std::alloc::Global;
use std::test::Fail;
use trunk::TrunkUp;

/// The link between nodes 1 and 2, and the one between nodes 2 and 3.
const LINKS: [LinkNo; 2] = [LinkNo(1), LinkNo(2)];

/// A link between a node and the next one.
fn link_from(node: u32) -> LinkDecl
    requires { node < 1000 }
    ensures window { result.window ≡ 4 }
    ensures piece { result.piece ≡ 64 }
{
    LinkDecl {
        first: NodeNo(node),
        second: NodeNo(node + 1),
        window: 4,
        piece: 64,
    }
}

pub fn two_links(alloc: Global) -> Result<RunTrunks, Fail> {
    let trunks = RunTrunks::new(alloc, &[link_from(1), link_from(2)])?;
    Ok(trunks)
}

/// Whether there is a link of this number.
fn has_link(trunks: &RunTrunks, link: LinkNo) -> bool
    ensures { result ≡ true → HasLink trunks.now link }
{
    0 < link.0 && link.0 as usize <= trunks.count()
}

/// Whether a side has numbers left for what it says in an event.
fn has_numbers(trunks: &RunTrunks, link: LinkNo, side: Side) -> bool
    requires of_run { HasLink trunks.now link }
    ensures { result ≡ true → HasNumbersLeft side (trunks_of trunks.now.is link.0) }
{
    trunks.frames_left(link, side) >= 4_096
}

/// Whether a session of the same boot may come after a side's present one.
fn has_session(trunks: &RunTrunks, link: LinkNo, side: Side) -> bool
    requires of_run { HasLink trunks.now link }
    ensures { result ≡ true → HasNextAt side (trunks_of trunks.now.is link.0).link }
{
    trunks.session(link, side).count() < u32::MAX
}

/// A side is ticked.
pub fn tick(trunks: &mut RunTrunks, link: LinkNo, side: Side) -> Result<TickedSide, Fail> {
    if !has_link(trunks, link) {
        return Err(Fail::from("no such link"));
    }
    if !has_session(trunks, link, side) {
        return Err(Fail::from("no session follows"));
    }
    let ticked = trunks.tick(link, side)?;
    Ok(ticked)
}

/// A side asks for a name.
pub fn ask(trunks: &mut RunTrunks, link: LinkNo, side: Side, name: &Name) -> Result<(), Fail> {
    if !has_link(trunks, link) {
        return Err(Fail::from("no such link"));
    }
    if !has_numbers(trunks, link, side) {
        return Err(Fail::from("no numbers are left"));
    }
    trunks.asked(link, side, name)?;
    Ok(())
}

/// The packet at place 0 from a side comes, in an event of its own.
pub fn deliver(trunks: &mut RunTrunks, link: LinkNo, from: Side) -> Result<TrunkUp, Fail> {
    trunks.keep_all();
    if !has_link(trunks, link) || trunks.in_flight(link, from) == 0 {
        return Err(Fail::from("no such packet"));
    }
    let to = from.other();
    if !has_numbers(trunks, link, to) || !has_session(trunks, link, to) {
        return Err(Fail::from("no numbers are left"));
    }
    let up = trunks.deliver(link, from, false)?;
    Ok(up)
}

/// A side that has said nothing yet publishes an endpoint.
fn publish(
    trunks: &mut RunTrunks,
    link: LinkNo,
    side: Side,
    inc: Inc,
    name: &Name,
) -> Result<(), Fail>
    requires of_run { HasLink trunks.old link }
    requires silent { (kept_of side (trunks_of trunks.old.is link.0)).now.said ≡ [] }
{
    let _number = inc.0;
    let _bytes = name.bytes();
    if trunks.used(link, side) == u32::MAX {
        return Err(Fail::from("no address"));
    }
    if !has_numbers(trunks, link, side) {
        return Err(Fail::from("no numbers are left"));
    }
    trunks.published(link, side, inc, name)?;
    Ok(())
}

/// The packet at place 0 from the first side comes, in an event of its own. Where the second side
/// goes up by it, that publishes an endpoint.
pub fn deliver_to_open(
    trunks: &mut RunTrunks,
    link: LinkNo,
    inc: Inc,
    name: &Name,
) -> Result<(), Fail> {
    trunks.keep_all();
    if !has_link(trunks, link) || trunks.in_flight(link, Side::First) == 0 {
        return Err(Fail::from("no such packet"));
    }
    let _count = trunks.count();
    trunks.promises(link);
    let to = Side::Second;
    if !has_numbers(trunks, link, to) || !has_session(trunks, link, to) {
        return Err(Fail::from("no numbers are left"));
    }
    match trunks.deliver(link, Side::First, false)? {
        TrunkUp::WentUp { .. } => publish(trunks, link, Side::Second, inc, name),
        _ => Ok(()),
    }
}

/// A side from which a packet is in flight, if there is one.
pub fn sender(trunks: &RunTrunks, link: LinkNo) -> Option<Side> {
    if !has_link(trunks, link) {
        return None;
    }
    if trunks.in_flight(link, Side::First) > 0 {
        Some(Side::First)
    } else if trunks.in_flight(link, Side::Second) > 0 {
        Some(Side::Second)
    } else {
        None
    }
}

/// Whether both sides of a link are in an earlier boot.
fn is_earlier(trunks: &RunTrunks, link: LinkNo, boot: u32) -> bool
    requires of_run { HasLink trunks.now link }
    ensures first { result ≡ true → boot_of
        (half_of AnySide.First (trunks_of trunks.now.is link.0).link).end.talk.mine < boot }
    ensures second { result ≡ true → boot_of
        (half_of AnySide.Second (trunks_of trunks.now.is link.0).link).end.talk.mine < boot }
{
    let first = trunks.session(link, Side::First);
    let second = trunks.session(link, Side::Second);
    first.boot() < boot && second.boot() < boot
}

/// A node boots again, where all sides of both links are in an earlier boot.
#[tactic(auto, using(crate::proofs::Boots::earlier_both))]
pub fn restart(trunks: &mut RunTrunks, node: NodeNo, boot: u32) -> Result<(), Fail> {
    let [near, far] = LINKS;
    if trunks.count() != 2 {
        return Err(Fail::from("two links"));
    }
    if !is_earlier(trunks, near, boot) || !is_earlier(trunks, far, boot) {
        return Err(Fail::from("an earlier boot"));
    }
    trunks.restarted(node, boot)?;
    Ok(())
}

/// The session of a side, and its peer.
pub fn talk(
    trunks: &RunTrunks,
    link: LinkNo,
    side: Side,
) -> Result<(Session, Option<Session>), Fail> {
    if !has_link(trunks, link) {
        return Err(Fail::from("no such link"));
    }
    Ok((trunks.session(link, side), trunks.peer(link, side)))
}

pub fn is_quiet(trunks: &RunTrunks, link: LinkNo) -> bool {
    has_link(trunks, link) && trunks.is_quiet(link)
}

pub fn is_up(trunks: &RunTrunks, link: LinkNo, side: Side) -> bool {
    has_link(trunks, link) && trunks.is_up(link, side)
}

/// How many addresses a side has given, or none of no link.
pub fn used(trunks: &RunTrunks, link: LinkNo, side: Side) -> Option<u32> {
    if has_link(trunks, link) {
        Some(trunks.used(link, side))
    } else {
        None
    }
}
