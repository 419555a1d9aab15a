//! The effects of what happens at a node, in order, by what is pending there.
ghost use Rattle.std.specs.Prelude.{ℕ, ◌≡◌, ◌<◌, List, length, ◌++◌, map, IfOk, OnOk};
ghost use Rattle.linx_base.specs.Content.{data_limit};
ghost use Rattle.linx_base.specs.Peers.{same_peer};
ghost use Rattle.linx_base.specs.declared.identity.Peer.TheVariants.{Here};
ghost use Rattle.linx_base.specs.declared.name.Path.TheVariants.{Local, Over};
ghost use Rattle.linx_base.specs.declared.signal.Reason.TheVariants.{Closed};
ghost use Rattle.journal.specs.Effects.{opening, closing, closings, found, founds, held_elsewhere};
ghost use Rattle.journal.specs.Effects.{losing, meeting, notice, notices, parting};
ghost use Rattle.attach_table.specs.Attaches.{HaveRoom};

use crate::roster::Roster;
use attach_table::{AttachTable, AttachesUnder};
use hunt_table::HuntTable;
use journal::{Effect, Effects};
use linx_base::{
    Inc, LinkNo, Name, NoMemory, NodeNo, Path, Peer, PendingAttach, PendingHunt, Reason, Session,
    TryCopy,
};
use std::alloc::Global;

/// The answer to a hunt that found a peer.
fn found(peer: Peer, hunt: &PendingHunt) -> Result<Effect, NoMemory>
    ensures { IfOk result (λ effect. effect ≡ found peer hunt.now) }
{
    let note = hunt.signal.note()?;
    Ok(Effect::Found(hunt.at, peer, note, hunt.number))
}

/// The notification of an attach.
fn notice(reason: Reason, attach: &PendingAttach) -> Result<Effect, NoMemory>
    requires { length attach.now.signal.bytes < data_limit }
    ensures { IfOk result (λ effect. effect ≡ notice reason attach.now) }
{
    let note = attach.signal.with_reason(reason)?.note()?;
    Ok(Effect::Notified(attach.at, attach.peer, note, attach.reference, reason))
}

/// Adds what a found peer brings to the hunts for its path.
fn add_founds(
    effects: &mut Effects,
    hunts: &HuntTable,
    path: &Path,
    peer: Peer,
) -> Result<(), NoMemory>
    ensures { OnOk result (effects.new ≡ effects.old ++ founds path.now peer hunts.now) }
{
    let mut left = hunts.hunts_for(path);
    while let Some(hunt) = left.next_entry() {
        effects.push(found(peer, hunt)?)?;
    }
    Ok(())
}

/// Adds the notifications of the attaches to an endpoint that another one holds.
fn add_notices_elsewhere(
    effects: &mut Effects,
    attaches: &AttachTable,
    inc: Inc,
) -> Result<(), NoMemory>
    ensures { OnOk result (effects.new ≡ effects.old
        ++ notices Closed (same_peer (Here inc)) (held_elsewhere inc attaches.now)) }
{
    let mut left = attaches.attaches_to(Peer::Here(inc));
    while let Some(attach) = left.next_entry() {
        if inc.0 != attach.at.0 {
            effects.push(notice(Reason::Closed, attach)?)?;
        }
    }
    Ok(())
}

/// Adds the notifications of attaches.
fn add_notices(
    effects: &mut Effects,
    reason: Reason,
    mut left: AttachesUnder<'_>,
) -> Result<(), NoMemory>
    requires { HaveRoom left }
    ensures { OnOk result (effects.new ≡ effects.old ++ map (notice reason) left.entry) }
{
    while let Some(attach) = left.next_entry() {
        effects.push(notice(reason, attach)?)?;
    }
    Ok(())
}

/// The effects of an opening, whose name makes this path.
pub(crate) fn opening(
    alloc: Global,
    inc: Inc,
    path: &Path,
    hunts: &HuntTable,
) -> Result<Effects, NoMemory>
    ensures { IfOk result (λ effects. (name : List ℕ) → path.now ≡ Local name
        → effects ≡ opening inc name hunts.now) }
{
    let mut effects = Effects::one(alloc, Effect::Opened(inc))?;
    add_founds(&mut effects, hunts, path, Peer::Here(inc))?;
    Ok(effects)
}

/// The effects of a closing.
pub(crate) fn closing(alloc: Global, inc: Inc, attaches: &AttachTable) -> Result<Effects, NoMemory>
    ensures { IfOk result (λ effects. effects ≡ closing inc attaches.now) }
{
    let mut effects = Effects::one(alloc, Effect::Closed(inc))?;
    add_notices_elsewhere(&mut effects, attaches, inc)?;
    Ok(effects)
}

/// The effects of closing all endpoints.
pub(crate) fn closings(alloc: Global, roster: &Roster) -> Result<Effects, NoMemory>
    ensures { IfOk result (λ effects. effects ≡ closings (map (λ e. e.inc) roster.now.endpoints)) }
{
    let mut effects = Effects::new(alloc);
    let endpoints = roster.endpoints();
    for endpoint in endpoints {
        effects.push(Effect::Closed(endpoint.inc()))?;
    }
    Ok(effects)
}

/// The effects of meeting a peer, whose link and name make this path.
pub(crate) fn meeting(
    alloc: Global,
    node: NodeNo,
    peer: Peer,
    name: &Name,
    path: &Path,
    hunts: &HuntTable,
) -> Result<Effects, NoMemory>
    ensures { IfOk result (λ effects. (link : LinkNo) → path.now ≡ Over link name.now
        → effects ≡ meeting node link peer name.now hunts.now) }
{
    let mut effects = Effects::one(alloc, Effect::Met(node, peer, name.copy()?))?;
    add_founds(&mut effects, hunts, path, peer)?;
    Ok(effects)
}

/// The effects of parting from a peer.
pub(crate) fn parting(
    alloc: Global,
    node: NodeNo,
    peer: Peer,
    attaches: &AttachTable,
) -> Result<Effects, NoMemory>
    ensures { IfOk result (λ effects. effects ≡ parting node peer attaches.now) }
{
    let mut effects = Effects::one(alloc, Effect::Gone(node, peer))?;
    add_notices(&mut effects, Reason::Closed, attaches.attaches_to(peer))?;
    Ok(effects)
}

/// The effects of losing a session.
pub(crate) fn losing(
    alloc: Global,
    node: NodeNo,
    link: LinkNo,
    session: Session,
    attaches: &AttachTable,
) -> Result<Effects, NoMemory>
    ensures { IfOk result (λ effects. effects ≡ losing node link session attaches.now) }
{
    let mut effects = Effects::one(alloc, Effect::Down(node, link, session))?;
    let lost = attaches.attaches_within(link, session);
    add_notices(&mut effects, Reason::Lost, lost)?;
    Ok(effects)
}
