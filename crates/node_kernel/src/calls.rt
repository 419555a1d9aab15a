//! What single calls do at the roster, the hunts and the attaches of a node.
ghost use Rattle.std.specs.Prelude.{◌≡◌, ◌<◌, [], ◌∷◌, ◌++◌, length, IfOk, IfErr, OnOk};
ghost use Rattle.linx_base.specs.Content.{data_limit};
ghost use Rattle.linx_base.specs.declared.identity.Peer.TheVariants.{Here};
ghost use Rattle.linx_base.specs.declared.name.Path.TheVariants.{Local, Over};
ghost use Rattle.linx_base.specs.declared.signal.Reason.TheVariants.{Dead};
ghost use Rattle.journal.specs.declared.effect.Effect.TheVariants.{Arrived, Found};
ghost use Rattle.journal.specs.Effects.{arrivals_of, notice};
ghost use Rattle.node_kernel.specs.Nodes.{is_open, put_all};
ghost use Rattle.node_kernel.specs.Calls.{IsSentAs};

use crate::answers::Sent;
use crate::roster::Roster;
use attach_table::AttachTable;
use hunt_table::HuntTable;
use journal::{Effect, Effects};
use linx_base::{
    AttRef, Inc, Item, ItemAt, Kind, LinkNo, Name, NoMemory, Path, Peer, PendingAttach,
    PendingHunt, Reason, Signal, TryCopy,
};
use std::alloc::Global;

/// The path of a name on the own node. It shares the bytes.
pub(crate) fn local_path(name: &Name) -> Result<Path, NoMemory>
    ensures { IfOk result (λ path. path ≡ Local name.now) }
{
    Ok(Path::Local(name.copy()?))
}

/// The path of a name behind a link. It shares the bytes.
pub(crate) fn path_over(link: LinkNo, name: &Name) -> Result<Path, NoMemory>
    ensures { IfOk result (λ path. path ≡ Over link name.now) }
{
    Ok(Path::Over {
        link,
        name: name.copy()?,
    })
}

/// A signal goes to an endpoint of the own node.
pub(crate) fn send_here(
    roster: &mut Roster,
    from: Inc,
    to: Inc,
    signal: Signal,
    step: u64,
) -> Result<Sent, (NoMemory, Signal)>
    ensures sent { IfOk result (IsSentAs (is_open roster.old.endpoints to) (Here to) signal) }
    ensures ok { OnOk result (roster.new ≡ record roster.old {
      endpoints = put_all step (arrivals_of from signal (is_open roster.old.endpoints to)
          (Here to)) roster.old.endpoints;
    }) }
    ensures err { IfErr result (λ back. (back.1 ≡ signal) × (roster.new ≡ roster.old)) }
{
    let item = Item {
        signal,
        from: Peer::Here(from),
        kind: Kind::Plain,
        pos: ItemAt { step, place: 1 },
    };
    match roster.deliver(to, item) {
        Ok(true) => Ok(Sent::Queued),
        Ok(false) => Ok(Sent::Dead),
        Err(item) => Err((NoMemory, item.signal)),
    }
}

/// What was made of a signal is brought to its endpoint. A refusal gives the signal back.
fn brought(
    roster: &mut Roster,
    made: Result<Effects, NoMemory>,
    signal: Signal,
    step: u64,
) -> Result<Effects, (NoMemory, Signal)>
    ensures effects { IfOk result (λ effects. made ≡ Ok effects) }
    ensures ok { IfOk result (λ effects. roster.new ≡ record roster.old
        { endpoints = put_all step effects roster.old.endpoints }) }
    ensures err { IfErr result (λ back. (back.1 ≡ signal) × (roster.new ≡ roster.old)) }
{
    let effects = match made {
        Ok(effects) => effects,
        Err(refusal) => return Err((refusal, signal)),
    };
    match roster.bring_all(effects.as_slice(), step) {
        Ok(()) => Ok(effects),
        Err(refusal) => Err((refusal, signal)),
    }
}

/// The arrival of a signal.
fn arrival(alloc: Global, at: Inc, from: Peer, signal: &Signal) -> Result<Effects, NoMemory>
    ensures { IfOk result (λ effects. effects ≡ Arrived at from signal.now ∷ []) }
{
    let note = signal.note()?;
    Effects::one(alloc, Effect::Arrived(at, from, note))
}

/// A signal arrives at an endpoint.
pub(crate) fn arrive(
    roster: &mut Roster,
    at: Inc,
    from: Peer,
    signal: Signal,
    step: u64,
) -> Result<Effects, (NoMemory, Signal)>
    ensures effects { IfOk result (λ effects. effects ≡ Arrived at from signal ∷ []) }
    ensures ok { OnOk result (roster.new ≡ record roster.old
        { endpoints = put_all step (Arrived at from signal ∷ []) roster.old.endpoints }) }
    ensures err { IfErr result (λ back. (back.1 ≡ signal) × (roster.new ≡ roster.old)) }
{
    let made = arrival(roster.allocator(), at, from, &signal);
    brought(roster, made, signal, step)
}

/// What a hunt that found a peer at once brings.
fn found_at_once(
    alloc: Global,
    at: Inc,
    peer: Peer,
    signal: &Signal,
    number: u64,
) -> Result<Effects, NoMemory>
    ensures { IfOk result (λ effects. effects ≡ Found at peer signal.now number ∷ []) }
{
    let note = signal.note()?;
    Effects::one(alloc, Effect::Found(at, peer, note, number))
}

/// A hunt is answered at once.
pub(crate) fn answer(
    roster: &mut Roster,
    at: Inc,
    peer: Peer,
    signal: Signal,
    number: u64,
) -> Result<Effects, (NoMemory, Signal)>
    ensures effects { IfOk result (λ effects. effects ≡ Found at peer signal number ∷ []) }
    ensures ok { OnOk result (roster.new ≡ record roster.old
        { endpoints = put_all number (Found at peer signal number ∷ []) roster.old.endpoints }) }
    ensures err { IfErr result (λ back. (back.1 ≡ signal) × (roster.new ≡ roster.old)) }
{
    let made = found_at_once(roster.allocator(), at, peer, &signal, number);
    brought(roster, made, signal, number)
}

/// A hunt stays pending.
pub(crate) fn pend(
    hunts: &mut HuntTable,
    alloc: Global,
    hunt: PendingHunt,
) -> Result<Effects, (NoMemory, Signal)>
    ensures effects { IfOk result (λ effects. effects ≡ []) }
    ensures ok { OnOk result (hunts.new ≡ hunts.old ++ hunt ∷ []) }
    ensures err { IfErr result (λ back. (back.1 ≡ hunt.signal) × (hunts.new ≡ hunts.old)) }
{
    match hunts.pend(hunt) {
        Ok(()) => Ok(Effects::new(alloc)),
        Err((refusal, hunt)) => Err((refusal, hunt.signal)),
    }
}

/// An attach is owed.
pub(crate) fn owe(
    attaches: &mut AttachTable,
    alloc: Global,
    attach: PendingAttach,
) -> Result<Effects, (NoMemory, Signal)>
    requires { length attach.signal.bytes < data_limit }
    ensures effects { IfOk result (λ effects. effects ≡ []) }
    ensures ok { OnOk result (attaches.new ≡ attaches.old ++ attach ∷ []) }
    ensures err { IfErr result (λ back. (back.1 ≡ attach.signal) × (attaches.new ≡ attaches.old)) }
{
    match attaches.attach(attach) {
        Ok(()) => Ok(Effects::new(alloc)),
        Err(back) => Err(back),
    }
}

/// The notification that a peer isn't alive.
fn dead_notice(
    alloc: Global,
    at: Inc,
    peer: Peer,
    signal: &Signal,
    r: AttRef,
) -> Result<Effects, NoMemory>
    requires { length signal.now.bytes < data_limit }
    ensures { IfOk result (λ effects. effects ≡ notice Dead (record {
      at = at;
      peer = peer;
      signal = signal.now;
      reference = r;
    }) ∷ []) }
{
    let note = signal.with_reason(Reason::Dead)?.note()?;
    Effects::one(alloc, Effect::Notified(at, peer, note, r, Reason::Dead))
}

/// The holder of an attach to a peer that isn't alive is notified at once.
pub(crate) fn notify_dead(
    roster: &mut Roster,
    at: Inc,
    peer: Peer,
    signal: Signal,
    r: AttRef,
) -> Result<Effects, (NoMemory, Signal)>
    requires { length signal.bytes < data_limit }
    ensures effects { IfOk result (λ effects. effects
        ≡ notice Dead (record { at = at; peer = peer; signal = signal; reference = r }) ∷ []) }
    ensures ok { OnOk result (roster.new ≡ record roster.old {
      endpoints = put_all r.0 (notice Dead (record {
        at = at;
        peer = peer;
        signal = signal;
        reference = r;
      }) ∷ []) roster.old.endpoints;
    }) }
    ensures err { IfErr result (λ back. (back.1 ≡ signal) × (roster.new ≡ roster.old)) }
{
    let made = dead_notice(roster.allocator(), at, peer, &signal, r);
    brought(roster, made, signal, r.0)
}
