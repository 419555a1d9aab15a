//! One step made on a journal and the kernel of one node: all memory is taken first, the kernel
//! changes last, and then the step is noted.

ghost use Rattle.std.specs.Prelude.{◌≡◌, ◌+◌, ◌<◌, ◌≤◌, [], ◌∷◌, length, map, IfOk, IfErr, OnOk};
ghost use Rattle.std.specs.Prelude.{OnErr, IsTrue, Some, ◌-◌, ◌++◌, option_to_list};
ghost use Rattle.std.specs.Prelude.{vec_capacity, vec_len};
ghost use Rattle.linx_base.specs.Content.{data_limit};
ghost use Rattle.linx_base.specs.NameText.{is_name};
ghost use Rattle.journal.specs.Effects.{arrivals_of, attached, closing, closings, hunted, opening};
ghost use Rattle.journal.specs.Effects.{send_answer};
ghost use Rattle.journal.specs.declared.head.Head.TheVariants as heads;
ghost use Rattle.sigsel.specs.Selection.{first_selected};
ghost use Rattle.link_laws.specs.Laws.{down_if};
ghost use Rattle.run_trunks.specs.States.{HasLink, over, trunks_of};
ghost use Rattle.trunk_moves.specs.Trunks.{side_on};
ghost use Rattle.node_kernel.specs.Calls.{after_attach, after_close, after_detach, after_hunt};
ghost use Rattle.node_kernel.specs.Calls.{after_open, after_restart, after_send, detached};
ghost use Rattle.node_kernel.specs.Nodes.{endpoint_limit, find_at, is_living, is_open, items_at};
ghost use Rattle.node_kernel.specs.Nodes.{next_of};
ghost use Rattle.fabric.specs.Calls.{refusal_with};
ghost use Rattle.fabric.specs.Standings.{past_effects};
ghost use Rattle.fabric.specs.Downs.{downs_on, session_at_if};
ghost use Rattle.fabric.specs.Looks.{after_take, looked_at, with_take};
ghost use Rattle.fabric.specs.Remains.{link_limit};

use crate::standing::{Standing, lose_all};
use crate::stop::{StepStop, no_memory};
use crate::watched_journal::WatchedJournal;
use journal::{By, Detached, Effect, Effects, Head, SentTo, Step};
use linx_base::{
    AttRef, Inc, Item, LinkNo, Name, NoMemory, NodeNo, Path, Peer, SigNote, Signal, TryCopy,
};
use node_kernel::{Kernel, OpenError};
use run_trunks::RunTrunks;
use sigsel::Sigsel;
use std::alloc::Global;

/// A step without effects.
pub(crate) fn make_quiet(
    alloc: Global,
    journal: &mut WatchedJournal,
    by: By,
    head: Head,
) -> Result<(), NoMemory>
    ensures log { OnOk result (journal.new.log ≡ record journal.old.log
        { steps = record { by = by; head = head; effects = [] } ∷ journal.old.log.steps }) }
    ensures err { OnErr result (journal.new.log ≡ journal.old.log) }
{
    match journal.reserve(1) {
        Ok(()) => {
            journal.push_quiet(alloc, by, head);
            Ok(())
        }
        Err(refusal) => {
            drop(head);
            Err(refusal)
        }
    }
}

/// An opening.
pub(crate) fn make_open(
    journal: &mut WatchedJournal,
    kernel: &mut Kernel,
    by: By,
    name: Name,
) -> Result<Inc, NoMemory>
    requires fits { kernel.old.openings < 4294967295 }
    requires room { length kernel.old.endpoints < endpoint_limit }
    requires short { length journal.old.log.steps < 200000 }
    ensures inc { IfOk result (λ inc. inc ≡ next_of kernel.old) }
    ensures name { IsTrue (is_name name) }
    ensures kernel { OnOk result (kernel.new ≡ after_open kernel.old name
        (length journal.old.log.steps + 1)) }
    ensures log { OnOk result (journal.new.log ≡ record journal.old.log {
      steps = record {
        by = by;
        head = heads.Open name;
        effects = opening (next_of kernel.old) name kernel.old.hunts;
      } ∷ journal.old.log.steps;
    }) }
    ensures err { OnErr result ((journal.new.log ≡ journal.old.log) × (kernel.new ≡ kernel.old)) }
{
    let _name = name.bytes();
    journal.reserve(1)?;
    let copy = name.copy()?;
    match kernel.open(name, journal.len() + 1) {
        Ok(opened) => {
            journal.push(Step {
                by,
                head: Head::Open(copy),
                effects: opened.effects,
            });
            Ok(opened.inc)
        }
        Err(OpenError::NoMemory(name)) => {
            drop(name);
            Err(NoMemory)
        }
        Err(OpenError::Full(_)) => unreachable!(),
    }
}

/// The effects of the closing of an endpoint, on a journal that gets room for its step.
fn close_endpoint(
    journal: &mut WatchedJournal,
    kernel: &mut Kernel,
    at: Inc,
) -> Result<Effects, NoMemory>
    requires short { length journal.old.log.steps < 200000 }
    ensures effects { IfOk result (λ effects. effects ≡ closing at kernel.old.attaches) }
    ensures kernel { OnOk result (kernel.new ≡ after_close kernel.old at
        (length journal.old.log.steps + 1)) }
    ensures room { OnOk result (0 < journal.new.spare) }
    ensures log { journal.new.log ≡ journal.old.log }
    ensures err { OnErr result (kernel.new ≡ kernel.old) }
{
    journal.reserve(1)?;
    kernel.close(at, journal.len() + 1)
}

/// The closing of an endpoint, by this head.
pub(crate) fn make_close(
    journal: &mut WatchedJournal,
    kernel: &mut Kernel,
    by: By,
    head: Head,
    at: Inc,
) -> Result<(), NoMemory>
    requires is_open { IsTrue (is_open kernel.old.endpoints at) }
    requires short { length journal.old.log.steps < 200000 }
    ensures kernel { OnOk result (kernel.new ≡ after_close kernel.old at
        (length journal.old.log.steps + 1)) }
    ensures log { OnOk result (journal.new.log ≡ record journal.old.log {
      steps = record { by = by; head = head; effects = closing at kernel.old.attaches }
          ∷ journal.old.log.steps;
    }) }
    ensures err { OnErr result ((journal.new.log ≡ journal.old.log) × (kernel.new ≡ kernel.old)) }
{
    match close_endpoint(journal, kernel, at) {
        Ok(effects) => {
            journal.push(Step { by, head, effects });
            Ok(())
        }
        Err(refusal) => {
            drop(head);
            Err(refusal)
        }
    }
}

/// What a look found: an item, or nothing, and then the filter comes back.
#[derive(Drop)]
pub(crate) enum Looked {
    Found(Item),
    Vain(Sigsel),
}

/// Takes the first selected item of an endpoint, and notes it. Where there is none nothing changes.
pub(crate) fn make_take(
    alloc: Global,
    journal: &mut WatchedJournal,
    kernel: &mut Kernel,
    by: By,
    at: Inc,
    filter: Sigsel,
) -> Result<Looked, NoMemory>
    requires { IsTrue (is_open kernel.old.endpoints at) }
    ensures looked { IfOk result (λ looked. looked
        ≡ looked_at filter (first_selected filter (items_at kernel.old.endpoints at))) }
    ensures kernel { OnOk result (kernel.new ≡ after_take kernel.old at filter) }
    ensures log { OnOk result (journal.new.log ≡ record journal.old.log {
      steps = with_take by filter (first_selected filter (items_at kernel.old.endpoints at))
          journal.old.log.steps;
    }) }
    ensures err { OnErr result ((journal.new.log ≡ journal.old.log) × (kernel.new ≡ kernel.old)) }
{
    journal.reserve(1)?;
    match kernel.receive(at, &filter) {
        Some(item) => {
            journal.push_quiet(alloc, by, Head::Take(filter, item.pos));
            Ok(Looked::Found(item))
        }
        None => Ok(Looked::Vain(filter)),
    }
}

/// A step that waits with a filter. The journal has a copy of it, and the filter comes back for the
/// wait that the step stands for.
pub(crate) fn make_wait(
    alloc: Global,
    journal: &mut WatchedJournal,
    by: By,
    filter: Sigsel,
) -> Result<Sigsel, NoMemory>
    ensures filter { IfOk result (λ back. back ≡ filter) }
    ensures log { OnOk result (journal.new.log ≡ record journal.old.log {
      steps = record { by = by; head = heads.Waits filter; effects = [] }
          ∷ journal.old.log.steps;
    }) }
    ensures err { OnErr result (journal.new.log ≡ journal.old.log) }
{
    let copy = filter.copy()?;
    make_quiet(alloc, journal, by, Head::Waits(copy))?;
    Ok(filter)
}

/// What becomes of a signal that is sent to a peer, which is alive or not.
fn answer_to_send(living: bool, to: Peer) -> SentTo
    ensures { result ≡ send_answer living to }
{
    if !living {
        return SentTo::Dead;
    }
    match to {
        Peer::Here(_) => SentTo::Queued,
        Peer::There { .. } => SentTo::Link,
    }
}

/// The effects of a send to a peer, which is alive or not.
fn effects_of_send(
    alloc: Global,
    from: Inc,
    note: &SigNote,
    living: bool,
    to: Peer,
) -> Result<Effects, NoMemory>
    ensures { IfOk result (λ effects. effects ≡ arrivals_of from note.now living to) }
{
    match to {
        Peer::Here(inc) if living => {
            let arrived = Effect::Arrived(inc, Peer::Here(from), note.copy()?);
            Effects::one(alloc, arrived)
        }
        _ => Ok(Effects::new(alloc)),
    }
}

/// Room for a step, and the note of its signal.
fn prepare(journal: &mut WatchedJournal, signal: &Signal) -> Result<SigNote, NoMemory>
    ensures room { OnOk result (0 < journal.new.spare) }
    ensures log { journal.new.log ≡ journal.old.log }
    ensures note { IfOk result (λ note. note ≡ signal.now) }
    ensures bounded { length signal.now.bytes ≤ data_limit }
{
    let _bytes = signal.bytes();
    journal.reserve(1)?;
    signal.note()
}

/// Room for a step, the note of its signal, and its effects.
fn prepare_send(
    alloc: Global,
    journal: &mut WatchedJournal,
    from: Inc,
    signal: &Signal,
    living: bool,
    to: Peer,
) -> Result<(SigNote, Effects), NoMemory>
    ensures room { OnOk result (0 < journal.new.spare) }
    ensures log { journal.new.log ≡ journal.old.log }
    ensures ok { IfOk result (λ made. (made.0 ≡ signal.now)
        × (made.1 ≡ arrivals_of from signal.now living to)) }
    ensures bounded { length signal.now.bytes ≤ data_limit }
{
    let note = prepare(journal, signal)?;
    let effects = effects_of_send(alloc, from, &note, living, to)?;
    Ok((note, effects))
}

/// A signal to an endpoint of the own node goes into its queue, if it is open; one over a link is for
/// the link alone. A refusal gives the signal back.
fn queue_here(
    kernel: &mut Kernel,
    from: Inc,
    to: Peer,
    signal: Signal,
    step: u64,
) -> Result<(), (NoMemory, Signal)>
    requires { IsTrue (is_open kernel.old.endpoints from) }
    ensures ok { OnOk result (kernel.new ≡ after_send kernel.old from to signal step) }
    ensures err { IfErr result (λ back. (back.1 ≡ signal) × (kernel.new ≡ kernel.old)) }
{
    match to {
        Peer::Here(_) => match kernel.send(from, to, signal, step) {
            Ok(_) => Ok(()),
            Err(back) => Err(back),
        },
        Peer::There { .. } => Ok(()),
    }
}

/// A send to a peer of which it is known whether it is alive. A refusal gives the signal back.
pub(crate) fn make_send(
    alloc: Global,
    journal: &mut WatchedJournal,
    kernel: &mut Kernel,
    by: By,
    from: Inc,
    to: Peer,
    signal: Signal,
    living: bool,
) -> Result<SentTo, StepStop>
    requires is_open { IsTrue (is_open kernel.old.endpoints from) }
    requires known { living ≡ is_living kernel.old to }
    requires short { length journal.old.log.steps < 200000 }
    ensures sent { IfOk result (λ sent. sent ≡ send_answer (is_living kernel.old to) to) }
    ensures bounded { length signal.bytes ≤ data_limit }
    ensures kernel { OnOk result (kernel.new ≡ after_send kernel.old from to signal
        (length journal.old.log.steps + 1)) }
    ensures log { OnOk result (journal.new.log ≡ record journal.old.log {
      steps = record {
        by = by;
        head = heads.Send to signal (send_answer (is_living kernel.old to) to);
        effects = arrivals_of from signal (is_living kernel.old to) to;
      } ∷ journal.old.log.steps;
    }) }
    ensures stop { IfErr result (λ stop. stop ≡ refusal_with (Some signal)) }
    ensures err { OnErr result ((journal.new.log ≡ journal.old.log) × (kernel.new ≡ kernel.old)) }
{
    let Ok((note, effects)) = prepare_send(alloc, journal, from, &signal, living, to) else {
        return Err(no_memory(Some(signal)));
    };
    match queue_here(kernel, from, to, signal, journal.len() + 1) {
        Ok(()) => {
            let sent = answer_to_send(living, to);
            journal.push(Step {
                by,
                head: Head::Send(to, note, sent),
                effects,
            });
            Ok(sent)
        }
        Err((NoMemory, signal)) => Err(no_memory(Some(signal))),
    }
}

/// Room for a step, the note of its signal, and its path.
fn prepare_hunt(
    journal: &mut WatchedJournal,
    signal: &Signal,
    path: &Path,
) -> Result<(SigNote, Path), NoMemory>
    ensures room { OnOk result (0 < journal.new.spare) }
    ensures log { journal.new.log ≡ journal.old.log }
    ensures ok { IfOk result (λ made. (made.0 ≡ signal.now) × (made.1 ≡ path.now)) }
    ensures bounded { length signal.now.bytes ≤ data_limit }
{
    let note = prepare(journal, signal)?;
    Ok((note, path.copy()?))
}

/// A hunt. The number is the position of its step. A refusal gives the signal back.
pub(crate) fn make_hunt(
    journal: &mut WatchedJournal,
    kernel: &mut Kernel,
    by: By,
    at: Inc,
    path: Path,
    signal: Signal,
) -> Result<u64, StepStop>
    requires is_open { IsTrue (is_open kernel.old.endpoints at) }
    requires short { length journal.old.log.steps < 200000 }
    ensures number { IfOk result (λ number. number ≡ length journal.old.log.steps + 1) }
    ensures bounded { length signal.bytes ≤ data_limit }
    ensures kernel { OnOk result (kernel.new ≡ after_hunt kernel.old
        (record {
          at = at;
          path = path;
          signal = signal;
          number = length journal.old.log.steps + 1;
        })) }
    ensures log { OnOk result (journal.new.log ≡ record journal.old.log {
      steps = record {
        by = by;
        head = heads.Hunt path signal;
        effects = hunted (find_at kernel.old path)
            (record {
              at = at;
              path = path;
              signal = signal;
              number = length journal.old.log.steps + 1;
            });
      } ∷ journal.old.log.steps;
    }) }
    ensures stop { IfErr result (λ stop. stop ≡ refusal_with (Some signal)) }
    ensures err { OnErr result ((journal.new.log ≡ journal.old.log) × (kernel.new ≡ kernel.old)) }
{
    let Ok((note, copy)) = prepare_hunt(journal, &signal, &path) else {
        return Err(no_memory(Some(signal)));
    };
    let number = journal.len() + 1;
    match kernel.hunt(at, path, signal, number) {
        Ok(effects) => {
            journal.push(Step {
                by,
                head: Head::Hunt(copy, note),
                effects,
            });
            Ok(number)
        }
        Err((NoMemory, signal)) => Err(no_memory(Some(signal))),
    }
}

/// An attach. The reference is the position of its step. A refusal gives the signal back.
pub(crate) fn make_attach(
    journal: &mut WatchedJournal,
    kernel: &mut Kernel,
    by: By,
    at: Inc,
    peer: Peer,
    signal: Signal,
) -> Result<AttRef, StepStop>
    requires is_open { IsTrue (is_open kernel.old.endpoints at) }
    requires room { length signal.bytes < data_limit }
    requires short { length journal.old.log.steps < 200000 }
    ensures reference { IfOk result (λ r. r ≡ record { 0 = length journal.old.log.steps + 1 }) }
    ensures kernel { OnOk result (kernel.new ≡ after_attach kernel.old
        (record {
          at = at;
          peer = peer;
          signal = signal;
          reference = record { 0 = length journal.old.log.steps + 1 };
        })) }
    ensures log { OnOk result (journal.new.log ≡ record journal.old.log {
      steps = record {
        by = by;
        head = heads.Attach peer signal;
        effects = attached (is_living kernel.old peer)
            (record {
              at = at;
              peer = peer;
              signal = signal;
              reference = record { 0 = length journal.old.log.steps + 1 };
            });
      } ∷ journal.old.log.steps;
    }) }
    ensures stop { IfErr result (λ stop. stop ≡ refusal_with (Some signal)) }
    ensures err { OnErr result ((journal.new.log ≡ journal.old.log) × (kernel.new ≡ kernel.old)) }
{
    let Ok(note) = prepare(journal, &signal) else {
        return Err(no_memory(Some(signal)));
    };
    let reference = AttRef(journal.len() + 1);
    match kernel.attach(at, peer, signal, reference) {
        Ok(effects) => {
            journal.push(Step {
                by,
                head: Head::Attach(peer, note),
                effects,
            });
            Ok(reference)
        }
        Err((NoMemory, signal)) => Err(no_memory(Some(signal))),
    }
}

/// A detach.
pub(crate) fn make_detach(
    alloc: Global,
    journal: &mut WatchedJournal,
    kernel: &mut Kernel,
    by: By,
    at: Inc,
    r: AttRef,
) -> Result<Detached, NoMemory>
    requires { IsTrue (is_open kernel.old.endpoints at) }
    ensures answer { IfOk result (λ answer. answer ≡ detached kernel.old at r) }
    ensures kernel { OnOk result (kernel.new ≡ after_detach kernel.old at r) }
    ensures log { OnOk result (journal.new.log ≡ record journal.old.log {
      steps = record { by = by; head = heads.Detach r (detached kernel.old at r); effects = [] }
          ∷ journal.old.log.steps;
    }) }
    ensures err { OnErr result ((journal.new.log ≡ journal.old.log) × (kernel.new ≡ kernel.old)) }
{
    journal.reserve(1)?;
    let answer = kernel.detach(at, r);
    journal.push_quiet(alloc, by, Head::Detach(r, answer));
    Ok(answer)
}

/// The end of a node's session over a link, if one is up there.
fn down_over(trunks: &RunTrunks, node: NodeNo, link: LinkNo) -> Option<Effect>
    requires of_run { HasLink trunks.now link }
    ensures { option_to_list result ≡ down_if node.0 link.0
        (session_at_if (side_on (over trunks.now.links) node.0 link)
        (trunks_of trunks.now.is link.0)) }
{
    let side = trunks.side_on(link, node)?;
    if trunks.is_up(link, side) {
        Some(Effect::Down(node, link, trunks.session(link, side)))
    } else {
        None
    }
}

/// The ends of the sessions of a node that are up, by the numbers of their links, with room for so
/// many more effects.
pub(crate) fn downs_of(
    alloc: Global,
    trunks: &RunTrunks,
    node: NodeNo,
    room: usize,
) -> Result<Vec<Effect>, NoMemory>
    requires few { length trunks.now.links ≤ link_limit }
    ensures downs { IfOk result (λ downs. downs.items
        ≡ downs_on trunks.now.links node.0 trunks.now.is (length trunks.now.links)) }
    ensures room { IfOk result (λ downs. room ≤ vec_capacity downs - vec_len downs) }
{
    let count = trunks.count() as u32;
    let mut downs = Vec::new(alloc);
    for place in 0..count {
        if let Some(down) = down_over(trunks, node, LinkNo(place + 1)) {
            downs.push(down)?;
        }
    }
    downs.reserve(room)?;
    Ok(downs)
}

/// Some effects, and further ones, for which there is room.
fn joined(first: Vec<Effect>, rest: Effects) -> Effects
    requires { length rest ≤ vec_capacity first - vec_len first }
    ensures { result ≡ first.items ++ rest }
{
    let mut all = first;
    let mut rest = rest.into_vec();
    match all.append(&mut rest) {
        Ok(()) => Effects::of(all),
        Err(_) => unreachable!(),
    }
}

/// The restart of a node: after these ends of its sessions, all of its endpoints are closed, and
/// those whose they were lose them.
pub(crate) fn make_restart(
    journal: &mut WatchedJournal,
    kernel: &mut Kernel,
    standings: &mut [Standing],
    by: By,
    node: NodeNo,
    downs: Vec<Effect>,
) -> Result<(), NoMemory>
    requires short { length journal.old.log.steps < 200000 }
    requires room { length kernel.old.endpoints ≤ vec_capacity downs - vec_len downs }
    ensures kernel { OnOk result (kernel.new ≡ after_restart kernel.old) }
    ensures log { OnOk result (journal.new.log ≡ record journal.old.log {
      steps = record {
        by = by;
        head = heads.Restart node;
        effects = downs.items ++ closings (map (λ e. e.inc) kernel.old.endpoints);
      } ∷ journal.old.log.steps;
    }) }
    ensures standings { OnOk result (standings.new
        ≡ map (past_effects (length journal.old.log.steps + 1)
        (closings (map (λ e. e.inc) kernel.old.endpoints))) standings.old) }
    ensures err { OnErr result ((journal.new.log ≡ journal.old.log) × (kernel.new ≡ kernel.old)
        × (standings.new ≡ standings.old)) }
{
    journal.reserve(1)?;
    let closings = kernel.restart()?;
    lose_all(standings, closings.as_slice(), journal.len() + 1);
    journal.push(Step {
        by,
        head: Head::Restart(node),
        effects: joined(downs, closings),
    });
    Ok(())
}
