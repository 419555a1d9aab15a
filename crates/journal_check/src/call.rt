//! A step run again at the kernel of its node.
ghost use Rattle.std.specs.Prelude.{◌≡◌, ◌↔◌, ◌<◌, ◌≤◌, [], length, IsTrue, IfOk, OnOk, true};
ghost use Rattle.std.specs.Prelude.{None, Some};
ghost use Rattle.linx_base.specs.Content.{data_limit};
ghost use Rattle.journal.specs.Effects.{arrivals_of, ending, opening, send_answer};
ghost use Rattle.journal.specs.declared.head.Head.TheVariants as heads;
ghost use Rattle.node_kernel.specs.Calls.{after_attach, after_close, after_detach, after_hunt};
ghost use Rattle.node_kernel.specs.Calls.{after_open, after_send};
ghost use Rattle.node_kernel.specs.Nodes.{endpoint_limit, is_living};
ghost use Rattle.node_kernel.specs.Nodes.{next_of};
ghost use Rattle.journal_check.specs.Calls.{AnswersAs, SendsAs, after_if, after_receive};
ghost use Rattle.journal_check.specs.Calls.{attach_effects, attach_of, call_after, call_effects};
ghost use Rattle.journal_check.specs.Calls.{earliest_in, hunt_effects, hunt_of, is_bounded};
ghost use Rattle.journal_check.specs.Calls.{own_items, send_effects};
ghost use Rattle.journal_check.specs.Earliest.{first_at};

use journal::{Detached, Effect, Effects, Head, SentTo};
use linx_base::{AttRef, Inc, ItemAt, Name, NoMemory, Path, Peer, SigNote, TryCopy};
use node_kernel::{Kernel, OpenError};
use sigsel::Sigsel;
use std::alloc::Global;

/// What a step that was run again had as effects, which item it was to take, and whether it is
/// answered as its head says.
#[derive(Drop)]
pub(crate) struct Called {
    pub(crate) effects: Effects,
    pub(crate) earliest: Option<ItemAt>,
    pub(crate) answered: bool,
}

fn open(kernel: &mut Kernel, name: &Name, step: u64) -> Result<Effects, NoMemory>
    requires fits { kernel.old.openings < 4294967295 }
    requires room { length kernel.old.endpoints < endpoint_limit }
    ensures effects { IfOk result (λ es. es
        ≡ opening (next_of kernel.old) name.now kernel.old.hunts) }
    ensures after { OnOk result (kernel.new ≡ after_open kernel.old name.now step) }
{
    match kernel.open(name.copy()?, step) {
        Ok(opened) => Ok(opened.effects),
        Err(OpenError::NoMemory(_)) => Err(NoMemory),
        Err(OpenError::Full(_)) => unreachable!(),
    }
}

fn close(
    alloc: Global,
    kernel: &mut Kernel,
    me: Option<Inc>,
    step: u64,
) -> Result<Effects, NoMemory>
    ensures effects { IfOk result (λ es. es ≡ ending me kernel.old.attaches) }
    ensures after { OnOk result (kernel.new
        ≡ after_if me kernel.old (λ j. after_close kernel.old j step)) }
{
    match me {
        Some(at) => kernel.close(at, step),
        None => Ok(Effects::new(alloc)),
    }
}

/// The effects of a send to a peer, which is alive or not.
fn effects_of_send(
    alloc: Global,
    from: Inc,
    note: &SigNote,
    living: bool,
    to: Peer,
) -> Result<Effects, NoMemory>
    ensures { IfOk result (λ es. es ≡ arrivals_of from note.now living to) }
{
    match to {
        Peer::Here(inc) if living => {
            let arrived = Effect::Arrived(inc, Peer::Here(from), note.copy()?);
            Effects::one(alloc, arrived)
        }
        _ => Ok(Effects::new(alloc)),
    }
}

fn send_from(
    alloc: Global,
    kernel: &mut Kernel,
    at: Inc,
    to: Peer,
    note: &SigNote,
    step: u64,
) -> Result<Effects, NoMemory>
    ensures effects { IfOk result (λ es. es
        ≡ arrivals_of at note.now (is_living kernel.old to) to) }
    ensures after { OnOk result (kernel.new ≡ after_send kernel.old at to note.now step) }
{
    let living = kernel.is_living(to);
    let effects = effects_of_send(alloc, at, note, living, to)?;
    let signal = note.signal()?;
    match kernel.send(at, to, signal, step) {
        Ok(_) => Ok(effects),
        Err(_) => Err(NoMemory),
    }
}

fn send(
    alloc: Global,
    kernel: &mut Kernel,
    me: Option<Inc>,
    to: Peer,
    note: &SigNote,
    step: u64,
) -> Result<Effects, NoMemory>
    ensures effects { IfOk result (λ es. es ≡ send_effects kernel.old me to note.now) }
    ensures after { OnOk result (kernel.new
        ≡ after_if me kernel.old (λ j. after_send kernel.old j to note.now step)) }
{
    match me {
        Some(at) => send_from(alloc, kernel, at, to, note, step),
        None => Ok(Effects::new(alloc)),
    }
}

fn hunt(
    alloc: Global,
    kernel: &mut Kernel,
    me: Option<Inc>,
    path: &Path,
    note: &SigNote,
    step: u64,
) -> Result<Effects, NoMemory>
    ensures effects { IfOk result (λ es. es
        ≡ hunt_effects kernel.old step me path.now note.now) }
    ensures after { OnOk result (kernel.new ≡ after_if me kernel.old
        (λ j. after_hunt kernel.old (hunt_of step j path.now note.now))) }
{
    let Some(at) = me else {
        return Ok(Effects::new(alloc));
    };
    let signal = note.signal()?;
    match kernel.hunt(at, path.copy()?, signal, step) {
        Ok(effects) => Ok(effects),
        Err(_) => Err(NoMemory),
    }
}

fn attach(
    alloc: Global,
    kernel: &mut Kernel,
    me: Option<Inc>,
    to: Peer,
    note: &SigNote,
    step: u64,
) -> Result<Effects, NoMemory>
    requires { length note.now.bytes < data_limit }
    ensures effects { IfOk result (λ es. es ≡ attach_effects kernel.old step me to note.now) }
    ensures after { OnOk result (kernel.new ≡ after_if me kernel.old
        (λ j. after_attach kernel.old (attach_of step j to note.now))) }
{
    let Some(at) = me else {
        return Ok(Effects::new(alloc));
    };
    let signal = note.signal()?;
    match kernel.attach(at, to, signal, AttRef(step)) {
        Ok(effects) => Ok(effects),
        Err(_) => Err(NoMemory),
    }
}

fn same_position(a: ItemAt, b: ItemAt) -> bool
    ensures { IsTrue result ↔ (a ≡ b) }
{
    a.step == b.step && a.place == b.place
}

/// Takes the first selected item at an endpoint, and tells where it came from.
fn receive(kernel: &mut Kernel, me: Option<Inc>, filter: &Sigsel) -> Option<ItemAt>
    ensures earliest { result ≡ first_at filter.now (own_items kernel.old me) }
    ensures after { kernel.new
        ≡ after_if me kernel.old (λ j. after_receive kernel.old j filter.now) }
{
    let item = kernel.receive(me?, filter)?;
    Some(item.pos)
}

/// Whether the item is the one at this position.
fn is_at(earliest: Option<ItemAt>, position: ItemAt) -> bool
    ensures { IsTrue result ↔ (earliest ≡ Some position) }
{
    match earliest {
        Some(at) => same_position(at, position),
        None => false,
    }
}

/// Whether there is no item.
fn is_vain(earliest: Option<ItemAt>) -> bool
    ensures { IsTrue result ↔ (earliest ≡ None) }
{
    match earliest {
        Some(_) => false,
        None => true,
    }
}

fn same_detached(a: Detached, b: Detached) -> bool
    ensures { IsTrue result ↔ (a ≡ b) }
{
    a == b
}

/// Detaches, and says whether it is answered so.
fn detach(kernel: &mut Kernel, me: Option<Inc>, r: AttRef, answer: Detached) -> bool
    ensures answered { IsTrue result ↔ AnswersAs kernel.old me (heads.Detach r answer) }
    ensures after { kernel.new ≡ after_if me kernel.old (λ j. after_detach kernel.old j r) }
{
    match me {
        Some(at) => same_detached(answer, kernel.detach(at, r)),
        None => true,
    }
}

/// A call without effects, with the item that it was to take.
fn quiet(alloc: Global, earliest: Option<ItemAt>, answered: bool) -> Called
    ensures effects { result.effects ≡ [] }
    ensures earliest { result.earliest ≡ earliest }
    ensures answered { result.answered ≡ answered }
{
    Called {
        effects: Effects::new(alloc),
        earliest,
        answered,
    }
}

/// A call with these effects.
pub(crate) fn heard(effects: Effects) -> Called
    ensures effects { result.effects ≡ effects }
    ensures earliest { result.earliest ≡ None }
    ensures answered { result.answered ≡ true }
{
    Called {
        effects,
        earliest: None,
        answered: true,
    }
}

/// Makes the call of a head again, in this step, at the kernel of its node.
pub(crate) fn call(
    alloc: Global,
    kernel: &mut Kernel,
    me: Option<Inc>,
    head: &Head,
    step: u64,
) -> Result<Called, NoMemory>
    requires fits { kernel.old.openings < 4294967295 }
    requires room { length kernel.old.endpoints < endpoint_limit }
    requires bounded { IsTrue (is_bounded head.now) }
    ensures effects { IfOk result (λ called. called.effects
        ≡ call_effects kernel.old step me head.now) }
    ensures earliest { IfOk result (λ called. called.earliest
        ≡ earliest_in kernel.old me head.now) }
    ensures answered { IfOk result (λ called. IsTrue called.answered
        ↔ AnswersAs kernel.old me head.now) }
    ensures after { OnOk result (kernel.new ≡ call_after kernel.old step me head.now) }
{
    match head {
        Head::Open(name) => Ok(heard(open(kernel, name, step)?)),
        Head::Close => Ok(heard(close(alloc, kernel, me, step)?)),
        Head::Ended => Ok(heard(close(alloc, kernel, me, step)?)),
        Head::Send(to, note, _) => Ok(heard(send(alloc, kernel, me, *to, note, step)?)),
        Head::Hunt(path, note) => Ok(heard(hunt(alloc, kernel, me, path, note, step)?)),
        Head::Attach(to, note) => Ok(heard(attach(alloc, kernel, me, *to, note, step)?)),
        Head::Take(filter, position) => {
            let earliest = receive(kernel, me, filter);
            Ok(quiet(alloc, earliest, is_at(earliest, *position)))
        }
        Head::TakeNone(filter) | Head::Waits(filter) => {
            let earliest = receive(kernel, me, filter);
            Ok(quiet(alloc, earliest, is_vain(earliest)))
        }
        Head::Detach(r, answer) => {
            let answered = detach(kernel, me, *r, *answer);
            Ok(quiet(alloc, None, answered))
        }
        _ => Ok(quiet(alloc, None, true)),
    }
}

/// What becomes of a signal that is sent to a peer, which is alive or not.
fn answer_to_send(living: bool, to: Peer) -> SentTo
    ensures { result ≡ send_answer living to }
{
    if !living {
        return SentTo::Dead;
    }
    match to {
        Peer::Here(_) => SentTo::Queued,
        Peer::There { .. } => SentTo::Link,
    }
}

fn same_sent(a: SentTo, b: SentTo) -> bool
    ensures { IsTrue result ↔ (a ≡ b) }
{
    a == b
}

/// Whether a send is answered by whether its peer is alive.
pub(crate) fn keeps_sends(kernel: &Kernel, head: &Head) -> bool
    ensures { IsTrue result ↔ SendsAs kernel.now head.now }
{
    match head {
        Head::Send(to, _, answer) => {
            let right = answer_to_send(kernel.is_living(*to), *to);
            same_sent(*answer, right)
        }
        _ => true,
    }
}
