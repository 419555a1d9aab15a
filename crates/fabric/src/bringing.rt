//! What a packet, or a tick, brings to a node over a link: what the side's trunk is told in answer,
//! and what becomes of the node's kernel. All memory that a trunk takes is taken first, and the
//! kernel changes last.

ghost use Rattle.std.specs.Prelude.{◌≡◌, ◌+◌, ◌<◌, [], ◌∷◌, length, IfOk, OnErr, OnOk};
ghost use Rattle.std.specs.Option.{option_copied};
ghost use Rattle.linx_base.specs.Pending.{name_over, names_over};
ghost use Rattle.linx_base.specs.Sides.{other_of};
ghost use Rattle.carrier.specs.Events.{HasNextAt, flight_from, handed_by, link_told_by};
ghost use Rattle.journal.specs.declared.head.Head.TheVariants as heads;
ghost use Rattle.rlnh_end.specs.declared.heard.Heard.{Heard as AnyHeard};
ghost use Rattle.run_trunks.specs.Changes.{at_link};
ghost use Rattle.run_trunks.specs.States.{HasLink, OnlyChangedAt, resting, trunks_of, undone};
ghost use Rattle.trunk.specs.Events.{HasNumbersLeft, IsReading, delivered, ticked_at, told_by};
ghost use Rattle.trunk.specs.Tells.{up_of_tick};
ghost use Rattle.fabric.specs.Bringings.{HasNumbersOver, IsDelivered, MayAnswer, MayTellNode};
ghost use Rattle.fabric.specs.Bringings.{answers_over, answers_told, asks_over, comes_by};
ghost use Rattle.fabric.specs.Bringings.{node_told, passes_by, told_on};

use crate::watched_journal::WatchedJournal;
use crate::wires::Coming;
use carrier::TickedSide;
use journal::{By, Effect, Effects, Head, Step};
use linx_base::{LinkNo, Name, NoMemory, NodeNo, Path, Peer, Session, Side, Verdict};
use node_kernel::Kernel;
use run_trunks::RunTrunks;
use std::alloc::Global;
use trunk::TrunkUp;

/// Where a packet comes, or a tick is felt: a side of a link, in this session, on this node.
#[derive(Clone, Copy)]
pub(crate) struct At {
    pub(crate) node: NodeNo,
    pub(crate) link: LinkNo,
    pub(crate) side: Side,
    pub(crate) session: Session,
}

/// The name that a path has over a link.
fn name_over(link: LinkNo, path: &Path) -> Option<&Name>
    ensures { option_copied result ≡ name_over link path.now }
{
    match path {
        Path::Local(_) => None,
        Path::Over { link: over, name } => { if over.0 == link.0 { Some(name) } else { None } }
    }
}

/// A side that went up asks for the name of each hunt that is pending over the link.
fn ask_again(
    trunks: &mut RunTrunks,
    kernel: &Kernel,
    link: LinkNo,
    side: Side,
) -> Result<(), NoMemory>
    requires of_run { HasLink trunks.old link }
    requires numbers { HasNumbersOver link side (names_over link kernel.now.hunts) trunks.old.is }
    ensures is { OnOk result (trunks.new.is ≡ asks_over kernel.now link side trunks.old.is) }
    ensures was { trunks.new.was ≡ trunks.old.was }
    ensures links { trunks.new.links ≡ trunks.old.links }
    ensures err { OnErr result (trunks.new ≡ undone trunks.old) }
{
    let mut hunts = kernel.hunts_over(link);
    while let Some(hunt) = hunts.next_entry() {
        if let Some(name) = name_over(link, &hunt.path) {
            trunks.asked(link, side, name)?;
        }
    }
    Ok(())
}

/// A side that was asked for a name publishes the first endpoint of that name, if one is open.
fn answer(
    trunks: &mut RunTrunks,
    kernel: &Kernel,
    link: LinkNo,
    side: Side,
    name: &Name,
) -> Result<(), NoMemory>
    requires of_run { HasLink trunks.old link }
    requires may { MayAnswer kernel.now link side name.now trunks.old.is }
    requires numbers { HasNumbersLeft side (trunks_of trunks.old.is link.0) }
    ensures is { OnOk result
        (trunks.new.is ≡ answers_over kernel.now link side name.now trunks.old.is) }
    ensures was { trunks.new.was ≡ trunks.old.was }
    ensures links { trunks.new.links ≡ trunks.old.links }
    ensures err { OnErr result (trunks.new ≡ undone trunks.old) }
{
    match kernel.first(name) {
        Some(inc) => trunks.published(link, side, inc, name),
        None => Ok(()),
    }
}

/// A node is told of a packet, in step `step`. A refusal leaves the kernel as it was, and the
/// caller undoes the event.
fn bring(
    alloc: Global,
    trunks: &mut RunTrunks,
    kernel: &mut Kernel,
    at: At,
    up: TrunkUp,
    step: u64,
) -> Result<Effects, NoMemory>
    requires of_run { HasLink trunks.old at.link }
    requires node { at.node ≡ kernel.old.node }
    requires may { MayTellNode kernel.old at up trunks.old.is }
    ensures effects { IfOk result (λ effects. effects ≡ told_on kernel.old at up) }
    ensures kernel { OnOk result (kernel.new ≡ node_told kernel.old at up step) }
    ensures is { OnOk result (trunks.new.is ≡ answers_told kernel.old at up trunks.old.is) }
    ensures was { trunks.new.was ≡ trunks.old.was }
    ensures links { trunks.new.links ≡ trunks.old.links }
    ensures err { OnErr result (kernel.new ≡ kernel.old) }
{
    match up {
        TrunkUp::Nothing => Ok(Effects::new(alloc)),
        TrunkUp::WentUp { session, peer } => {
            ask_again(trunks, kernel, at.link, at.side)?;
            Effects::one(alloc, Effect::Up(at.node, at.link, session, peer))
        }
        TrunkUp::WentDown { session } => kernel.down(at.link, session, step),
        TrunkUp::Arrived { from, to, signal } => {
            let from = Peer::There {
                link: at.link,
                session: at.session,
                inc: from,
            };
            match kernel.arrived(to, from, signal, step) {
                Ok(effects) => Ok(effects),
                Err((NoMemory, _)) => Err(NoMemory),
            }
        }
        TrunkUp::Met { inc, name } => kernel.met(at.link, at.session, inc, name, step),
        TrunkUp::Gone { inc } => {
            let peer = Peer::There {
                link: at.link,
                session: at.session,
                inc,
            };
            kernel.gone(peer, step)
        }
        TrunkUp::Asked { name } => {
            answer(trunks, kernel, at.link, at.side, &name)?;
            Ok(Effects::new(alloc))
        }
    }
}

/// The step of a packet or a tick of which the node is told, on a journal that has room for it.
/// What is now of the trunks stays; a refusal undoes the event.
pub(crate) fn make_told(
    alloc: Global,
    journal: &mut WatchedJournal,
    trunks: &mut RunTrunks,
    kernel: &mut Kernel,
    by: By,
    head: Head,
    at: At,
    up: TrunkUp,
) -> Result<(), NoMemory>
    requires room { 0 < journal.old.spare }
    requires short { length journal.old.log.steps < 200000 }
    requires of_run { HasLink trunks.old at.link }
    requires only { OnlyChangedAt at.link trunks.old }
    requires node { at.node ≡ kernel.old.node }
    requires may { MayTellNode kernel.old at up trunks.old.is }
    ensures log { OnOk result (journal.new.log ≡ record journal.old.log {
      steps = record { by = by; head = head; effects = told_on kernel.old at up }
          ∷ journal.old.log.steps;
    }) }
    ensures kernel { OnOk result
        (kernel.new ≡ node_told kernel.old at up (length journal.old.log.steps + 1)) }
    ensures trunks { OnOk result (trunks.new ≡ resting trunks.old.links
        (answers_told kernel.old at up trunks.old.is)) }
    ensures err { OnErr result ((journal.new.log ≡ journal.old.log) × (kernel.new ≡ kernel.old)
        × (trunks.new ≡ undone trunks.old)) }
{
    match bring(alloc, trunks, kernel, at, up, journal.len() + 1) {
        Ok(effects) => {
            trunks.keep(at.link);
            journal.push(Step { by, head, effects });
            Ok(())
        }
        Err(NoMemory) => {
            drop(head);
            trunks.undo_all();
            Err(NoMemory)
        }
    }
}

/// The step of a packet that brings the node nothing, on a journal that has room for it. What is now
/// of the trunks stays.
fn make_still(
    alloc: Global,
    journal: &mut WatchedJournal,
    trunks: &mut RunTrunks,
    by: By,
    head: Head,
    link: LinkNo,
)
    requires room { 0 < journal.old.spare }
    requires of_run { HasLink trunks.old link }
    requires only { OnlyChangedAt link trunks.old }
    ensures log { journal.new.log ≡ record journal.old.log {
      steps = record { by = by; head = head; effects = [] } ∷ journal.old.log.steps;
    } }
    ensures trunks { trunks.new ≡ resting trunks.old.links trunks.old.is }
{
    trunks.keep(link);
    journal.push_quiet(alloc, by, head);
}

/// What a tick means, as what is told of a packet.
fn up_of(ticked: TickedSide) -> TrunkUp
    ensures { result ≡ up_of_tick ticked }
{
    match ticked {
        TickedSide::Stays => TrunkUp::Nothing,
        TickedSide::WentDown { session } => TrunkUp::WentDown { session },
    }
}

/// The step of the packet at place 0 that comes to a side: it stays in flight or is gone. A refusal
/// changes nothing.
pub(crate) fn make_delivery(
    alloc: Global,
    journal: &mut WatchedJournal,
    trunks: &mut RunTrunks,
    kernel: &mut Kernel,
    by: By,
    head: Head,
    at: At,
    keep: bool,
) -> Result<(), NoMemory>
    requires short { length journal.old.log.steps < 200000 }
    requires of_run { HasLink trunks.old at.link }
    requires rests { trunks.old.was ≡ trunks.old.is }
    requires flies { 0 < length (flight_from (other_of at.side)
        (trunks_of trunks.old.is at.link.0).link) }
    requires node { at.node ≡ kernel.old.node }
    requires counted { HasNextAt at.side (trunks_of trunks.old.is at.link.0).link }
    requires numbers { HasNumbersLeft at.side (trunks_of trunks.old.is at.link.0) }
    requires may { (heard : AnyHeard)
        → IsReading (handed_by (other_of at.side) 0 (trunks_of trunks.old.is at.link.0).link) heard
        → MayTellNode kernel.old at
        (told_by (other_of at.side) 0 heard (trunks_of trunks.old.is at.link.0))
        (at_link at.link (delivered (other_of at.side) 0 keep heard) trunks.old.is) }
    ensures made { OnOk result (IsDelivered journal.old.log journal.new.log trunks.old trunks.new
        kernel.old kernel.new by head at keep) }
    ensures err { OnErr result ((journal.new.log ≡ journal.old.log) × (kernel.new ≡ kernel.old)
        × (trunks.new ≡ trunks.old)) }
{
    if let Err(refusal) = journal.reserve(1) {
        drop(head);
        return Err(refusal);
    }
    let up = match trunks.deliver(at.link, at.side.other(), keep) {
        Ok(up) => up,
        Err(refusal) => {
            drop(head);
            return Err(refusal);
        }
    };
    if let TrunkUp::Nothing = up {
        drop(up);
        make_still(alloc, journal, trunks, by, head, at.link);
        return Ok(());
    }
    make_told(alloc, journal, trunks, kernel, by, head, at, up)
}

/// The step of a tick of a side. A refusal changes nothing.
pub(crate) fn make_tick(
    alloc: Global,
    journal: &mut WatchedJournal,
    trunks: &mut RunTrunks,
    kernel: &mut Kernel,
    by: By,
    at: At,
) -> Result<(), NoMemory>
    requires short { length journal.old.log.steps < 200000 }
    requires of_run { HasLink trunks.old at.link }
    requires rests { trunks.old.was ≡ trunks.old.is }
    requires node { at.node ≡ kernel.old.node }
    requires counted { HasNextAt at.side (trunks_of trunks.old.is at.link.0).link }
    ensures log { OnOk result (journal.new.log ≡ record journal.old.log {
      steps = record {
        by = by;
        head = heads.Tick at.link at.side;
        effects = told_on kernel.old at (up_of_tick
            (link_told_by at.side (trunks_of trunks.old.is at.link.0).link));
      } ∷ journal.old.log.steps;
    }) }
    ensures kernel { OnOk result (kernel.new ≡ node_told kernel.old at (up_of_tick
        (link_told_by at.side (trunks_of trunks.old.is at.link.0).link))
        (length journal.old.log.steps + 1)) }
    ensures trunks { OnOk result (trunks.new ≡ resting trunks.old.links
        (at_link at.link (ticked_at at.side) trunks.old.is)) }
    ensures err { OnErr result ((journal.new.log ≡ journal.old.log) × (kernel.new ≡ kernel.old)
        × (trunks.new ≡ trunks.old)) }
{
    journal.reserve(1)?;
    let up = up_of(trunks.tick(at.link, at.side)?);
    let head = Head::Tick(at.link, at.side);
    make_told(alloc, journal, trunks, kernel, by, head, at, up)
}

/// A packet is lost, or exchanged with another one, and that stays.
pub(crate) fn pass_by(trunks: &mut RunTrunks, link: LinkNo, from: Side, verdict: Verdict)
    requires of_run { HasLink trunks.old link }
    requires rests { trunks.old.was ≡ trunks.old.is }
    requires flies { 0 < length (flight_from from (trunks_of trunks.old.is link.0).link) }
    requires passes { comes_by verdict ≡ Coming.Never }
    ensures { trunks.new ≡ resting trunks.old.links (passes_by link from verdict trunks.old.is) }
{
    match verdict {
        Verdict::Lose => trunks.lose(link, from),
        Verdict::Swap(k) => trunks.swap(link, from, k),
        Verdict::Deliver | Verdict::Repeat => unreachable!(),
    }
    trunks.keep(link);
}
