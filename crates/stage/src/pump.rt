//! The pump's rule: what a link does next by itself, as its plans say.

ghost use Rattle.std.specs.Prelude.{◌≡◌, ◌<◌, true, length, is_some, None, Err, IfOk, IfErr, OnErr};
ghost use Rattle.std.specs.Prelude.{IsErr};
ghost use Rattle.carrier.specs.Events.{flight_from};
ghost use Rattle.journal.specs.Logs.{is_full};
ghost use Rattle.link_laws.specs.Ends.{IsLinkOf};
ghost use Rattle.run_trunks.specs.States.{trunks_of};
ghost use Rattle.fabric.specs.Actings.{OnlyRuns};
ghost use Rattle.stage.specs.Pumps.{flying_side, in_turn, next_ticking, pump_event};
ghost use Rattle.stage.specs.Pumps.{settling_event, ticked_by, up_side, verdict_for, verdict_or};
ghost use Rattle.stage.specs.Settlings.{settler_in, stirs_in};
ghost use Rattle.stage.specs.Stops.{IsCauseOf};
ghost use Rattle.stage.specs.Turns.{IsDueForLink, IsFullForLink, IsPump, shape_of};

use crate::acting::{is_settling, make_step, unsettled};
use crate::stage::Pump;
use fabric::{Fabric, StopCause};
use journal::{By, Event};
use linx_base::{LinkNo, Side, Verdict};
use script_lang::Script;

/// What the pump of a link asks for: none exactly where the link doesn't stir.
pub fn pump_event(fabric: &Fabric, script: &Script, link: LinkNo) -> Option<Event>
    requires shape { fabric.now.shape ≡ shape_of script.now }
    requires declared { IsLinkOf fabric.now.shape link }
    ensures { result ≡ pump_event script.now fabric.now.log.steps
        (trunks_of fabric.now.trunks) link }
{
    match flying_side(fabric, link) {
        Some(from) => {
            let verdict = verdict_for(fabric, script, link, from);
            Some(Event::Wire {
                link,
                from,
                verdict,
            })
        }
        None => tick_event(fabric, link),
    }
}

/// What the steps that settle a link that isn't cut are: each packet is delivered, and where none
/// is in flight, a side ticks. None exactly where the link doesn't stir.
pub(crate) fn settling_event(fabric: &Fabric, link: LinkNo) -> Option<Event>
    requires declared { IsLinkOf fabric.now.shape link }
    ensures { result ≡ settling_event fabric.now.log.steps (trunks_of fabric.now.trunks) link }
{
    match flying_side(fabric, link) {
        Some(from) => Some(Event::Wire {
            link,
            from,
            verdict: Verdict::Deliver,
        }),
        None => tick_event(fabric, link),
    }
}

/// The tick of the side that ticks next, if one does.
fn tick_event(fabric: &Fabric, link: LinkNo) -> Option<Event>
    requires declared { IsLinkOf fabric.now.shape link }
    ensures { result ≡ ticked_by link
        (next_ticking fabric.now.log.steps (trunks_of fabric.now.trunks) link) }
{
    match next_ticking(fabric, link) {
        Some(side) => Some(Event::Tick { link, side }),
        None => None,
    }
}

/// The side whose packet comes next: the first one, where packets from both are in flight.
fn flying_side(fabric: &Fabric, link: LinkNo) -> Option<Side>
    requires declared { IsLinkOf fabric.now.shape link }
    ensures { result ≡ flying_side (trunks_of fabric.now.trunks link.0) }
{
    if fabric.in_flight(link, Side::First) > 0 {
        return Some(Side::First);
    }
    if fabric.in_flight(link, Side::Second) > 0 {
        return Some(Side::Second);
    }
    None
}

/// The side that ticks next, where no packet is in flight: of a cut link one that is up, and of
/// another one that stirs the two by turns.
fn next_ticking(fabric: &Fabric, link: LinkNo) -> Option<Side>
    requires declared { IsLinkOf fabric.now.shape link }
    ensures { result ≡ next_ticking fabric.now.log.steps (trunks_of fabric.now.trunks) link }
{
    if fabric.is_cut(link) {
        return up_side(fabric, link);
    }
    if fabric.stirs(link) {
        return Some(in_turn(fabric.tick_steps(link)));
    }
    None
}

/// The first side of a link that is up.
fn up_side(fabric: &Fabric, link: LinkNo) -> Option<Side>
    requires declared { IsLinkOf fabric.now.shape link }
    ensures { result ≡ up_side (trunks_of fabric.now.trunks link.0) }
{
    if fabric.is_up(link, Side::First) {
        return Some(Side::First);
    }
    if fabric.is_up(link, Side::Second) {
        return Some(Side::Second);
    }
    None
}

/// The side whose turn it is after so many ticks.
fn in_turn(ticks: u64) -> Side
    ensures { result ≡ in_turn ticks }
{
    if ticks % 2 == 0 {
        Side::First
    } else {
        Side::Second
    }
}

/// The verdict of the next packet from a side: it is lost while the link is cut; else it is as the
/// plan says, and delivered where the plan is used up or the link was settled.
fn verdict_for(fabric: &Fabric, script: &Script, link: LinkNo, from: Side) -> Verdict
    requires shape { fabric.now.shape ≡ shape_of script.now }
    requires declared { IsLinkOf fabric.now.shape link }
    ensures { result ≡ verdict_for script.now fabric.now.log.steps link from }
{
    if fabric.is_cut(link) {
        return Verdict::Lose;
    }
    if fabric.are_plans_ended(link) {
        return Verdict::Deliver;
    }
    // each link of a script has a name, so that the script declares this one
    let _ = script.links();
    planned(script.plan(link, from), fabric.wire_steps(link, from))
}

/// The verdict in this place of a plan, or to deliver.
fn planned(plan: &[Verdict], used: u64) -> Verdict
    ensures { result ≡ verdict_or plan.now used }
{
    match plan.get(used as usize) {
        Some(verdict) => *verdict,
        None => Verdict::Deliver,
    }
}

/// One turn of a link's pump, on a fabric that is at hand. A stop leaves it to be made, and nothing
/// changed: the journal is full, memory was refused, or an actor settles a link and isn't done.
pub fn pump_on(fabric: &mut Fabric, script: &Script, link: LinkNo) -> Result<Pump, StopCause>
    requires shape { fabric.old.shape ≡ shape_of script.now }
    requires declared { IsLinkOf fabric.old.shape link }
    ensures ok { IfOk result (IsPump script.now link fabric.old fabric.new) }
    ensures settling { is_some (settler_in fabric.old) ≡ true → IsErr result }
    ensures full { IsFullForLink fabric.old link → result ≡ Err StopCause.JournalFull }
    ensures cause { IfErr result (λ cause. IsCauseOf cause fabric.new.log.steps) }
    ensures due { OnErr result (IsDueForLink fabric.old link) }
    ensures fixed { OnlyRuns fabric.old fabric.new }
    ensures err { OnErr result (fabric.new ≡ fabric.old) }
{
    if is_settling(fabric, script) {
        return Err(unsettled(fabric));
    }
    pump_turn(fabric, script, link)
}

/// One turn of a link's pump, whoever settles a link. A stop leaves it to be made, and nothing
/// changed: memory was refused, or the journal is full and a step is due.
pub(crate) fn pump_turn(
    fabric: &mut Fabric,
    script: &Script,
    link: LinkNo,
) -> Result<Pump, StopCause>
    requires shape { fabric.old.shape ≡ shape_of script.now }
    requires declared { IsLinkOf fabric.old.shape link }
    ensures ok { IfOk result (IsPump script.now link fabric.old fabric.new) }
    ensures full { is_full fabric.old.log.steps ≡ true → stirs_in fabric.old link ≡ true
        → result ≡ Err StopCause.JournalFull }
    ensures cause { IfErr result (λ cause. IsCauseOf cause fabric.new.log.steps) }
    ensures due { OnErr result (IsDueForLink fabric.old link) }
    ensures fixed { OnlyRuns fabric.old fabric.new }
    ensures err { OnErr result (fabric.new ≡ fabric.old) }
{
    // a script's verdicts are within their limits
    let _ = script.links();
    let Some(event) = pump_event(fabric, script, link) else {
        return Ok(Pump::NoWork);
    };
    make_step(fabric, By::Pump(link), event)?;
    Ok(Pump::Moved)
}
