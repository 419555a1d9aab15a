//! What an actor asks for, on a fabric that is at hand: the step, and after a settle the steps that
//! settle the link.

ghost use Rattle.std.specs.Prelude.{◌≡◌, true, false, is_some, None, IfOk, IfErr, OnOk, OnErr, Err};
ghost use Rattle.journal.specs.Laws.{IsMaker};
ghost use Rattle.journal.specs.Logs.{is_full};
ghost use Rattle.journal.specs.declared.by.By.TheVariants.{Actor};
ghost use Rattle.link_laws.specs.Ends.{IsLinkOf};
ghost use Rattle.link_laws.specs.Sessions.{is_cut};
ghost use Rattle.run_trunks.specs.States.{trunks_of};
ghost use Rattle.fabric.specs.Actings.{OnlyRuns};
ghost use Rattle.fabric.specs.Asks.{MayAsk};
ghost use Rattle.fabric.specs.Links.{are_plans_ended};
ghost use Rattle.fabric.specs.Run.{IsStepped};
ghost use Rattle.stage.specs.Settlings.{GoesOnAfter, IsActedAs, IsSettled, MayGoOn, MaySettle};
ghost use Rattle.stage.specs.Settlings.{StopsAfter, StopsSettling, if_stirs, settled_by};
ghost use Rattle.stage.specs.Settlings.{settler_after, settler_by, settler_in, stirs_on, ticks_of};
ghost use Rattle.stage.specs.Stops.{IsCauseOf};
ghost use Rattle.stage.specs.Turns.{shape_of};

use crate::pump::settling_event;
use fabric::{Fabric, StepStop, StopCause};
use journal::{By, Event, Head, Step};
use linx_base::LinkNo;
use node_kernel::{Ask, StepAnswer};
use run_settling::{links_come_to_rest, runs_settle};
use script_lang::Script;

/// What came of what an actor asked for.
#[derive(Drop)]
pub enum Acted {
    /// It was done, and this is the answer.
    Done(StepAnswer),
    /// The step of a settle was made and answered, and then the settling stopped.
    Halfway(StepAnswer, StopCause),
    /// Nothing was done: what was in hand is back.
    Stopped(StepStop),
}

/// Whether an actor settles a link, and isn't done: then nothing else is to be done before.
pub fn is_settling(fabric: &Fabric, script: &Script) -> bool
    requires { fabric.now.shape ≡ shape_of script.now }
    ensures { result ≡ is_some (settler_in fabric.now) }
{
    let journal = fabric.journal();
    match journal.step(journal.len()) {
        Some(step) => is_under_way(fabric, script, step),
        None => false,
    }
}

/// Whether the maker of such a last step is an actor that settles a link that stirs.
fn is_under_way(fabric: &Fabric, script: &Script, step: &Step) -> bool
    requires { fabric.now.shape ≡ shape_of script.now }
    ensures { result ≡ is_some (if_stirs fabric.now.shape fabric.now.log.steps
        (trunks_of fabric.now.trunks)
        (settler_after fabric.now.log.steps step.now.by step.now.head)) }
{
    match step.by {
        By::Actor(actor) => goes_on(fabric, script, actor, &step.head),
        By::Pump(_) => false,
    }
}

/// Whether an actor whose last step has this head settles a link that stirs.
fn goes_on(fabric: &Fabric, script: &Script, actor: u32, head: &Head) -> bool
    requires { fabric.now.shape ≡ shape_of script.now }
    ensures { result ≡ is_some (if_stirs fabric.now.shape fabric.now.log.steps
        (trunks_of fabric.now.trunks) (settler_by fabric.now.log.steps actor head.now)) }
{
    match head {
        Head::Settle(link) => stirs_on(fabric, script, *link) && !fabric.is_cut(*link),
        Head::Wire(link, ..) | Head::Tick(link, _) => stirs_on(fabric, script, *link),
        _ => false,
    }
}

/// Whether a link is one of the script, and stirs.
fn stirs_on(fabric: &Fabric, script: &Script, link: LinkNo) -> bool
    requires { fabric.now.shape ≡ shape_of script.now }
    ensures { result ≡ stirs_on fabric.now.shape fabric.now.log.steps
        (trunks_of fabric.now.trunks) link }
{
    if link.0 == 0 || link.0 as usize > script.links().len() {
        return false;
    }
    fabric.stirs(link)
}

/// How many ticks an event is.
fn ticks_of(event: &Event) -> u32
    ensures { result ≡ ticks_of event.now }
{
    match event {
        Event::Tick { .. } => 1,
        _ => 0,
    }
}

/// Makes the step of an event, with nothing in hand.
pub(crate) fn make_step(fabric: &mut Fabric, by: By, event: Event) -> Result<StepAnswer, StopCause>
    requires asked { MayAsk fabric.old by (record { event = event; hand = None }) }
    ensures ok { IfOk result (IsStepped fabric.old fabric.new by
        (record { event = event; hand = None })) }
    ensures fixed { OnlyRuns fabric.old fabric.new }
    ensures full { is_full fabric.old.log.steps ≡ true → result ≡ Err StopCause.JournalFull }
    ensures cause { IfErr result (λ cause. IsCauseOf cause fabric.new.log.steps) }
    ensures err { OnErr result (fabric.new ≡ fabric.old) }
{
    match fabric.step(by, event, None) {
        Ok(answer) => Ok(answer),
        Err(stop) => Err(stop.cause),
    }
}

/// Settles a link: makes the steps of its pump, as this maker, until the link doesn't stir. It
/// answers how many ticks that took: six at most, and then both sides are up with each other and
/// were given all that was said. It comes to its end because links come to rest: each packet that
/// comes leaves less to do, and then a tick less is left. A stop leaves the steps that were made.
pub fn settle(fabric: &mut Fabric, by: By, link: LinkNo) -> Result<u32, StopCause>
    requires declared { IsLinkOf fabric.old.shape link }
    requires maker { IsMaker fabric.old.shape fabric.old.log.steps by }
    requires may { MaySettle by link }
    requires whole { is_cut fabric.old.log.steps link.0 ≡ false }
    requires settled { are_plans_ended fabric.old.log.steps link.0 ≡ true }
    ensures ok { IfOk result (λ ticks. IsSettled by link ticks fabric.old fabric.new) }
    ensures err { OnErr result (StopsSettling by link fabric.old fabric.new) }
    ensures cause { IfErr result (λ cause. IsCauseOf cause fabric.new.log.steps) }
    ensures fixed { OnlyRuns fabric.old fabric.new }
{
    runs_settle();
    links_come_to_rest();
    let _ = fabric.journal();
    let mut ticks = 0;
    'steps: while let Some(event) = settling_event(fabric, link) {
        let more = ticks_of(&event);
        make_step(fabric, by, event)?;
        ticks += more;
    }
    Ok(ticks)
}

/// The link that an event settles, if it settles one.
fn settled_by(event: &Event) -> Option<LinkNo>
    ensures { result ≡ settled_by event.now }
{
    match event {
        Event::Settle(link) => Some(*link),
        _ => None,
    }
}

/// What an actor does after a step that settles this link, in the same turn.
fn go_on(fabric: &mut Fabric, actor: u32, settled: Option<LinkNo>) -> Result<(), StopCause>
    requires may { MayGoOn settled actor fabric.old }
    ensures ok { OnOk result (GoesOnAfter settled actor fabric.old fabric.new) }
    ensures err { OnErr result (StopsAfter settled actor fabric.old fabric.new) }
    ensures cause { IfErr result (λ cause. IsCauseOf cause fabric.new.log.steps) }
    ensures fixed { OnlyRuns fabric.old fabric.new }
{
    let Some(link) = settled else {
        return Ok(());
    };
    if fabric.is_cut(link) {
        return Ok(());
    }
    settle(fabric, By::Actor(actor), link)?;
    Ok(())
}

/// Makes the step of what an actor asks for, and settles the link where that was a settle of one
/// that isn't cut.
pub fn act(fabric: &mut Fabric, actor: u32, ask: Ask) -> Acted
    requires asks { MayAsk fabric.old (Actor actor) ask }
    ensures came { IsActedAs fabric.old fabric.new actor ask result }
    ensures full { is_full fabric.old.log.steps ≡ true
        → result ≡ Acted.Stopped (record { cause = StopCause.JournalFull; hand = ask.hand }) }
    ensures fixed { OnlyRuns fabric.old fabric.new }
{
    let Ask { event, hand } = ask;
    let settled = settled_by(&event);
    match fabric.step(By::Actor(actor), event, hand) {
        Ok(answer) => match go_on(fabric, actor, settled) {
            Ok(()) => Acted::Done(answer),
            Err(cause) => Acted::Halfway(answer, cause),
        },
        Err(stop) => Acted::Stopped(stop),
    }
}

/// The cause of the stop of a turn that is to wait until a link is settled.
pub fn unsettled(fabric: &Fabric) -> StopCause
    ensures { IsCauseOf result fabric.now.log.steps }
{
    if fabric.journal().full() {
        StopCause::JournalFull
    } else {
        StopCause::NoMemory
    }
}
