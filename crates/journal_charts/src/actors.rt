//! The actors of a journal: those that made steps, with the node and the name of the first endpoint
//! that each of them opened.
ghost use Rattle.std.specs.Prelude.{◌≡◌, OnOk, IfOk, slice_get};
ghost use Rattle.std.specs.Option.{option_copied};
ghost use Rattle.journal.specs.History.{is_by};
ghost use Rattle.journal_charts.specs.Actors.{has_actor, with_actor, with_maker, makers_of, is_open};
ghost use Rattle.journal_charts.specs.Actors.{is_opening, or_step, first_open, node_opened};
ghost use Rattle.journal_charts.specs.Actors.{node_opened_by, node_of_opening};
ghost use Rattle.journal_charts.specs.Actors.{name_of_open, name_in, numbered_name, drawn_actor};
ghost use Rattle.journal_charts.specs.Actors.{actors_of};

use crate::ends::RIGHTMOST;
use chart_drawing::{DrawnActor, put_bytes, put_number};
use journal::{By, Effect, Head, Journal, Step};
use linx_base::{Blob, NoMemory, NodeNo};
use std::alloc::Global;

fn has_actor(actors: &[u32], actor: u32) -> bool
    ensures { result ≡ has_actor actors.now actor }
{
    actors.iter().any(|a| *a == actor)
}

/// Adds an actor behind others, unless it is one of them.
fn put_actor(actors: &mut Vec<u32>, actor: u32) -> Result<(), NoMemory>
    ensures { OnOk result (actors.new.items ≡ with_actor actors.old.items actor) }
{
    if has_actor(actors, actor) {
        return Ok(());
    }
    actors.push(actor)?;
    Ok(())
}

/// Adds the maker of a step, where it is an actor.
fn put_maker(actors: &mut Vec<u32>, by: By) -> Result<(), NoMemory>
    ensures { OnOk result (actors.new.items ≡ with_maker actors.old.items by) }
{
    match by {
        By::Actor(actor) => put_actor(actors, actor),
        By::Pump(_) => Ok(()),
    }
}

/// The actors that made steps, in the order of their first ones.
fn makers_of(alloc: Global, journal: &Journal) -> Result<Vec<u32>, NoMemory>
    ensures { IfOk result (λ actors. actors.items ≡ makers_of journal.now.log.steps) }
{
    let mut actors = Vec::new(alloc);
    for done in 0..journal.len() {
        let step = journal.step_after(done);
        put_maker(&mut actors, step.by)?;
    }
    Ok(actors)
}

fn is_by(by: By, actor: u32) -> bool
    ensures { result ≡ is_by by actor }
{
    match by {
        By::Actor(a) => a == actor,
        By::Pump(_) => false,
    }
}

fn is_open(head: &Head) -> bool
    ensures { result ≡ is_open head.now }
{
    match head {
        Head::Open(_) => true,
        _ => false,
    }
}

/// Whether an actor opens an endpoint in a step.
fn is_opening(actor: u32, step: &Step) -> bool
    ensures { result ≡ is_opening actor step.now }
{
    is_by(step.by, actor) && is_open(&step.head)
}

/// What was found before, or else this step where it is one.
fn or_step<'a>(before: Option<&'a Step>, is_one: bool, step: &'a Step) -> Option<&'a Step>
    ensures { option_copied result ≡ or_step (option_copied before.entry) is_one step.now }
{
    match before {
        Some(first) => Some(first),
        None if is_one => Some(step),
        None => None,
    }
}

/// The step in which an actor opened its first endpoint.
fn first_open(journal: &Journal, actor: u32) -> Option<&Step>
    ensures { option_copied result ≡ first_open journal.now.log.steps actor }
{
    let mut first = None;
    for done in 0..journal.len() {
        let step = journal.step_after(done);
        first = or_step(first, is_opening(actor, step), step);
    }
    first
}

/// The node that an effect opens an endpoint on.
fn node_opened_by(effect: &Effect) -> NodeNo
    ensures { result ≡ node_opened_by effect.now }
{
    match effect {
        Effect::Opened(inc) => inc.node(),
        _ => RIGHTMOST,
    }
}

/// The node that a first effect opens an endpoint on.
fn node_opened(effects: &[Effect]) -> NodeNo
    ensures { result ≡ node_opened (slice_get effects.now 0) }
{
    match effects.first() {
        Some(effect) => node_opened_by(effect),
        None => RIGHTMOST,
    }
}

fn node_of_opening(opening: Option<&Step>) -> NodeNo
    ensures { result ≡ node_of_opening (option_copied opening.entry) }
{
    match opening {
        Some(step) => node_opened(step.effects.as_slice()),
        None => RIGHTMOST,
    }
}

/// The name that an opening gives, no name where there is none.
fn name_of_open(opening: Option<&Step>) -> &[u8]
    ensures { result.now ≡ name_of_open (option_copied opening.entry) }
{
    match opening {
        Some(step) => name_in(&step.head),
        None => b"",
    }
}

fn name_in(head: &Head) -> &[u8]
    ensures { result.now ≡ name_in head.now }
{
    match head {
        Head::Open(name) => name.bytes(),
        _ => b"",
    }
}

/// What an actor without a name is called.
pub(crate) fn numbered_name(alloc: Global, actor: u32) -> Result<Blob, NoMemory>
    ensures { IfOk result (λ name. name ≡ numbered_name actor) }
{
    let mut name = Vec::new(alloc);
    put_bytes(&mut name, b"A")?;
    put_number(&mut name, u64::from(actor))?;
    Blob::shared(name)
}

/// An actor with its number, and the node and the name of its first endpoint.
fn drawn_actor(alloc: Global, journal: &Journal, actor: u32) -> Result<DrawnActor, NoMemory>
    ensures { IfOk result (λ drawn. drawn ≡ drawn_actor journal.now.log.steps actor) }
{
    let opening = first_open(journal, actor);
    Ok(DrawnActor {
        actor,
        node: node_of_opening(opening),
        caption: numbered_name(alloc, actor)?,
        subcaption: Blob::of(alloc, name_of_open(opening))?,
    })
}

/// All actors that made steps.
pub(crate) fn actors_of(alloc: Global, journal: &Journal) -> Result<Vec<DrawnActor>, NoMemory>
    ensures { IfOk result (λ actors. actors.items ≡ actors_of journal.now.log.steps) }
{
    let makers = makers_of(alloc, journal)?;
    let mut actors = Vec::with_capacity(alloc, makers.len())?;
    for actor in makers.as_slice() {
        actors.push(drawn_actor(alloc, journal, *actor)?)?;
    }
    Ok(actors)
}
