//! The turns that a printed run tells.

ghost use Rattle.std.specs.Prelude.{◌≡◌, true, IfOk, OnOk};
ghost use Rattle.node_kernel.specs.Answers.{is_pumped};
ghost use Rattle.orders.specs.Turns.{begins_turn, number_of};
ghost use Rattle.text_replay.specs.Front.{is_maker, told_front, told_with};

use journal::{By, Head, Journal, Step};
use linx_base::NoMemory;
use script_lang::Script;
use std::alloc::Global;

/// Whether a step is a packet or a tick of a link.
fn is_pumped(head: &Head) -> bool
    ensures { result ≡ is_pumped head.now }
{
    matches!(head, Head::Wire(..) | Head::Tick(..))
}

/// Whether a step begins a turn.
fn begins_turn(step: &Step) -> bool
    ensures { result ≡ begins_turn step.now.by step.now.head }
{
    match step.by {
        By::Actor(_) => !is_pumped(&step.head),
        By::Pump(_) => true,
    }
}

/// Whether a maker is an actor or a link of a script.
fn is_maker(script: &Script, by: By) -> bool
    ensures { result ≡ is_maker script.now by }
{
    match by {
        By::Actor(actor) => 0 < actor && actor as usize <= script.actors().len(),
        By::Pump(link) => 0 < link.0 && link.0 as usize <= script.links().len(),
    }
}

/// The number of a maker: those of the links come behind those of the actors.
fn number_of(script: &Script, by: By) -> u32
    requires { is_maker script.now by ≡ true }
    ensures { result ≡ number_of script.now by }
{
    match by {
        By::Actor(actor) => actor,
        By::Pump(link) => script.actors().len() as u32 + link.0,
    }
}

/// The turn that a step begins, if the script has its maker.
fn add_turn(front: &mut Vec<u32>, script: &Script, step: &Step) -> Result<(), NoMemory>
    ensures { OnOk result (front.new.items ≡ told_with script.now front.old.items step.now) }
{
    if begins_turn(step) && is_maker(script, step.by) {
        front.push(number_of(script, step.by))?;
    }
    Ok(())
}

/// The turns that a journal tells, by the numbers of their makers, the oldest first.
pub(crate) fn told_front(
    alloc: Global,
    script: &Script,
    told: &Journal,
) -> Result<Vec<u32>, NoMemory>
    ensures { IfOk result (λ front. front.items ≡ told_front script.now told.now.log.steps) }
{
    let mut front = Vec::new(alloc);
    for done in 0..told.len() {
        add_turn(&mut front, script, told.step_after(done))?;
    }
    Ok(front)
}
