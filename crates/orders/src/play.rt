//! The loop that makes the run of an order: whoever the order names takes its turn, until all is
//! over.

ghost use Rattle.std.specs.Prelude.{◌≡◌, ◌<◌, ◌≤◌, ◌^◌, true, false, drop, length, IfOk, IfErr};
ghost use Rattle.std.specs.Prelude.{OnOk, OnErr};
ghost use Rattle.orders.specs.Makers.{ready};
ghost use Rattle.orders.specs.Runs.{IsInOrder, IsNextTurn, IsStoppedAt, IsStoppedInOrder, standing};
ghost use Rattle.stage.specs.Ready.{IsSomeReady, is_ready};
ghost use Rattle.stage.specs.Stops.{IsCauseOf};
ghost use Rattle.stage.specs.Turns.{IsStoppedOf, IsTurnOf, first_layout, is_over, makers};

use fabric::StopCause;
use linx_base::LinkNo;
use order_rules::{Rule, name};
use stage::Stage;
use std::alloc::{AllocError, Global};

/// The makers that are ready, by number.
fn ready_of(alloc: Global, stage: &Stage) -> Result<Vec<u32>, AllocError>
    ensures ready { IfOk result (λ some. some.items ≡ ready stage.now.script stage.now.run) }
    ensures few { IfOk result (λ some. length some.items < 2 ^ 32) }
{
    let mut some = Vec::with_capacity(alloc, stage.maker_count() as usize)?;
    for place in 0..stage.maker_count() {
        if stage.is_ready(place + 1) {
            some.push(place + 1)?;
        }
    }
    Ok(some)
}

/// The turn of a maker that is ready, whose step makes the journal longer. A stop leaves it to be
/// made, or of it a settle that is half done.
fn take_turn(stage: &mut Stage, maker: u32) -> Result<(), StopCause>
    requires above { 0 < maker }
    requires within { maker ≤ makers stage.old.script }
    requires ready { is_ready stage.old.script stage.old.run maker ≡ true }
    requires running { is_over stage.old.run ≡ false }
    ensures ok { OnOk result (IsTurnOf stage.old.script maker stage.old.run stage.new.run) }
    ensures longer { OnOk result
        (length stage.old.run.log.steps < length stage.new.run.log.steps) }
    ensures script { stage.new.script ≡ stage.old.script }
    ensures cause { IfErr result (λ cause. IsCauseOf cause stage.new.run.log.steps) }
    ensures not_over { OnErr result (is_over stage.new.run ≡ false) }
    ensures err { OnErr result (IsStoppedOf stage.old.script maker stage.old.run stage.new.run) }
{
    let _ = stage.is_ready(maker);
    let actors = stage.actor_count();
    if maker <= actors {
        stage.turn(maker)?;
    } else {
        stage.pump(LinkNo(maker - actors))?;
    }
    Ok(())
}

/// Why a run stops to which memory was refused between two turns: where its journal is full, it
/// could make none of them either.
fn refused(stage: &Stage) -> StopCause
    ensures { IsCauseOf result stage.now.run.log.steps }
{
    if stage.journal().full() {
        StopCause::JournalFull
    } else {
        StopCause::NoMemory
    }
}

/// The next turn of an order.
fn next_turn(
    alloc: Global,
    stage: &mut Stage,
    front: &[u32],
    place: &mut usize,
    rule: &mut Rule,
) -> Result<(), StopCause>
    requires running { is_over stage.old.run ≡ false }
    requires some { IsSomeReady stage.old.script stage.old.run }
    requires within { place.old ≤ length front.now }
    ensures ok { OnOk result (IsNextTurn stage.old.script
        (standing (drop place.old front.now) rule.old stage.old.run)
        (standing (drop place.new front.now) rule.new stage.new.run)) }
    ensures longer { OnOk result
        (length stage.old.run.log.steps < length stage.new.run.log.steps) }
    ensures within { place.new ≤ length front.now }
    ensures script { stage.new.script ≡ stage.old.script }
    ensures cause { IfErr result (λ cause. IsCauseOf cause stage.new.run.log.steps) }
    ensures not_over { OnErr result (is_over stage.new.run ≡ false) }
    ensures err { OnErr result (IsStoppedAt stage.old.script
        (standing (drop place.old front.now) rule.old stage.old.run) stage.new.run) }
{
    let Ok(ready) = ready_of(alloc, stage) else {
        return Err(refused(stage));
    };
    let maker = name(front, place, rule, ready.as_slice());
    take_turn(stage, maker)
}

/// THE RUN OF AN ORDER: the turns of the front come first, of which those are passed over that would
/// make no step, and then those of the makers that the rule chooses, until all is over. It stops
/// where the journal is full, or memory is refused.
pub fn play_in_order(
    alloc: Global,
    stage: &mut Stage,
    front: &[u32],
    rule: &mut Rule,
) -> Result<(), StopCause>
    requires unstarted { stage.old.run ≡ first_layout stage.old.script }
    ensures whole { OnOk result (IsInOrder stage.old.script
        (record { left = front.now; rule = rule.old }) stage.new.run) }
    ensures script { stage.new.script ≡ stage.old.script }
    ensures front { OnErr result (IsStoppedInOrder stage.old.script
        (record { left = front.now; rule = rule.old }) stage.new.run) }
    ensures cause { IfErr result (λ cause. IsCauseOf cause stage.new.run.log.steps) }
    ensures not_over { OnErr result (is_over stage.new.run ≡ false) }
{
    let mut place = 0;
    'turns: while !stage.is_over() {
        next_turn(alloc, stage, front, &mut place, rule)?;
    }
    Ok(())
}
