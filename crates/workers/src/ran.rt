//! A whole run: deals out the passes, runs the workers, closes the lock, and does what is left in
//! the fixed order.
ghost use Rattle.std.specs.Prelude.{◌≡◌, ◌<◌, ◌≤◌, None, true, false, IfOk, IfSome, OnSome};
ghost use Rattle.stage.specs.Seats.{IsStaged, unstarted};
ghost use Rattle.stage.specs.Stops.{IsCauseOf};
ghost use Rattle.stage.specs.Turns.{first_layout, is_over, makers};
ghost use Rattle.workers.specs.Running.{AreFinished, AreShares, IsByWorkers, IsConcluded};
ghost use Rattle.workers.specs.Running.{jobs_with, passes_in, players_in};

use crate::bells::Bells;
use crate::worker::{End, Job, Worked, workers};
use fabric::{Fabric, StopCause};
use linx_api::SharedFabric;
use linx_base::{NoMemory, TryCopy};
use linx_outside::Gate;
use script_lang::Script;
use stage::{Player, Stage, nodes_of, players_of};
use std::alloc::Global;
use std::snapshot::Snapshot;
use std::sync::Wait;
use std::thread::Threads;
use turn_lock::{Pass, TurnLock};

/// A run after its last step, and why it stopped, if it did.
#[derive(Drop)]
pub struct Ran {
    pub stage: Stage,
    pub stop: Option<StopCause>,
}

/// A run by workers, and what they gave back.
#[derive(Drop)]
pub struct WorkedRun {
    pub ran: Ran,
    /// The workers' passes, those of the actors before those of the links.
    pub passes: Snapshot<Vec<Pass<SharedFabric>>>,
    /// Whether a worker gave up, since not all were started. What the workers left was then done
    /// in the fixed order.
    pub gave_up: bool,
}

/// The fabric of a script, without steps.
fn first_fabric(alloc: Global, script: &Script) -> Result<SharedFabric, NoMemory>
    ensures { IfOk result (λ shared. shared.run ≡ first_layout script.now) }
{
    let nodes = nodes_of(alloc, script.actors())?;
    let names = script.names().copy()?;
    SharedFabric::new(alloc, names, script.links(), nodes.as_slice())
}

/// The passes with the players of those that are actors'.
#[tactic(auto, using(crate::proofs::Jobs::jobs_more))]
fn jobs_of(
    alloc: Global,
    passes: Vec<Pass<SharedFabric>>,
    players: Vec<Player>,
) -> Result<Vec<Job>, NoMemory>
    ensures { IfOk result (λ jobs. jobs.items ≡ jobs_with passes.items players.items) }
{
    let mut jobs = Vec::with_capacity(alloc, passes.len())?;
    let mut players = players.into_iter();
    for pass in passes {
        let player = players.next();
        jobs.push(Job { pass, player })?;
    }
    Ok(jobs)
}

/// What the workers gave back: their passes, the players, and why they take no further turn.
struct Back {
    passes: Vec<Pass<SharedFabric>>,
    players: Vec<Player>,
    end: End,
}

/// Why two workers take no further turn: both are finished, or one isn't. A stop is told before
/// all else.
fn end_of_both(one: End, other: End) -> End
    ensures { result ≡ End.Finished → (one ≡ End.Finished) × (other ≡ End.Finished) }
{
    match one {
        End::Finished => other,
        End::Stopped(cause) => End::Stopped(cause),
        End::GaveUp => match other {
            End::Stopped(cause) => End::Stopped(cause),
            End::Finished | End::GaveUp => End::GaveUp,
        },
    }
}

/// Takes apart what the workers gave back.
#[tactic(auto, using(crate::proofs::Jobs::passes_more, crate::proofs::Jobs::players_more, crate::proofs::Jobs::players_still))]
fn back_of(alloc: Global, all: Vec<Worked>) -> Result<Back, NoMemory>
    ensures passes { IfOk result (λ back. back.passes.items ≡ passes_in all.items) }
    ensures players { IfOk result (λ back. back.players.items ≡ players_in all.items) }
    ensures end { IfOk result (λ back. back.end ≡ End.Finished → AreFinished all.items) }
{
    let mut passes = Vec::with_capacity(alloc, all.len())?;
    let mut players = Vec::with_capacity(alloc, all.len())?;
    let mut end = End::Finished;
    for worked in all {
        let Worked {
            pass,
            player,
            end: its,
        } = worked;
        end = end_of_both(end, its);
        passes.push(pass)?;
        if let Some(player) = player {
            players.push(player)?;
        }
    }
    Ok(Back {
        passes,
        players,
        end,
    })
}

/// What the workers leave: the fabric and the players after their last turns, their passes, and why
/// they take no further turn.
struct Left {
    fabric: Fabric,
    players: Vec<Player>,
    passes: Snapshot<Vec<Pass<SharedFabric>>>,
    end: End,
}

/// Runs the workers on a fabric without steps, each with its pass.
fn left_by_workers<R: Threads + Wait + Sync, G: Gate + Sync>(
    rt: &R,
    alloc: Global,
    script: &Script,
    gate: &G,
    shared: SharedFabric,
    players: Vec<Player>,
    seats: u32,
) -> Result<Left, NoMemory>
    requires first { shared.run ≡ first_layout script.now }
    requires players { players.items ≡ unstarted script.now.actors }
    requires seats { (seats ≡ makers script.now) × (0 < seats) × (seats ≤ 96) }
    ensures staged { IfOk result (λ left. IsStaged script.now left.fabric left.players.items) }
    ensures over { IfOk result (λ left. left.end ≡ End.Finished → is_over left.fabric ≡ true) }
    ensures shares { IfOk result (λ left. AreShares script.now left.fabric
        left.passes.value.items) }
{
    let _ = script.actors();
    let (lock, passes) = TurnLock::new(alloc, shared, seats)?;
    let bells = Bells::new(alloc, seats)?;
    let jobs = jobs_of(alloc, passes, players)?;
    let all = workers(rt, alloc, &lock, script, gate, &bells, jobs)?;
    let Back {
        passes,
        players,
        end,
    } = back_of(alloc, all)?;
    let shown = Snapshot::of(&passes);
    let Ok(shared) = lock.close(passes) else {
        unreachable!()
    };
    let fabric = shared.into_fabric();
    let _ = fabric.journal();
    Ok(Left {
        fabric,
        players,
        passes: shown,
        end,
    })
}

/// What the workers of a script leave. A script with neither actor nor link has none.
#[tactic(auto, using(crate::proofs::Dealing::first_staged, crate::proofs::Dealing::makers_of, crate::proofs::Dealing::none_over, crate::proofs::Dealing::none_shares))]
fn worked<R: Threads + Wait + Sync, G: Gate + Sync>(
    rt: &R,
    alloc: Global,
    script: &Script,
    gate: &G,
) -> Result<Left, NoMemory>
    ensures staged { IfOk result (λ left. IsStaged script.now left.fabric left.players.items) }
    ensures over { IfOk result (λ left. left.end ≡ End.Finished → is_over left.fabric ≡ true) }
    ensures shares { IfOk result (λ left. AreShares script.now left.fabric
        left.passes.value.items) }
{
    let players = players_of(alloc, script.actors())?;
    let shared = first_fabric(alloc, script)?;
    let seats = shared.fabric().actor_count() + script.links().len() as u32;
    if seats == 0 {
        return Ok(Left {
            fabric: shared.into_fabric(),
            players,
            passes: Snapshot::of(&Vec::new(alloc)),
            end: End::Finished,
        });
    }
    left_by_workers(rt, alloc, script, gate, shared, players, seats)
}

/// The cause by which a run has stopped, unless all is over: the full journal, or else that memory
/// was refused.
fn stop_of(stage: &Stage) -> Option<StopCause>
    ensures over { result ≡ None → is_over stage.now.run ≡ true }
    ensures cause { IfSome result (λ cause. IsCauseOf cause stage.now.run.log.steps) }
    ensures not_over { OnSome result (is_over stage.now.run ≡ false) }
{
    if stage.is_over() {
        return None;
    }
    if stage.journal().full() {
        return Some(StopCause::JournalFull);
    }
    Some(StopCause::NoMemory)
}

/// Does the rest in the fixed order, and answers why it stopped, if it did.
fn finish(stage: &mut Stage) -> Option<StopCause>
    ensures behind { IsConcluded true result stage.old.script stage.old.run stage.new.run }
    ensures script { stage.new.script ≡ stage.old.script }
    ensures over { result ≡ None → is_over stage.new.run ≡ true }
    ensures cause { IfSome result (λ cause. IsCauseOf cause stage.new.run.log.steps) }
    ensures not_over { OnSome result (is_over stage.new.run ≡ false) }
{
    match stage.finish() {
        Ok(()) => None,
        Err(cause) => Some(cause),
    }
}

/// A run that its workers have left, at its end: what they left undone where one gave up is done in
/// the fixed order, and then it is answered that one did.
fn concluded(mut stage: Stage, end: End) -> (Ran, bool)
    requires { end ≡ End.Finished → is_over stage.run ≡ true }
    ensures script { result.0.stage.script ≡ stage.script }
    ensures over { result.0.stop ≡ None → is_over result.0.stage.run ≡ true }
    ensures cause { IfSome result.0.stop (λ cause. IsCauseOf cause result.0.stage.run.log.steps) }
    ensures not_over { OnSome result.0.stop (is_over result.0.stage.run ≡ false) }
    ensures behind { IsConcluded result.1 result.0.stop stage.script stage.run
        result.0.stage.run }
{
    match end {
        End::Finished => (Ran { stage, stop: None }, false),
        End::Stopped(_) => {
            let stop = stop_of(&stage);
            (Ran { stage, stop }, false)
        }
        End::GaveUp => {
            let stop = finish(&mut stage);
            (Ran { stage, stop }, true)
        }
    }
}

/// Runs a script, with a thread for each actor and each link. The run is over, or tells the stop
/// that it met: a full journal, or want of memory. Where a worker gave up, what it left is done in
/// the fixed order, which the run then says.
pub fn run<R: Threads + Wait + Sync, G: Gate + Sync>(
    rt: &R,
    alloc: Global,
    script: Script,
    gate: &G,
) -> Result<WorkedRun, NoMemory>
    ensures script { IfOk result (λ worked. worked.ran.stage.script ≡ script) }
    ensures over { IfOk result (λ worked. worked.ran.stop ≡ None
        → is_over worked.ran.stage.run ≡ true) }
    ensures cause { IfOk result (λ worked. IfSome worked.ran.stop (λ cause.
        IsCauseOf cause worked.ran.stage.run.log.steps)) }
    ensures not_over { IfOk result (λ worked. OnSome worked.ran.stop
        (is_over worked.ran.stage.run ≡ false)) }
    ensures workers { IfOk result (IsByWorkers script) }
{
    let Left {
        fabric,
        players,
        passes,
        end,
    } = worked(rt, alloc, &script, gate)?;
    let stage = Stage::resume(alloc, script, fabric, players);
    let (ran, gave_up) = concluded(stage, end);
    Ok(WorkedRun {
        ran,
        passes,
        gave_up,
    })
}
