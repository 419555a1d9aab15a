//! The turns of a journal in rows.

ghost use Rattle.std.specs.Prelude.{◌≡◌, ◌<◌, ◌-◌, ◌^◌, ◌++◌, IfOk, OnOk};
ghost use Rattle.node_kernel.specs.Answers.{is_pumped};
ghost use Rattle.turn_lines.specs.Rows.{behind_row, is_same, rows_of, turns_in, with_turn};
ghost use Rattle.turn_lines.specs.Rows.{with_step};
ghost use Rattle.turn_lines.specs.Turns.{begins_turn, turn_makers};

use journal::{By, Head, Journal, Step};
use linx_base::NoMemory;
use std::alloc::Global;

/// Turns of one maker in a row.
#[derive(Clone, Copy, Debug, PartialEq, Eq, Hash)]
pub struct Row {
    pub maker: By,
    pub times: u64,
}

/// Whether a step is a packet or a tick of a link.
fn is_pumped(head: &Head) -> bool
    ensures { result ≡ is_pumped head.now }
{
    match head {
        Head::Wire(..) | Head::Tick(..) => true,
        _ => false,
    }
}

/// Whether a step begins a turn.
fn begins_turn(step: &Step) -> bool
    ensures { result ≡ begins_turn step.now.by step.now.head }
{
    match step.by {
        By::Actor(_) => !is_pumped(&step.head),
        By::Pump(_) => true,
    }
}

fn is_same(one: By, other: By) -> bool
    ensures { result ≡ is_same one other }
{
    match (one, other) {
        (By::Actor(one), By::Actor(other)) => one == other,
        (By::Pump(one), By::Pump(other)) => one.0 == other.0,
        _ => false,
    }
}

/// A row, and one turn behind it.
fn push_behind(rows: &mut Vec<Row>, row: Row, maker: By) -> Result<(), NoMemory>
    requires { row.times < 2 ^ 64 - 1 }
    ensures { OnOk result (rows.new.items ≡ rows.old.items ++ behind_row row maker) }
{
    if is_same(row.maker, maker) {
        let times = row.times + 1;
        rows.push(Row {
            maker: row.maker,
            times,
        })?;
        Ok(())
    } else {
        rows.push(row)?;
        rows.push(Row { maker, times: 1 })?;
        Ok(())
    }
}

/// One turn more.
#[tactic(auto, using(crate::proofs::MoreTurns::with_last, crate::proofs::MoreTurns::last_few))]
fn add_turn(rows: &mut Vec<Row>, maker: By) -> Result<(), NoMemory>
    requires { turns_in rows.old.items < 2 ^ 64 - 1 }
    ensures { OnOk result (rows.new.items ≡ with_turn rows.old.items maker) }
{
    match rows.pop() {
        Some(row) => push_behind(rows, row, maker),
        None => {
            rows.push(Row { maker, times: 1 })?;
            Ok(())
        }
    }
}

/// The turn that a step begins, if it begins one.
fn add_step(rows: &mut Vec<Row>, step: &Step) -> Result<(), NoMemory>
    requires { turns_in rows.old.items < 2 ^ 64 - 1 }
    ensures { OnOk result (rows.new.items ≡ with_step rows.old.items step.now) }
{
    if begins_turn(step) {
        add_turn(rows, step.by)
    } else {
        Ok(())
    }
}

/// The turns of a journal in rows, the oldest first.
pub(crate) fn rows_told(alloc: Global, journal: &Journal) -> Result<Vec<Row>, NoMemory>
    ensures { IfOk result (λ rows. rows.items ≡ rows_of (turn_makers journal.now.log.steps)) }
{
    let mut rows = Vec::new(alloc);
    for done in 0..journal.len() {
        let step = journal.step_after(done);
        add_step(&mut rows, step)?;
    }
    Ok(rows)
}
