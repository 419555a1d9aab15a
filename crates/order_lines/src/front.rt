//! The makers that the orders of a text list.

ghost use Rattle.std.specs.Prelude.{◌≡◌, ◌++◌, ◌<◌, ◌≤◌, ◌^◌, drop, length, map, IfErr, IfOk, OnOk};
ghost use Rattle.order_lines.specs.Fronts.{front_of, with_line, with_turns, with_words};
ghost use Rattle.order_lines.specs.Faults.{IsBadOf, error_in};
ghost use Rattle.order_lines.specs.Turns.{written_out};
ghost use Rattle.script_words.specs.Gives.{Gives};

use crate::lines::is_order_line;
use crate::turns::{Makers, TURNS_MOST, Turns, turns_spelled, wrong};
use linx_base::NoMemory;
use script_lang::ScriptError;
use script_words::{BadKind, LineError, first_line, words_of_line};
use std::alloc::Global;

/// The makers of so many turns.
fn push_turns(front: &mut Vec<u32>, turns: Turns) -> Result<(), NoMemory>
    ensures { OnOk result (front.new.items ≡ front.old.items ++ written_out turns) }
{
    'turns: for _ in 0..turns.times {
        front.push(turns.maker)?;
    }
    Ok(())
}

/// The turns of a word.
fn add_turns(front: &mut Vec<u32>, word: &[u8], turns: Turns) -> Result<(), LineError>
    requires some { turns.times ≤ 200000 }
    requires few { length front.old.items ≤ 200000 }
    ensures gives { Gives (λ done. front.new.items) result
        (with_turns front.old.items word.now turns) }
    ensures few { OnOk result (length front.new.items ≤ 200000) }
{
    if front.len() + turns.times as usize > TURNS_MOST as usize {
        return Err(wrong(BadKind::OverLimit, word));
    }
    push_turns(front, turns)?;
    Ok(())
}

/// The turns of words.
fn add_words(makers: Makers, front: &mut Vec<u32>, words: &[&[u8]]) -> Result<(), LineError>
    requires actors { makers.actors ≤ 64 }
    requires links { makers.links ≤ 64 }
    requires few { length front.old.items ≤ 200000 }
    ensures gives { Gives (λ done. front.new.items) result
        (with_words makers front.old.items (map (λ w. w.now) words.now)) }
    ensures few { OnOk result (length front.new.items ≤ 200000) }
{
    'words: for word in words {
        let turns = turns_spelled(makers, word)?;
        add_turns(front, word, turns)?;
    }
    Ok(())
}

/// The turns of a line.
fn add_line(
    alloc: Global,
    makers: Makers,
    front: &mut Vec<u32>,
    line: &[u8],
) -> Result<(), LineError>
    requires actors { makers.actors ≤ 64 }
    requires links { makers.links ≤ 64 }
    requires few { length front.old.items ≤ 200000 }
    ensures gives { Gives (λ done. front.new.items) result
        (with_line makers front.old.items line.now) }
    ensures few { OnOk result (length front.new.items ≤ 200000) }
{
    if !is_order_line(line) {
        return Ok(());
    }
    let words = words_of_line(alloc, line)?;
    match words.as_slice() {
        [_, behind @ ..] => add_words(makers, front, behind),
        [] => Ok(()),
    }
}

/// What is wrong with the line of a number.
fn error_at(line: u32, error: LineError) -> ScriptError
    ensures { result ≡ error_in error line }
{
    match error {
        LineError::Bad(fault) => ScriptError::Bad { line, fault },
        LineError::NoMemory => ScriptError::NoMemory,
    }
}

/// The makers that the orders of a text list, in the order of their turns.
pub(crate) fn front_of(alloc: Global, makers: Makers, bytes: &[u8]) -> Result<Vec<u32>, ScriptError>
    requires actors { makers.actors ≤ 64 }
    requires links { makers.links ≤ 64 }
    requires short { length bytes.now < 2 ^ 32 }
    ensures read { IfOk result (λ front. front_of makers bytes.now ≡ Ok front.items) }
    ensures bad { IfErr result (λ e. IsBadOf (front_of makers bytes.now) e) }
{
    let mut front = Vec::new(alloc);
    let mut rest = bytes;
    let mut line = 0;
    'lines: while !rest.is_empty() {
        let (next, behind) = first_line(rest);
        line += 1;
        match add_line(alloc, makers, &mut front, next) {
            Ok(()) => {}
            Err(error) => return Err(error_at(line, error)),
        }
        rest = behind;
    }
    Ok(front)
}
