//! Where two outcomes differ first, actor by actor.

ghost use Rattle.std.specs.Prelude.{◌≡◌, ◌++◌, map, option_map, slice_get, IfOk, OnOk};
ghost use Rattle.run_outcomes.specs.Differences.{apart_at, apart_line, apart_text, are_same};
ghost use Rattle.run_outcomes.specs.Differences.{difference, differences_text, line_told};
ghost use Rattle.run_outcomes.specs.Differences.{lines_told, shown, told_in};
ghost use Rattle.run_outcomes.specs.Outcomes.{name_of};

use crate::outcome::write_name;
use crate::values::{write_bytes, write_number, write_text};
use linx_base::NoMemory;
use script_words::first_line;
use std::alloc::Global;

/// Adds a line, if it begins with the name of an actor.
fn push_told<'a>(lines: &mut Vec<&'a [u8]>, name: &[u8], line: &'a [u8]) -> Result<(), NoMemory>
    ensures { OnOk result (map (λ l. l.now) lines.new.items
        ≡ map (λ l. l.now) lines.old.items ++ line_told name.now line.now) }
{
    if line.starts_with(name) {
        lines.push(line)?;
        Ok(())
    } else {
        Ok(())
    }
}

/// The lines of an outcome that begin with the name of an actor.
fn lines_told<'a>(alloc: Global, name: &[u8], outcome: &'a [u8]) -> Result<Vec<&'a [u8]>, NoMemory>
    ensures { IfOk result (λ lines.
        map (λ l. l.now) lines.items ≡ lines_told name.now outcome.now) }
{
    let mut lines = Vec::new(alloc);
    let mut rest = outcome;
    'lines: while !rest.is_empty() {
        let (line, behind) = first_line(rest);
        push_told(&mut lines, name, line)?;
        rest = behind;
    }
    Ok(lines)
}

/// What a line tells: what stands behind the name of its actor, without its line feed.
fn told_in<'a>(name: &[u8], line: &'a [u8]) -> &'a [u8]
    ensures { result.now ≡ told_in name.now line.now }
{
    let text = &line[..line.len().saturating_sub(1)];
    match text.get(name.len()..) {
        Some(told) => told,
        None => &[],
    }
}

/// The same, or `-` where there is no line.
fn write_shown(out: &mut Vec<u8>, name: &[u8], line: Option<&[u8]>) -> Result<(), NoMemory>
    ensures { OnOk result (out.new.items ≡ out.old.items
        ++ shown name.now (option_map (λ l. l.now) line.entry)) }
{
    match line {
        Some(line) => write_bytes(out, told_in(name, line)),
        None => write_text(out, "-"),
    }
}

/// The line of a difference.
#[tactic(auto, unfolding(crate::specs::Differences::apart_line))]
fn write_apart(
    out: &mut Vec<u8>,
    name: &[u8],
    place: usize,
    one: Option<&[u8]>,
    other: Option<&[u8]>,
) -> Result<(), NoMemory>
    ensures { OnOk result (out.new.items ≡ out.old.items ++ apart_line name.now
        (record {
          place = place;
          one = option_map (λ l. l.now) one.entry;
          other = option_map (λ l. l.now) other.entry;
        })) }
{
    write_text(out, "- ")?;
    write_bytes(out, name)?;
    write_number(out, place as u64)?;
    write_text(out, " ")?;
    write_shown(out, name, one)?;
    write_text(out, " / ")?;
    write_shown(out, name, other)?;
    write_text(out, "\n")
}

/// The line at a place.
fn line_at<'a>(lines: &[&'a [u8]], place: usize) -> Option<&'a [u8]>
    ensures { option_map (λ l. l.now) result ≡ slice_get (map (λ l. l.now) lines.now) place }
{
    match lines.get(place) {
        Some(line) => Some(*line),
        None => None,
    }
}

/// Whether two lines are the same, or neither is there.
fn are_same(one: Option<&[u8]>, other: Option<&[u8]>) -> bool
    ensures { result ≡ are_same (option_map (λ l. l.now) one.entry)
        (option_map (λ l. l.now) other.entry) }
{
    match (one, other) {
        (Some(one), Some(other)) => one == other,
        (None, None) => true,
        _ => false,
    }
}

/// The line of the first difference of two lists of lines, if there is one.
fn write_first(
    out: &mut Vec<u8>,
    name: &[u8],
    one: &[&[u8]],
    other: &[&[u8]],
) -> Result<(), NoMemory>
    ensures { OnOk result (out.new.items ≡ out.old.items ++ apart_text name.now
        (apart_at 1 (map (λ l. l.now) one.now) (map (λ l. l.now) other.now))) }
{
    let mut place = 0;
    'lines: while place < one.len() || place < other.len() {
        let (here, there) = (line_at(one, place), line_at(other, place));
        if !are_same(here, there) {
            return write_apart(out, name, place + 1, here, there);
        }
        place += 1;
    }
    Ok(())
}

/// The line of the first difference of what an actor was told, if there is one.
fn write_difference(
    alloc: Global,
    out: &mut Vec<u8>,
    actor: u32,
    one: &[u8],
    other: &[u8],
) -> Result<(), NoMemory>
    ensures { OnOk result (out.new.items ≡ out.old.items
        ++ apart_text (name_of actor) (difference actor one.now other.now)) }
{
    let mut name = Vec::new(alloc);
    write_name(&mut name, actor)?;
    let here = lines_told(alloc, name.as_slice(), one)?;
    let there = lines_told(alloc, name.as_slice(), other)?;
    write_first(out, name.as_slice(), here.as_slice(), there.as_slice())
}

/// Appends the differences of two outcomes: a line for the first one of each of so many actors.
pub fn write_differences(
    alloc: Global,
    out: &mut Vec<u8>,
    actors: u32,
    one: &[u8],
    other: &[u8],
) -> Result<(), NoMemory>
    ensures { OnOk result (out.new.items
        ≡ out.old.items ++ differences_text actors one.now other.now) }
{
    for before in 0..actors {
        write_difference(alloc, out, before + 1, one, other)?;
    }
    Ok(())
}
