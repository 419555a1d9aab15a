//! The lines of a run that are rare.
ghost use Rattle.std.specs.Prelude.{◌≡◌, ◌++◌, IfOk, OnOk};
ghost use Rattle.chart_map.specs.Rare.{is_rare_kind, is_up, same_rail, has_rail, rails_with};
ghost use Rattle.chart_map.specs.Rare.{is_rare, rare_if, rare_of};

use chart::{Column, Mark, MarkKind};
use journal::SentTo;
use linx_base::NoMemory;
use std::alloc::Global;

/// A rare line: its mark, and its place among all lines.
#[derive(Clone, Copy)]
pub(crate) struct Rare {
    pub(crate) mark: Mark,
    pub(crate) place: usize,
}

/// Whether a line of this kind is rare, whatever stands before it.
fn is_rare_kind(kind: MarkKind) -> bool
    ensures { result ≡ is_rare_kind kind }
{
    match kind {
        MarkKind::Send(SentTo::Dead)
        | MarkKind::TakeNone
        | MarkKind::Cut(_)
        | MarkKind::Mend(_)
        | MarkKind::Settle
        | MarkKind::Restart(_)
        | MarkKind::Refused
        | MarkKind::Notified
        | MarkKind::Down => true,
        _ => false,
    }
}

fn is_up(kind: MarkKind) -> bool
    ensures { result ≡ is_up kind }
{
    match kind {
        MarkKind::Up => true,
        _ => false,
    }
}

/// Whether both are the same rail.
fn same_rail(one: Column, other: Column) -> bool
    ensures { result ≡ same_rail one other }
{
    match (one, other) {
        (Column::Rail(link, node), Column::Rail(on, at)) => link.0 == on.0 && node.0 == at.0,
        _ => false,
    }
}

/// Whether a rail is one of these.
fn has_rail(rails: &[Column], rail: Column) -> bool
    ensures { result ≡ has_rail rails.now rail }
{
    rails.iter().any(|r| same_rail(*r, rail))
}

/// Whether a line is rare: a session that is up is so where its rail had one before.
fn is_rare(rails: &[Column], mark: &Mark) -> bool
    ensures { result ≡ is_rare rails.now mark.now }
{
    is_rare_kind(mark.kind) || (is_up(mark.kind) && has_rail(rails, mark.column))
}

/// Adds the rail of a mark, where a session is up on it for the first time.
fn put_rail(rails: &mut Vec<Column>, mark: &Mark) -> Result<(), NoMemory>
    ensures { OnOk result (rails.new.items ≡ rails_with rails.old.items mark.now) }
{
    if is_up(mark.kind) && !has_rail(rails, mark.column) {
        rails.push(mark.column)?;
    }
    Ok(())
}

/// Adds a line, where it is rare.
fn put_rare(
    rare: &mut Vec<Rare>,
    rails: &[Column],
    place: usize,
    mark: &Mark,
) -> Result<(), NoMemory>
    ensures { OnOk result (rare.new.items
        ≡ rare.old.items ++ rare_if rails.now place mark.now) }
{
    if is_rare(rails, mark) {
        rare.push(Rare { mark: *mark, place })?;
    }
    Ok(())
}

/// The rare ones of lines with these marks.
pub(crate) fn rare_of(alloc: Global, marks: &[Mark]) -> Result<Vec<Rare>, NoMemory>
    ensures { IfOk result (λ rare. rare.items ≡ rare_of marks.now) }
{
    let mut rare = Vec::new(alloc);
    let mut rails = Vec::new(alloc);
    for place in 0..marks.len() {
        let mark = &marks[place];
        put_rare(&mut rare, &rails, place, mark)?;
        put_rail(&mut rails, mark)?;
    }
    Ok(rare)
}
