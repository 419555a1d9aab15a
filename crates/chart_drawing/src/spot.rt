//! Where each mark stands.
ghost use Rattle.std.specs.Prelude.{◌≡◌, ◌++◌, List, OnOk, IfOk, slice_get, not, false, Some};
ghost use Rattle.std.specs.Option.{option_copied};
ghost use Rattle.chart_drawing.specs.Layout.{IsNarrow};
ghost use Rattle.chart_drawing.specs.Spots.{spot_of, spot_if, spots_from, standing_of, seen_of};
ghost use Rattle.chart_drawing.specs.Spots.{same_column, is_spot_of, is_tie_of, ties_of};

use crate::columns::{column_left, is_turned};
use crate::fold::{is_effect_first, is_folded, quiet_with, row_behind, row_of_mark};
use crate::seen::stands_in;
use crate::setting::Setting;
use crate::spots::Spots;
use crate::view::{View, is_of_makers, is_seen};
use chart::{Column, Mark, Tie};
use journal::By;
use linx_base::NoMemory;
use std::alloc::Global;

/// Where a mark stands: its place among all, its row, whether it is seen, whether it shares the row of
/// a mark before, whether an effect comes next, the left edge of its cell, and whether it is turned to
/// the left.
#[derive(Clone, Copy, Debug, PartialEq, Eq)]
pub struct Spot {
    pub mark: Mark,
    pub place: usize,
    pub row: u16,
    pub seen: bool,
    pub folded: bool,
    pub told: bool,
    pub x: u16,
    pub turned: bool,
}

/// The spot of a mark at a place, before further marks, where the next row has this number.
fn spot_of(
    setting: &Setting,
    place: usize,
    row: u16,
    quiet: bool,
    mark: &Mark,
    more: &[Mark],
) -> Spot
    requires { IsNarrow setting.now }
    ensures { result ≡ spot_of setting.now place row quiet mark.now more.now }
{
    Spot {
        mark: *mark,
        place,
        row: row_of_mark(&setting.view, quiet, row, mark, more),
        seen: is_seen(&setting.view, mark),
        folded: is_folded(&setting.view, quiet, mark, more),
        told: is_effect_first(more),
        x: column_left(setting, mark.column),
        turned: is_turned(setting, mark.column),
    }
}

/// The spot of a mark that is seen, or that stands in a column that is.
fn put_spot(
    out: &mut Vec<Spot>,
    setting: &Setting,
    place: usize,
    row: u16,
    quiet: bool,
    mark: &Mark,
    more: &[Mark],
) -> Result<(), NoMemory>
    requires { IsNarrow setting.now }
    ensures { OnOk result (out.new.items
        ≡ out.old.items ++ spot_if setting.now place row quiet mark.now more.now) }
{
    if is_seen(&setting.view, mark) || stands_in(setting, mark) {
        out.push(spot_of(setting, place, row, quiet, mark, more))?;
    }
    Ok(())
}

/// The spots of marks, in the same order, of which the first has this row.
pub(crate) fn spots_from(
    alloc: Global,
    setting: &Setting,
    first: u16,
    marks: &[Mark],
) -> Result<Vec<Spot>, NoMemory>
    requires { IsNarrow setting.now }
    ensures { IfOk result (λ spots. spots.items
        ≡ spots_from setting.now 0 first false marks.now) }
{
    let mut spots = Vec::new(alloc);
    let mut row = first;
    let mut quiet = false;
    for place in 0..marks.len() {
        let more = &marks[place + 1..];
        put_spot(&mut spots, setting, place, row, quiet, &marks[place], more)?;
        row = row_behind(&setting.view, quiet, row, &marks[place], more);
        quiet = quiet_with(&setting.view, quiet, &marks[place], more);
    }
    Ok(spots)
}

/// The spots that share no row of a mark before.
pub(crate) fn standing_of(alloc: Global, spots: &[Spot]) -> Result<Vec<Spot>, NoMemory>
    ensures { IfOk result (λ standing. standing.items ≡ standing_of spots.now) }
{
    let mut standing = Vec::from_slice(alloc, spots)?;
    standing.retain(|s| !s.folded);
    Ok(standing)
}

/// The spots of the marks that are seen.
pub(crate) fn seen_of(alloc: Global, spots: &[Spot]) -> Result<Vec<Spot>, NoMemory>
    ensures { IfOk result (λ seen. seen.items ≡ seen_of spots.now) }
{
    let mut seen = Vec::from_slice(alloc, spots)?;
    seen.retain(|s| s.seen);
    Ok(seen)
}

/// Whether there is a spot, and its mark is of one of these makers.
fn is_spot_of(makers: &[By], spot: Option<&Spot>) -> bool
    ensures { result ≡ is_spot_of makers.now (option_copied spot.entry) }
{
    match spot {
        Some(spot) => is_of_makers(makers, &spot.mark),
        None => false,
    }
}

/// Whether one of the marks that a tie joins is of one of these makers.
fn joins(makers: &[By], spots: &Spots, tie: &Tie) -> bool
    ensures { result ≡ is_tie_of (Some makers.now) spots.now tie.now }
{
    is_spot_of(makers, spots.at(tie.from)) || is_spot_of(makers, spots.at(tie.to))
}

/// Whether one of them is of a maker that is asked for, if any are.
fn is_tie_of(view: &View, spots: &Spots, tie: &Tie) -> bool
    ensures { result ≡ is_tie_of view.now.of spots.now tie.now }
{
    match &view.of {
        Some(makers) => joins(makers.as_slice(), spots, tie),
        None => true,
    }
}

/// The ties that join a mark of those that are asked for.
pub(crate) fn ties_of(ties: Vec<Tie>, view: &View, spots: &Spots) -> Vec<Tie>
    ensures { result.items ≡ ties_of view.now.of spots.now ties.items }
{
    let mut kept = ties;
    kept.retain(|t| is_tie_of(view, spots, t));
    kept
}

/// Whether both are the same actor's line or the same rail.
pub(crate) fn same_column(one: Column, other: Column) -> bool
    ensures { result ≡ same_column one other }
{
    match (one, other) {
        (Column::Life(a), Column::Life(b)) => a == b,
        (Column::Rail(link, node), Column::Rail(other_link, other_node)) => {
            link.0 == other_link.0 && node.0 == other_node.0
        }
        _ => false,
    }
}
