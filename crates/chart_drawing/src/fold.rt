//! Which marks begin rows, and which share one.
ghost use Rattle.std.specs.Prelude.{◌≡◌, false, ◌++◌, [], ◌∷◌, slice_get, if◌then◌else◌, OnOk, IfOk};
ghost use Rattle.chart_drawing.specs.Views.{is_above, is_effect_if, is_link_step, is_quiet};
ghost use Rattle.chart_drawing.specs.Views.{is_folded, begins_row, quiet_with, row_marks, has_above};
ghost use Rattle.chart_drawing.specs.Views.{rows_with, row_behind, row_of_mark};

use crate::view::{Steps, View, is_above, is_seen, steps_seen};
use chart::{Mark, MarkKind};
use linx_base::NoMemory;
use std::alloc::Global;

/// Whether the first of the marks is of an effect.
pub(crate) fn is_effect_first(marks: &[Mark]) -> bool
    ensures { result ≡ is_effect_if (slice_get marks.now 0) }
{
    match marks.first() {
        Some(mark) => mark.line.place != 0,
        None => false,
    }
}

fn is_link_step(kind: MarkKind) -> bool
    ensures { result ≡ is_link_step kind }
{
    match kind {
        MarkKind::Packet(_) | MarkKind::Tick => true,
        _ => false,
    }
}

/// Whether a mark, before further ones, is of a step of a link without effects.
fn is_quiet(mark: &Mark, more: &[Mark]) -> bool
    ensures { result ≡ is_quiet mark.now more.now }
{
    is_link_step(mark.kind) && !is_effect_first(more)
}

/// Whether a mark shares the row of the last one that is seen, which is quiet or not.
pub(crate) fn is_folded(view: &View, quiet: bool, mark: &Mark, more: &[Mark]) -> bool
    ensures { result ≡ is_folded view.now quiet mark.now more.now }
{
    view.fold && is_seen(view, mark) && quiet && is_quiet(mark, more)
}

/// Whether a mark begins a row.
fn begins_row(view: &View, quiet: bool, mark: &Mark, more: &[Mark]) -> bool
    ensures { result ≡ begins_row view.now quiet mark.now more.now }
{
    is_seen(view, mark) && !is_folded(view, quiet, mark, more)
}

/// Whether the last mark that is seen is quiet, with a further one.
pub(crate) fn quiet_with(view: &View, quiet: bool, mark: &Mark, more: &[Mark]) -> bool
    ensures { result ≡ quiet_with view.now quiet mark.now more.now }
{
    if is_seen(view, mark) {
        is_quiet(mark, more)
    } else {
        quiet
    }
}

/// Adds a mark, where it begins a row.
fn put_row_mark(
    out: &mut Vec<Mark>,
    view: &View,
    quiet: bool,
    mark: &Mark,
    more: &[Mark],
) -> Result<(), NoMemory>
    ensures { OnOk result (out.new.items ≡ out.old.items
        ++ (if begins_row view.now quiet mark.now more.now then mark.now ∷ [] else [])) }
{
    if begins_row(view, quiet, mark, more) {
        out.push(*mark)?;
    }
    Ok(())
}

/// The marks that begin rows.
pub(crate) fn row_marks(alloc: Global, view: &View, marks: &[Mark]) -> Result<Vec<Mark>, NoMemory>
    ensures { IfOk result (λ begun. begun.items ≡ row_marks view.now marks.now) }
{
    let mut begun = Vec::new(alloc);
    let mut quiet = false;
    for place in 0..marks.len() {
        let more = &marks[place + 1..];
        put_row_mark(&mut begun, view, quiet, &marks[place], more)?;
        quiet = quiet_with(view, quiet, &marks[place], more);
    }
    Ok(begun)
}

/// Whether a mark stands above these steps.
pub(crate) fn has_above(steps: Steps, marks: &[Mark]) -> bool
    ensures { result ≡ has_above steps marks.now }
{
    marks.iter().any(|m| is_above(steps, m.line))
}

/// The number of the next row, behind a further mark.
pub(crate) fn row_behind(view: &View, quiet: bool, row: u16, mark: &Mark, more: &[Mark]) -> u16
    ensures { result ≡ row_behind view.now quiet row mark.now more.now }
{
    if begins_row(view, quiet, mark, more) {
        row.saturating_add(1)
    } else {
        row
    }
}

/// The row of a mark, where the next row has this number.
pub(crate) fn row_of_mark(view: &View, quiet: bool, row: u16, mark: &Mark, more: &[Mark]) -> u16
    ensures { result ≡ row_of_mark view.now quiet row mark.now more.now }
{
    if is_above(steps_seen(view.steps), mark.line) {
        0
    } else if is_folded(view, quiet, mark, more) {
        row.saturating_sub(1)
    } else {
        row
    }
}
