//! The chart of a journal.
ghost use Rattle.std.specs.Prelude.{◌≡◌, ◌≢◌, IfOk, IfErr};
ghost use Rattle.chart_drawing.specs.declared.drawing.DrawError.TheVariants.{NoMemory as OutOfMemory};
ghost use Rattle.journal_charts.specs.Charts.{rows_chart, svg_in, svg_of};

use crate::rows::rows_in;
use crate::setting::setting_of;
use chart::{all_marks, all_ties};
use chart_drawing::{Chart, DrawError, Setting, View, draw};
use journal::Journal;
use linx_base::NoMemory;
use std::alloc::Global;

/// The marks and ties of a journal, with the words of a text's rows.
fn rows_chart(alloc: Global, text: &[u8], journal: &Journal) -> Result<Chart, NoMemory>
    ensures { IfOk result (λ chart. chart ≡ rows_chart text.now journal.now.log.steps) }
{
    let lines = rows_in(alloc, text)?;
    Ok(Chart {
        marks: all_marks(alloc, journal)?,
        ties: all_ties(alloc, journal)?,
        lines,
    })
}

/// The chart of a journal in a setting, beside the lines of its printed text, as the bytes of an SVG
/// picture.
pub fn chart_in(
    alloc: Global,
    setting: Setting,
    text: &[u8],
    journal: &Journal,
) -> Result<Vec<u8>, DrawError>
    ensures drawn { IfOk result (λ svg.
        svg_in setting text.now journal.now.log.steps ≡ Ok svg.items) }
    ensures refused { IfErr result (λ e. e ≢ OutOfMemory
        → svg_in setting text.now journal.now.log.steps ≡ Err e) }
{
    let chart = rows_chart(alloc, text, journal)?;
    let picture = draw(alloc, setting, &chart)?;
    Ok(picture.text(alloc)?)
}

/// The chart of a journal with this printed text, or what of it is seen by a view, as the bytes of an
/// SVG picture.
pub fn chart_of(
    alloc: Global,
    text: &[u8],
    journal: &Journal,
    view: View,
) -> Result<Vec<u8>, DrawError>
    ensures drawn { IfOk result (λ svg.
        svg_of journal.now.log.names text.now journal.now.log.steps view ≡ Ok svg.items) }
    ensures refused { IfErr result (λ e. e ≢ OutOfMemory
        → svg_of journal.now.log.names text.now journal.now.log.steps view ≡ Err e) }
{
    let setting = setting_of(alloc, journal, view)?;
    chart_in(alloc, setting, text, journal)
}
