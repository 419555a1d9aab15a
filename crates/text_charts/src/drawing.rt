//! The chart of what bytes tell.
ghost use Rattle.std.specs.Prelude.{◌≡◌, ◌≢◌, Ok, Err, IfErr, IfOk};
ghost use Rattle.chart_drawing.specs.declared.drawing.DrawError.TheVariants as draws;
ghost use Rattle.journal_charts.specs.Charts.{svg_in};
ghost use Rattle.text_charts.specs.Drawn.{chart_in_kind, drawn_of, drawn_or_stop, drawn_told};
ghost use Rattle.text_charts.specs.Drawn.{page_if};
ghost use Rattle.text_charts.specs.Told.{told_alone, told_behind};
ghost use Rattle.text_charts.specs.declared.stop.ChartStop.TheVariants.{NoMemory as OutOfMemory};

use crate::kind::Kind;
use crate::reading::{read_behind, read_by_itself, script_told};
use crate::stop::ChartStop;
use chart_drawing::{DrawError, Setting, View};
use chart_map::map_in;
use chart_page::page_of;
use journal::Journal;
use journal_charts::{chart_in, named_setting, setting_of};
use script_texts::{Parts, parted};
use std::alloc::Global;

/// The page round the picture of a journal in a setting.
#[tactic(auto, using(crate::proofs::Drawings::page_drawn, crate::proofs::Drawings::page_not_drawn))]
fn page_in(
    alloc: Global,
    setting: Setting,
    text: &[u8],
    journal: &Journal,
) -> Result<Vec<u8>, DrawError>
    ensures drawn { IfOk result (λ page.
        page_if (svg_in setting text.now journal.now.log.steps) ≡ Ok page.items) }
    ensures refused { IfErr result (λ e. e ≢ draws.NoMemory
        → page_if (svg_in setting text.now journal.now.log.steps) ≡ Err e) }
{
    let svg = chart_in(alloc, setting, text, journal)?;
    Ok(page_of(alloc, svg.as_slice())?)
}

/// The chart of a kind, of a journal in a setting, beside the lines of its printed text.
fn chart_in_kind(
    alloc: Global,
    kind: Kind,
    setting: Setting,
    text: &[u8],
    journal: &Journal,
) -> Result<Vec<u8>, DrawError>
    ensures drawn { IfOk result (λ chart.
        chart_in_kind kind setting text.now journal.now.log.steps ≡ Ok chart.items) }
    ensures refused { IfErr result (λ e. e ≢ draws.NoMemory
        → chart_in_kind kind setting text.now journal.now.log.steps ≡ Err e) }
{
    match kind {
        Kind::Picture => chart_in(alloc, setting, text, journal),
        Kind::Page => page_in(alloc, setting, text, journal),
        Kind::Map => map_in(alloc, &setting, text, journal),
    }
}

/// The same, or why it isn't drawn.
#[tactic(auto, using(crate::proofs::Drawings::is_drawn, crate::proofs::Drawings::is_not_drawn))]
fn drawn_or_stop(
    alloc: Global,
    kind: Kind,
    setting: Setting,
    text: &[u8],
    journal: &Journal,
) -> Result<Vec<u8>, ChartStop>
    ensures drawn { IfOk result (λ chart.
        drawn_or_stop (chart_in_kind kind setting text.now journal.now.log.steps)
        ≡ Ok chart.items) }
    ensures stopped { IfErr result (λ stop. stop ≢ OutOfMemory
        → drawn_or_stop (chart_in_kind kind setting text.now journal.now.log.steps) ≡ Err stop) }
{
    match chart_in_kind(alloc, kind, setting, text, journal) {
        Ok(chart) => Ok(chart),
        Err(DrawError::TooLong) => Err(ChartStop::TooLong),
        Err(DrawError::TooWide) => Err(ChartStop::TooWide),
        Err(DrawError::NoMemory) => Err(ChartStop::NoMemory),
    }
}

/// The chart of a text by itself.
fn chart_alone(alloc: Global, kind: Kind, view: View, text: &[u8]) -> Result<Vec<u8>, ChartStop>
    ensures drawn { IfOk result (λ chart.
        drawn_told kind (told_alone view text.now) ≡ Ok chart.items) }
    ensures stopped { IfErr result (λ stop. stop ≢ OutOfMemory
        → drawn_told kind (told_alone view text.now) ≡ Err stop) }
{
    let journal = read_by_itself(alloc, text)?;
    let setting = setting_of(alloc, &journal, view)?;
    drawn_or_stop(alloc, kind, setting, text, &journal)
}

/// The chart of a text behind the bytes of its script.
fn chart_behind(
    alloc: Global,
    kind: Kind,
    view: View,
    bytes: &[u8],
    text: &[u8],
) -> Result<Vec<u8>, ChartStop>
    ensures drawn { IfOk result (λ chart.
        drawn_told kind (told_behind view bytes.now text.now) ≡ Ok chart.items) }
    ensures stopped { IfErr result (λ stop. stop ≢ OutOfMemory
        → drawn_told kind (told_behind view bytes.now text.now) ≡ Err stop) }
{
    let script = script_told(alloc, bytes)?;
    let journal = read_behind(alloc, &script, text)?;
    let setting = named_setting(alloc, bytes, &script, view)?;
    drawn_or_stop(alloc, kind, setting, text, &journal)
}

/// THE CHART OF A PRINTED TEXT, behind whose script it may stand, of which so much is seen; or why
/// there is none. The view means nothing for a map.
pub fn chart(alloc: Global, bytes: &[u8], kind: Kind, view: View) -> Result<Vec<u8>, ChartStop>
    ensures drawn { IfOk result (λ chart. drawn_of kind view bytes.now ≡ Ok chart.items) }
    ensures stopped { IfErr result (λ stop. stop ≢ OutOfMemory
        → drawn_of kind view bytes.now ≡ Err stop) }
{
    let Parts { script, text } = parted(bytes);
    match text {
        None => chart_alone(alloc, kind, view, bytes),
        Some(text) => chart_behind(alloc, kind, view, script, text),
    }
}
