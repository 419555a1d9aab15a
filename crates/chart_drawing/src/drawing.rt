//! The drawing of a chart.
ghost use Rattle.std.specs.Prelude.{◌≡◌, ◌≢◌, ◌≤◌, ◌++◌, length, decimal, codes, OnOk};
ghost use Rattle.std.specs.Prelude.{IfOk, IfErr};
ghost use Rattle.chart_drawing.specs.declared.drawing.DrawError.TheVariants.{NoMemory as OutOfMemory};
ghost use Rattle.chart_drawing.specs.Drawing.{ground_of, back_of, front_of, picture_of};
ghost use Rattle.chart_drawing.specs.Drawing.{drawing_of, drawn, drawn_if_narrow};
ghost use Rattle.chart_drawing.specs.Drawing.{RowEachMark};
ghost use Rattle.chart_drawing.specs.Layout.{IsNarrow};
ghost use Rattle.chart_drawing.specs.Spots.{standing_of, seen_of, ties_of};
ghost use Rattle.chart_drawing.specs.Views.{row_marks, rows_with, steps_seen, ties_in};

use crate::arrows::{put_comings, put_signals};
use crate::bands::put_bands;
use crate::bars::put_bars;
use crate::beside::put_loops;
use crate::captions::{put_labels, put_lines};
use crate::cells::row_top;
use crate::fold::{has_above, row_marks};
use crate::ground::{put_actors, put_links, put_nodes, put_stripes};
use crate::layout::{is_narrow, width_of};
use crate::rows::{put_bytes, put_number, rows_of};
use crate::seen::setting_in;
use crate::setting::Setting;
use crate::spot::{Spot, seen_of, spots_from, standing_of, ties_of};
use crate::spots::Spots;
use crate::view::{View, steps_seen, ties_in};
use chart::{Mark, Tie};
use linx_base::{Blob, NoMemory, Sequence};
use std::alloc::Global;
use std::error::Error;
use std::fmt;
use svg_text::{Picture, Shape};

/// The most marks that begin rows in a drawing.
const ROWS_MOST: usize = 6000;

/// A chart, and the line of each mark as it is printed, that of a step without its position. A mark
/// whose line isn't there has no words.
#[derive(Drop)]
pub struct Chart {
    pub marks: Sequence<Mark>,
    pub ties: Sequence<Tie>,
    pub lines: Sequence<Blob>,
}

/// Why a chart isn't drawn.
#[derive(Clone, Copy, Debug, PartialEq, Eq)]
pub enum DrawError {
    /// More than 6,000 of its marks begin rows.
    TooLong,
    /// It has more than 64 nodes, links or actors that are seen.
    TooWide,
    NoMemory,
}

impl fmt::Display for DrawError {
    ghost use Rattle.std.specs.Prelude.{Some};
    ghost use Rattle.chart_drawing.specs.Failures.{draw_error_text};

    ghost output = { λ error. Some (draw_error_text error) };

    fn fmt<W: fmt::Write>(&self, f: &mut fmt::Formatter<W>) -> fmt::Result {
        f.write_str(match self {
            DrawError::TooLong => "more rows than a chart has",
            DrawError::TooWide => "more columns than a chart has",
            DrawError::NoMemory => "out of memory",
        })
    }
}

impl Error for DrawError {}

impl From<NoMemory> for DrawError {
    ghost from_gives = { λ _ e. e ≡ OutOfMemory };

    fn from(_refusal: NoMemory) -> DrawError {
        DrawError::NoMemory
    }
}

/// Boxes, lanes, stripes and lines.
fn put_ground(
    out: &mut Vec<Shape>,
    setting: &Setting,
    rows: u16,
    spots: &[Spot],
    seen: &[Spot],
) -> Result<(), NoMemory>
    requires narrow { IsNarrow setting.now }
    requires seen { seen.now ≡ seen_of spots.now }
    ensures { OnOk result (out.new.items ≡ out.old.items ++ ground_of setting.now rows spots.now) }
{
    put_nodes(out, setting, rows, setting.nodes.as_slice())?;
    put_links(out, setting, rows, setting.links.as_slice())?;
    put_stripes(out, setting, seen)?;
    put_actors(out, setting, rows, spots, setting.actors.as_slice())
}

/// What lies behind the rows.
fn back_of(
    alloc: Global,
    setting: &Setting,
    rows: u16,
    ties: &[Tie],
    spots: &Spots,
    seen: &[Spot],
) -> Result<Sequence<Shape>, NoMemory>
    requires narrow { IsNarrow setting.now }
    requires seen { seen.now ≡ seen_of spots.now }
    ensures { IfOk result (λ back. back ≡ back_of setting.now rows ties.now spots.now) }
{
    let mut back = Vec::new(alloc);
    put_ground(&mut back, setting, rows, spots.as_slice(), seen)?;
    put_bands(&mut back, setting, rows, spots.as_slice())?;
    put_bars(&mut back, rows, spots.as_slice())?;
    put_loops(&mut back, spots, ties)?;
    put_signals(&mut back, spots, ties)?;
    put_comings(&mut back, spots, seen)?;
    Ok(Sequence::of(back))
}

/// What lies in front of them.
fn front_of(
    alloc: Global,
    setting: &Setting,
    lines: &[Blob],
    seen: &[Spot],
) -> Result<Sequence<Shape>, NoMemory>
    ensures { IfOk result (λ front. front ≡ front_of setting.now lines.now seen.now) }
{
    let mut front = Vec::new(alloc);
    put_labels(&mut front, setting, lines, seen)?;
    put_lines(&mut front, &setting.view, lines, seen)?;
    Ok(Sequence::of(front))
}

/// How many rows there are, in words.
fn title_of(alloc: Global, rows: u16) -> Result<Blob, NoMemory>
    ensures { IfOk result (λ title. title ≡ decimal rows ++ codes " rows") }
{
    let mut title = Vec::new(alloc);
    put_number(&mut title, u64::from(rows))?;
    put_bytes(&mut title, b" rows")?;
    Blob::shared(title)
}

/// What lies behind the rows, with all but what shares a row.
fn back_with(
    alloc: Global,
    setting: &Setting,
    rows: u16,
    ties: &[Tie],
    standing: &Spots,
) -> Result<Sequence<Shape>, NoMemory>
    requires { IsNarrow setting.now }
    ensures { IfOk result (λ back. back ≡ back_of setting.now rows ties.now standing.now) }
{
    let seen = seen_of(alloc, standing.as_slice())?;
    back_of(alloc, setting, rows, ties, standing, &seen)
}

/// The picture of marks that stand at these spots, of so many rows.
fn picture_of(
    alloc: Global,
    setting: &Setting,
    rows: u16,
    ties: &[Tie],
    lines: &[Blob],
    spots: &[Spot],
    standing: &Spots,
) -> Result<Picture, NoMemory>
    requires narrow { IsNarrow setting.now }
    requires standing { standing.now ≡ standing_of spots.now }
    ensures { IfOk result (λ picture.
        picture ≡ picture_of setting.now rows ties.now lines.now spots.now) }
{
    let seen = seen_of(alloc, spots)?;
    Ok(Picture {
        width: u32::from(width_of(setting)),
        height: row_top(rows) + 24,
        title: title_of(alloc, rows)?,
        back: back_with(alloc, setting, rows, ties, standing)?,
        rows: Sequence::of(rows_of(alloc, setting, lines, &seen)?),
        front: front_of(alloc, setting, lines, &seen)?,
    })
}

/// How many rows there are with so many that marks begin.
fn rows_with(above: bool, begun: usize) -> u16
    requires { begun ≤ 6000 }
    ensures { result ≡ rows_with above begun }
{
    let begun = begun as u16;
    if above { begun + 1 } else { begun }
}

/// The ties that are drawn between spots, of which these share no row.
fn drawn_ties(
    alloc: Global,
    view: &View,
    standing: &Spots,
    ties: &[Tie],
) -> Result<Vec<Tie>, NoMemory>
    ensures { IfOk result (λ drawn. drawn.items
        ≡ ties_of view.now.of standing.now (ties_in (steps_seen view.now.steps) ties.now)) }
{
    let reaching = ties_in(alloc, steps_seen(view.steps), ties)?;
    Ok(ties_of(reaching, view, standing))
}

/// The drawing of a chart of which so many marks begin rows, in a setting that is narrow enough.
#[tactic(auto, unfolding(crate::specs::Drawing::drawing_of))]
fn drawing_of(
    alloc: Global,
    setting: &Setting,
    begun: usize,
    chart: &Chart,
) -> Result<Picture, NoMemory>
    requires narrow { IsNarrow setting.now }
    requires begun { begun ≡ length (row_marks setting.now.view chart.now.marks) }
    requires few { begun ≤ 6000 }
    ensures drawn { IfOk result (λ picture. picture ≡ drawing_of setting.now chart.now) }
    ensures one_row_each { IfOk result (λ picture.
        RowEachMark picture.rows (row_marks setting.now.view chart.now.marks)) }
{
    let marks = chart.marks.as_slice();
    let above = has_above(steps_seen(setting.view.steps), marks);
    let spots = spots_from(alloc, setting, rows_with(above, 0), marks)?;
    let standing = Spots::of(standing_of(alloc, &spots)?);
    let ties = drawn_ties(alloc, &setting.view, &standing, chart.ties.as_slice())?;
    let picture = picture_of(
        alloc,
        setting,
        rows_with(above, begun),
        &ties,
        chart.lines.as_slice(),
        &spots,
        &standing,
    )?;
    Ok(picture)
}

/// The drawing of a chart of which so many marks begin rows, or why there is none.
fn drawn_if_narrow(
    alloc: Global,
    setting: &Setting,
    begun: usize,
    chart: &Chart,
) -> Result<Picture, DrawError>
    requires begun { begun ≡ length (row_marks setting.now.view chart.now.marks) }
    requires few { begun ≤ 6000 }
    ensures drawn { IfOk result (λ picture. drawn_if_narrow setting.now chart.now ≡ Ok picture) }
    ensures refused { IfErr result (λ e. e ≢ OutOfMemory
        → drawn_if_narrow setting.now chart.now ≡ Err e) }
    ensures one_row_each { IfOk result (λ picture.
        RowEachMark picture.rows (row_marks setting.now.view chart.now.marks)) }
{
    if !is_narrow(setting) {
        return Err(DrawError::TooWide);
    }
    Ok(drawing_of(alloc, setting, begun, chart)?)
}

/// How many marks begin rows.
fn rows_begun(alloc: Global, view: &View, marks: &[Mark]) -> Result<usize, NoMemory>
    ensures { IfOk result (λ begun. begun ≡ length (row_marks view.now marks.now)) }
{
    let begun = row_marks(alloc, view, marks)?;
    Ok(begun.len())
}

/// The drawing of a chart in a setting: a row for each mark that begins one by the setting's view, in
/// order, and nothing else in the rows.
#[tactic(auto, unfolding(crate::specs::Drawing::drawn))]
pub fn draw(alloc: Global, setting: Setting, chart: &Chart) -> Result<Picture, DrawError>
    ensures drawn { IfOk result (λ picture. drawn setting chart.now ≡ Ok picture) }
    ensures refused { IfErr result (λ e. e ≢ OutOfMemory → drawn setting chart.now ≡ Err e) }
    ensures one_row_each { IfOk result (λ picture.
        RowEachMark picture.rows (row_marks setting.view chart.now.marks)) }
{
    let marks = chart.marks.as_slice();
    let begun = rows_begun(alloc, &setting.view, marks)?;
    if begun > ROWS_MOST {
        return Err(DrawError::TooLong);
    }
    let narrowed = setting_in(setting, marks);
    drawn_if_narrow(alloc, &narrowed, begun, chart)
}
