//! The map of a run.
ghost use Rattle.std.specs.Prelude.{◌≡◌, ◌≢◌, ◌++◌, ◌≤◌, length, take, Ok, Err, IfOk, IfErr, OnOk};
ghost use Rattle.chart_drawing.specs.declared.drawing.DrawError.TheVariants.{NoMemory as OutOfMemory};
ghost use Rattle.chart_drawing.specs.Layout.{IsNarrow};
ghost use Rattle.chart_map.specs.Grid.{grid_of};
ghost use Rattle.chart_map.specs.Maps.{captions_of, strips_of, back_of, title_of, rows_beside};
ghost use Rattle.chart_map.specs.Maps.{shown_of, front_of, picture_of, map_in};

use crate::beside::{first_y, put_notes, rare_rows};
use crate::captions::{put_actors, put_heading, put_links, put_nodes, put_row_numbers};
use crate::cells::{actor_cells, link_cells, put_shaded};
use crate::grid::{Grid, grid_of};
use crate::layout::{height_of, label_room, right_edge};
use crate::rare::{Rare, rare_of};
use chart::all_marks;
use chart_drawing::{DrawError, Setting, is_narrow, put_bytes, put_number};
use journal::Journal;
use journal_charts::rows_in;
use linx_base::{Blob, NoMemory, Sequence};
use std::alloc::Global;
use svg_text::{Picture, Row, Shape};

/// Captions, frames and the numbers of rows.
fn put_captions(out: &mut Vec<Shape>, setting: &Setting, grid: Grid) -> Result<(), NoMemory>
    requires narrow { IsNarrow setting.now }
    requires few { grid.rows ≤ 240 }
    ensures { OnOk result (out.new.items ≡ out.old.items ++ captions_of setting.now grid) }
{
    put_heading(out, grid)?;
    put_nodes(out, setting)?;
    put_actors(out, setting, grid.rows)?;
    put_links(out, setting, grid.rows)?;
    put_row_numbers(out, grid)
}

/// The cells of all strips.
fn put_strips(
    out: &mut Vec<Shape>,
    setting: &Setting,
    journal: &Journal,
    grid: Grid,
) -> Result<(), NoMemory>
    requires narrow { IsNarrow setting.now }
    requires grid { grid ≡ grid_of journal.now.log.steps }
    requires few { grid.rows ≤ 240 }
    ensures { OnOk result (out.new.items
        ≡ out.old.items ++ strips_of setting.now journal.now.log.steps) }
{
    let alloc = *out.allocator();
    let actors = actor_cells(alloc, setting, journal, grid)?;
    put_shaded(out, &actors)?;
    let links = link_cells(alloc, setting, journal, grid)?;
    put_shaded(out, &links)
}

/// What lies behind the rare lines.
fn back_of(
    alloc: Global,
    setting: &Setting,
    journal: &Journal,
    grid: Grid,
) -> Result<Sequence<Shape>, NoMemory>
    requires narrow { IsNarrow setting.now }
    requires grid { grid ≡ grid_of journal.now.log.steps }
    requires few { grid.rows ≤ 240 }
    ensures { IfOk result (λ back. back ≡ back_of setting.now journal.now.log.steps) }
{
    let mut back = Vec::new(alloc);
    put_captions(&mut back, setting, grid)?;
    put_strips(&mut back, setting, journal, grid)?;
    Ok(Sequence::of(back))
}

/// How many steps there are, in words.
fn title_of(alloc: Global, grid: Grid) -> Result<Blob, NoMemory>
    ensures { IfOk result (λ title. title ≡ title_of grid) }
{
    let mut title = Vec::new(alloc);
    put_number(&mut title, grid.steps)?;
    put_bytes(&mut title, b" steps")?;
    Blob::shared(title)
}

/// The first rare lines, at most so many.
#[tactic(auto, using(crate::proofs::Next::taken_all))]
fn first_of(room: usize, rare: &[Rare]) -> &[Rare]
    requires { room ≤ 52 }
    ensures first { result.now ≡ take room rare.now }
    ensures few { length result.now ≤ 52 }
{
    if rare.len() <= room {
        rare
    } else {
        &rare[..room]
    }
}

/// Rare lines beside all strips.
fn rows_beside(
    alloc: Global,
    setting: &Setting,
    grid: Grid,
    lines: &[Blob],
    rare: &[Rare],
) -> Result<Vec<Row>, NoMemory>
    requires narrow { IsNarrow setting.now }
    requires rows { grid.rows ≤ 240 }
    requires some { 1 ≤ grid.in_row }
    requires few { length rare.now ≤ 52 }
    ensures { IfOk result (λ rows.
        rows.items ≡ rows_beside setting.now grid lines.now rare.now) }
{
    let first = first_y(grid, label_room(grid.rows), rare);
    rare_rows(alloc, right_edge(setting), grid, lines, first, rare)
}

/// The rare lines that there is room for.
fn shown_of(
    alloc: Global,
    setting: &Setting,
    grid: Grid,
    lines: &[Blob],
    rare: &[Rare],
) -> Result<Sequence<Row>, NoMemory>
    requires narrow { IsNarrow setting.now }
    requires few { grid.rows ≤ 240 }
    requires some { 1 ≤ grid.in_row }
    ensures { IfOk result (λ rows. rows ≡ shown_of setting.now grid lines.now rare.now) }
{
    let shown = first_of(label_room(grid.rows), rare);
    Ok(Sequence::of(rows_beside(alloc, setting, grid, lines, shown)?))
}

/// What is said behind them.
fn front_of(
    alloc: Global,
    setting: &Setting,
    grid: Grid,
    rare: &[Rare],
) -> Result<Sequence<Shape>, NoMemory>
    requires narrow { IsNarrow setting.now }
    requires few { grid.rows ≤ 240 }
    ensures { IfOk result (λ front. front ≡ front_of setting.now grid rare.now) }
{
    let mut front = Vec::new(alloc);
    put_notes(
        &mut front,
        right_edge(setting),
        label_room(grid.rows),
        rare.len(),
    )?;
    Ok(Sequence::of(front))
}

/// The map of a journal as a picture.
fn picture_of(
    alloc: Global,
    setting: &Setting,
    lines: &[Blob],
    journal: &Journal,
) -> Result<Picture, NoMemory>
    requires { IsNarrow setting.now }
    ensures { IfOk result (λ picture.
        picture ≡ picture_of setting.now lines.now journal.now.log.steps) }
{
    let grid = grid_of(journal);
    let marks = all_marks(alloc, journal)?;
    let rare = rare_of(alloc, marks.as_slice())?;
    Ok(Picture {
        width: right_edge(setting) + 340,
        height: height_of(grid.rows),
        title: title_of(alloc, grid)?,
        back: back_of(alloc, setting, journal, grid)?,
        rows: shown_of(alloc, setting, grid, lines, &rare)?,
        front: front_of(alloc, setting, grid, &rare)?,
    })
}

/// THE MAP OF A JOURNAL in a setting, with the words of its printed text, as the bytes of an SVG
/// picture. It is refused where the setting has more than 64 nodes, links or actors.
#[tactic(auto, unfolding(crate::specs::Maps::map_in))]
pub fn map_in(
    alloc: Global,
    setting: &Setting,
    text: &[u8],
    journal: &Journal,
) -> Result<Vec<u8>, DrawError>
    ensures drawn { IfOk result (λ svg.
        map_in setting.now text.now journal.now.log.steps ≡ Ok svg.items) }
    ensures refused { IfErr result (λ e. e ≢ OutOfMemory
        → map_in setting.now text.now journal.now.log.steps ≡ Err e) }
{
    if !is_narrow(setting) {
        return Err(DrawError::TooWide);
    }
    let lines = rows_in(alloc, text)?;
    let picture = picture_of(alloc, setting, lines.as_slice(), journal)?;
    Ok(picture.text(alloc)?)
}
