//! The cells of a map: a strip's part in a row, and how dark it is.
ghost use Rattle.std.specs.Prelude.{◌≡◌, ◌≤◌, ◌++◌, flat_map, length, IfOk, OnOk};
ghost use Rattle.chart_drawing.specs.Layout.{IsNarrow};
ghost use Rattle.chart_map.specs.Cells.{area_at, cell_of, cells_to, actor_cells, way_cells};
ghost use Rattle.chart_map.specs.Cells.{link_cells, most_of, level, cell_shapes, shaded};
ghost use Rattle.chart_map.specs.Grid.{grid_of};

use crate::grid::Grid;
use crate::layout::{row_top, strip_left, strip_width, way_left};
use crate::strips::Strip;
use crate::tally::{Tally, tally_of};
use chart_drawing::{DrawnActor, DrawnLink, Setting, put_box};
use journal::Journal;
use linx_base::{NoMemory, Side};
use std::alloc::Global;
use svg_text::{Area, Class, Point, Shape};

/// Where the cells of a strip stand from left to right.
#[derive(Clone, Copy)]
pub(crate) struct Place {
    pub(crate) x: u32,
    pub(crate) width: u32,
}

/// A strip's part in a row: where it stands, its edge that tells of lost packets, and its steps.
#[derive(Clone, Copy)]
pub(crate) struct Cell {
    pub(crate) area: Area,
    pub(crate) edge: Area,
    pub(crate) tally: Tally,
}

fn area_at(x: u32, row: u32, width: u32) -> Area
    requires { row ≤ 1000 }
    ensures { result ≡ area_at x row width }
{
    Area {
        corner: Point { x, y: row_top(row) },
        width,
        height: 3,
    }
}

fn cell_of(journal: &Journal, grid: Grid, strip: Strip, place: Place, row: u32) -> Cell
    requires grid { grid ≡ grid_of journal.now.log.steps }
    requires row { row ≤ 1000 }
    requires left { place.x ≤ 40000 }
    requires least { 3 ≤ place.width }
    requires most { place.width ≤ 64 }
    ensures { result ≡ cell_of journal.now.log.steps strip place row }
{
    Cell {
        area: area_at(place.x, row, place.width),
        edge: area_at(place.x + place.width - 3, row, 2),
        tally: tally_of(journal, strip, grid.begins(row), grid.ends(row)),
    }
}

/// The cells of a strip.
#[tactic(auto, using(crate::proofs::Next::cells_next))]
fn put_cells(
    cells: &mut Vec<Cell>,
    journal: &Journal,
    grid: Grid,
    strip: Strip,
    place: Place,
) -> Result<(), NoMemory>
    requires grid { grid ≡ grid_of journal.now.log.steps }
    requires few { grid.rows ≤ 240 }
    requires left { place.x ≤ 40000 }
    requires least { 3 ≤ place.width }
    requires most { place.width ≤ 64 }
    ensures { OnOk result (cells.new.items
        ≡ cells.old.items ++ cells_to journal.now.log.steps strip place grid.rows) }
{
    for row in 0..grid.rows {
        cells.push(cell_of(journal, grid, strip, place, row))?;
    }
    Ok(())
}

/// The cells of the strips of actors.
pub(crate) fn actor_cells(
    alloc: Global,
    setting: &Setting,
    journal: &Journal,
    grid: Grid,
) -> Result<Vec<Cell>, NoMemory>
    requires narrow { IsNarrow setting.now }
    requires grid { grid ≡ grid_of journal.now.log.steps }
    requires few { grid.rows ≤ 240 }
    ensures { IfOk result (λ cells. cells.items
        ≡ flat_map (actor_cells setting.now journal.now.log.steps) setting.now.actors) }
{
    let mut cells = Vec::new(alloc);
    for actor in setting.actors.as_slice() {
        let place = Place {
            x: strip_left(setting, actor),
            width: strip_width(setting) - 3,
        };
        put_cells(&mut cells, journal, grid, Strip::Actor(actor.actor), place)?;
    }
    Ok(cells)
}

/// The cells of a link's direction.
fn put_way(
    cells: &mut Vec<Cell>,
    setting: &Setting,
    journal: &Journal,
    grid: Grid,
    link: &DrawnLink,
    from: Side,
) -> Result<(), NoMemory>
    requires narrow { IsNarrow setting.now }
    requires grid { grid ≡ grid_of journal.now.log.steps }
    requires few { grid.rows ≤ 240 }
    ensures { OnOk result (cells.new.items
        ≡ cells.old.items ++ way_cells setting.now journal.now.log.steps link.now from) }
{
    let place = Place {
        x: way_left(setting, link, from),
        width: 19,
    };
    put_cells(cells, journal, grid, Strip::Way(link.link, from), place)
}

/// The cells of the strips of links.
pub(crate) fn link_cells(
    alloc: Global,
    setting: &Setting,
    journal: &Journal,
    grid: Grid,
) -> Result<Vec<Cell>, NoMemory>
    requires narrow { IsNarrow setting.now }
    requires grid { grid ≡ grid_of journal.now.log.steps }
    requires few { grid.rows ≤ 240 }
    ensures { IfOk result (λ cells. cells.items
        ≡ flat_map (link_cells setting.now journal.now.log.steps) setting.now.links) }
{
    let mut cells = Vec::new(alloc);
    for link in setting.links.as_slice() {
        put_way(&mut cells, setting, journal, grid, link, Side::First)?;
        put_way(&mut cells, setting, journal, grid, link, Side::Second)?;
    }
    Ok(cells)
}

/// The most steps of a cell.
fn most_of(cells: &[Cell]) -> u64
    ensures { result ≡ most_of cells.now }
{
    let mut most = 0;
    for cell in cells {
        most = cell.tally.steps.max(most);
    }
    most
}

/// How dark a cell of so many steps is, where the darkest has the most.
fn level(most: u64, steps: u64) -> Class
    ensures { result ≡ level most steps }
{
    if steps > most / 2 {
        Class::Dot
    } else if steps > most / 4 {
        Class::ToldHead
    } else if steps > most / 8 {
        Class::Session
    } else if steps > most / 16 {
        Class::PacketHead
    } else {
        Class::Wait
    }
}

/// A cell, unless it is empty, and its edge where a packet is lost.
fn put_cell(out: &mut Vec<Shape>, most: u64, cell: &Cell) -> Result<(), NoMemory>
    ensures { OnOk result (out.new.items ≡ out.old.items ++ cell_shapes most cell.now) }
{
    if cell.tally.steps == 0 {
        return Ok(());
    }
    put_box(out, level(most, cell.tally.steps), cell.area)?;
    if cell.tally.lost {
        put_box(out, Class::Wrong, cell.edge)?;
    }
    Ok(())
}

/// Cells, as dark as they are beside each other.
pub(crate) fn put_shaded(out: &mut Vec<Shape>, cells: &[Cell]) -> Result<(), NoMemory>
    ensures { OnOk result (out.new.items ≡ out.old.items ++ shaded cells.now) }
{
    let most = most_of(cells);
    for cell in cells {
        put_cell(out, most, cell)?;
    }
    Ok(())
}
