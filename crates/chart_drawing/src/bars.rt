//! What lasts in a column: open endpoints, waits and sessions.
ghost use Rattle.std.specs.Prelude.{◌≡◌, ◌++◌, OnOk};
ghost use Rattle.std.specs.Option.{option_copied};
ghost use Rattle.chart_drawing.specs.Bars.{is_closing, is_down, closing_in, going_on_in, down_in};
ghost use Rattle.chart_drawing.specs.Bars.{reach, bar, bars_at, bars_of};

use crate::cells::{in_cell, put_box};
use crate::spot::{Spot, same_column};
use chart::{Column, MarkKind};
use linx_base::NoMemory;
use svg_text::{Area, Class, Shape};

/// How high a row is.
const ROW: u32 = 18;

fn is_closing(kind: MarkKind) -> bool
    ensures { result ≡ is_closing kind }
{
    match kind {
        MarkKind::Closed => true,
        _ => false,
    }
}

fn is_down(kind: MarkKind) -> bool
    ensures { result ≡ is_down kind }
{
    match kind {
        MarkKind::Down => true,
        _ => false,
    }
}

/// The first of these marks that closes an endpoint in a column.
fn closing_in(column: Column, spots: &[Spot]) -> Option<&Spot>
    ensures { option_copied result ≡ closing_in column spots.now }
{
    spots.iter().find(|s| same_column(s.mark.column, column) && is_closing(s.mark.kind))
}

/// The first in a column that its actor makes, or that closes its endpoint.
fn going_on_in(column: Column, spots: &[Spot]) -> Option<&Spot>
    ensures { option_copied result ≡ going_on_in column spots.now }
{
    spots.iter().find(|s| {
        same_column(s.mark.column, column) && (s.mark.line.place == 0 || is_closing(s.mark.kind))
    })
}

/// The first that ends a session in a column.
fn down_in(column: Column, spots: &[Spot]) -> Option<&Spot>
    ensures { option_copied result ≡ down_in column spots.now }
{
    spots.iter().find(|s| same_column(s.mark.column, column) && is_down(s.mark.kind))
}

/// How far it is down to a spot, or to the foot below so many rows.
pub(crate) fn reach(rows: u16, from: &Spot, to: Option<&Spot>) -> u32
    ensures { result ≡ reach rows from.now (option_copied to.entry) }
{
    let end = match to {
        Some(to) => to.row,
        None => rows,
    };
    ROW * u32::from(end.saturating_sub(from.row))
}

/// A bar from a spot down, where it has a height.
fn put_bar(
    out: &mut Vec<Shape>,
    class: Class,
    from: &Spot,
    left: u16,
    width: u32,
    height: u32,
) -> Result<(), NoMemory>
    ensures { OnOk result (out.new.items
        ≡ out.old.items ++ bar class from.now left width height) }
{
    if height == 0 {
        return Ok(());
    }
    let area = Area {
        corner: in_cell(from, left, 9),
        width,
        height,
    };
    put_box(out, class, area)
}

/// What lasts from a mark on, before further marks.
fn put_bars_at(out: &mut Vec<Shape>, rows: u16, from: &Spot, more: &[Spot]) -> Result<(), NoMemory>
    ensures { OnOk result (out.new.items
        ≡ out.old.items ++ bars_at rows from.now from.now.mark.kind more.now) }
{
    let column = from.mark.column;
    match from.mark.kind {
        MarkKind::Opened => {
            put_bar(
                out,
                Class::Bar,
                from,
                27,
                10,
                reach(rows, from, closing_in(column, more)),
            )
        }
        MarkKind::Waits => {
            put_bar(
                out,
                Class::Wait,
                from,
                28,
                8,
                reach(rows, from, going_on_in(column, more)),
            )
        }
        MarkKind::Up => {
            put_bar(
                out,
                Class::Session,
                from,
                13,
                6,
                reach(rows, from, down_in(column, more)),
            )
        }
        _ => Ok(()),
    }
}

/// What lasts, of so many rows.
pub(crate) fn put_bars(out: &mut Vec<Shape>, rows: u16, spots: &[Spot]) -> Result<(), NoMemory>
    ensures { OnOk result (out.new.items ≡ out.old.items ++ bars_of rows spots.now) }
{
    for index in 0..spots.len() {
        put_bars_at(out, rows, &spots[index], &spots[index + 1..])?;
    }
    Ok(())
}
