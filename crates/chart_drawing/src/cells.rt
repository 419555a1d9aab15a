//! Points of cells, and shapes put behind others.
ghost use Rattle.std.specs.Prelude.{◌≡◌, ◌≤◌, ◌++◌, [], ◌∷◌, OnOk};
ghost use Rattle.svg_text.specs.declared.shape.Shape.TheVariants.{Box, Circle, Path, Words};
ghost use Rattle.chart_drawing.specs.Spots.{point, row_top, in_cell, in_lane, beside, move, line};
ghost use Rattle.chart_drawing.specs.Spots.{lane_move, lane_line};

use crate::spot::Spot;
use linx_base::{Blob, NoMemory, Sequence};
use svg_text::{Anchor, Area, Class, Point, Shape, Stroke};

/// Where the first row begins, and how high a row is.
const HEAD: u32 = 78;

const ROW: u32 = 18;

/// How wide a lane is.
const LANE: u16 = 156;

/// How far down a row begins.
pub(crate) fn row_top(row: u16) -> u32
    ensures { result ≡ row_top row }
{
    HEAD + ROW * u32::from(row)
}

/// A point of a spot's cell.
pub(crate) fn in_cell(spot: &Spot, right: u16, down: u16) -> Point
    ensures { result ≡ in_cell spot.now right down }
{
    Point {
        x: u32::from(spot.x) + u32::from(right),
        y: row_top(spot.row) + u32::from(down),
    }
}

/// A point of a lane.
pub(crate) fn in_lane(spot: &Spot, along: u16, down: u16) -> Point
    ensures { result ≡ in_lane spot.now along down }
{
    if spot.turned {
        in_cell(spot, LANE.saturating_sub(along), down)
    } else {
        in_cell(spot, along, down)
    }
}

/// The same point of the cell, in another spot's row.
pub(crate) fn beside(spot: &Spot, other: &Spot, right: u16, down: u16) -> Point
    ensures { result ≡ beside spot.now other.now right down }
{
    let row = other.row;
    Point {
        x: u32::from(spot.x) + u32::from(right),
        y: row_top(row) + u32::from(down),
    }
}

/// A stroke that begins at this point of a spot's cell.
pub(crate) fn move_to(spot: &Spot, right: u16, down: u16) -> Stroke
    ensures { result ≡ move spot.now right down }
{
    Stroke::Move(in_cell(spot, right, down))
}

/// A straight stroke on to this point of a spot's cell.
pub(crate) fn line_to(spot: &Spot, right: u16, down: u16) -> Stroke
    ensures { result ≡ line spot.now right down }
{
    Stroke::Line(in_cell(spot, right, down))
}

/// A stroke that begins at this point of a lane.
pub(crate) fn lane_move(spot: &Spot, along: u16, down: u16) -> Stroke
    ensures { result ≡ lane_move spot.now along down }
{
    Stroke::Move(in_lane(spot, along, down))
}

/// A straight stroke on to this point of a lane.
pub(crate) fn lane_line(spot: &Spot, along: u16, down: u16) -> Stroke
    ensures { result ≡ lane_line spot.now along down }
{
    Stroke::Line(in_lane(spot, along, down))
}

/// A box.
pub fn put_box(out: &mut Vec<Shape>, class: Class, area: Area) -> Result<(), NoMemory>
    ensures { OnOk result (out.new.items ≡ out.old.items ++ Box class area ∷ []) }
{
    out.push(Shape::Box(class, area))?;
    Ok(())
}

/// A circle.
pub(crate) fn put_circle(
    out: &mut Vec<Shape>,
    class: Class,
    middle: Point,
    radius: u32,
) -> Result<(), NoMemory>
    ensures { OnOk result (out.new.items ≡ out.old.items ++ Circle class middle radius ∷ []) }
{
    out.push(Shape::Circle(class, middle, radius))?;
    Ok(())
}

/// A path of these strokes.
pub fn put_path(out: &mut Vec<Shape>, class: Class, strokes: &[Stroke]) -> Result<(), NoMemory>
    ensures { OnOk result (out.new.items ≡ out.old.items ++ Path class strokes.now ∷ []) }
{
    let strokes = Vec::from_slice(*out.allocator(), strokes)?;
    out.push(Shape::Path(class, Sequence::of(strokes)))?;
    Ok(())
}

/// Words at a point.
pub fn put_words(
    out: &mut Vec<Shape>,
    class: Class,
    anchor: Anchor,
    point: Point,
    words: &[u8],
) -> Result<(), NoMemory>
    ensures { OnOk result (out.new.items
        ≡ out.old.items ++ Words class anchor point words.now ∷ []) }
{
    let words = Blob::of(*out.allocator(), words)?;
    out.push(Shape::Words(class, anchor, point, words))?;
    Ok(())
}
