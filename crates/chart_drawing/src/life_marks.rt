//! How marks on an actor's line and on a rail look.
ghost use Rattle.std.specs.Prelude.{◌≡◌, ◌≤◌, ◌++◌, [], ◌∷◌, OnOk};
ghost use Rattle.chart_drawing.specs.LifeMarks.{cross, level, upright, ring, dot, leaving};
ghost use Rattle.chart_drawing.specs.LifeMarks.{send_shapes, take_shape, none_shapes, diamond};
ghost use Rattle.chart_drawing.specs.LifeMarks.{square, struck, flat, ended, down_shape};
ghost use Rattle.chart_drawing.specs.LifeMarks.{met_shapes, gone_shapes};

use crate::cells::{in_cell, line_to, move_to, put_circle, put_path};
use crate::spot::Spot;
use journal::SentTo;
use linx_base::NoMemory;
use svg_text::{Class, Shape, Stroke};

/// A cross, from so far to the right on.
pub(crate) fn put_cross(out: &mut Vec<Shape>, spot: &Spot, left: u8) -> Result<(), NoMemory>
    ensures { OnOk result (out.new.items ≡ out.old.items ++ cross spot.now left ∷ []) }
{
    let left = u16::from(left);
    let strokes = [
        move_to(spot, left, 5),
        line_to(spot, left + 8, 13),
        move_to(spot, left + 8, 5),
        line_to(spot, left, 13),
    ];
    put_path(out, Class::Wrong, &strokes)
}

/// A level stroke.
pub(crate) fn put_level(
    out: &mut Vec<Shape>,
    spot: &Spot,
    left: u16,
    right: u16,
) -> Result<(), NoMemory>
    ensures { OnOk result (out.new.items ≡ out.old.items ++ level spot.now left right ∷ []) }
{
    let strokes = [move_to(spot, left, 9), line_to(spot, right, 9)];
    put_path(out, Class::Mark, &strokes)
}

/// A short stroke across the end of an arrow.
pub(crate) fn put_upright(out: &mut Vec<Shape>, spot: &Spot) -> Result<(), NoMemory>
    ensures { OnOk result (out.new.items ≡ out.old.items ++ upright spot.now ∷ []) }
{
    let strokes = [move_to(spot, 37, 6), line_to(spot, 37, 12)];
    put_path(out, Class::Mark, &strokes)
}

/// A circle in the middle of a row, with its middle so far to the right.
pub(crate) fn put_ring(
    out: &mut Vec<Shape>,
    spot: &Spot,
    middle: u16,
    radius: u32,
) -> Result<(), NoMemory>
    ensures { OnOk result (out.new.items ≡ out.old.items ++ ring spot.now middle radius ∷ []) }
{
    put_circle(out, Class::Mark, in_cell(spot, middle, 9), radius)
}

fn put_dot(out: &mut Vec<Shape>, spot: &Spot) -> Result<(), NoMemory>
    ensures { OnOk result (out.new.items ≡ out.old.items ++ dot spot.now ∷ []) }
{
    put_circle(out, Class::Dot, in_cell(spot, 32, 9), 4)
}

/// A signal that leaves.
pub(crate) fn put_leaving(out: &mut Vec<Shape>, spot: &Spot) -> Result<(), NoMemory>
    ensures { OnOk result (out.new.items ≡ out.old.items ++ leaving spot.now ∷ []) }
{
    let strokes = [move_to(spot, 32, 9), line_to(spot, 48, 9)];
    put_path(out, Class::Signal, &strokes)
}

/// A send, by what became of it.
pub(crate) fn put_send(out: &mut Vec<Shape>, spot: &Spot, answer: SentTo) -> Result<(), NoMemory>
    ensures { OnOk result (out.new.items ≡ out.old.items ++ send_shapes spot.now answer) }
{
    match answer {
        SentTo::Queued | SentTo::Link => put_dot(out, spot),
        SentTo::Dead => {
            put_leaving(out, spot)?;
            put_dot(out, spot)?;
            put_cross(out, spot, 48)
        }
    }
}

/// A take: a triangle from the queue to the line.
pub(crate) fn put_take(out: &mut Vec<Shape>, spot: &Spot) -> Result<(), NoMemory>
    ensures { OnOk result (out.new.items ≡ out.old.items ++ take_shape spot.now ∷ []) }
{
    let strokes = [
        move_to(spot, 37, 4),
        line_to(spot, 28, 9),
        line_to(spot, 37, 14),
        Stroke::Close,
    ];
    put_path(out, Class::Dot, &strokes)
}

/// A receive that found nothing: a crossed circle.
pub(crate) fn put_none(out: &mut Vec<Shape>, spot: &Spot) -> Result<(), NoMemory>
    ensures { OnOk result (out.new.items ≡ out.old.items ++ none_shapes spot.now) }
{
    put_ring(out, spot, 32, 5)?;
    let strokes = [move_to(spot, 26, 15), line_to(spot, 38, 3)];
    put_path(out, Class::Wrong, &strokes)
}

/// A hunt: a diamond on the line of an actor.
pub(crate) fn put_diamond(out: &mut Vec<Shape>, spot: &Spot) -> Result<(), NoMemory>
    ensures { OnOk result (out.new.items ≡ out.old.items ++ diamond spot.now ∷ []) }
{
    let strokes = [
        move_to(spot, 32, 3),
        line_to(spot, 38, 9),
        line_to(spot, 32, 15),
        line_to(spot, 26, 9),
        Stroke::Close,
    ];
    put_path(out, Class::Mark, &strokes)
}

/// An attach: a square on the line of an actor.
pub(crate) fn put_square(out: &mut Vec<Shape>, spot: &Spot) -> Result<(), NoMemory>
    ensures { OnOk result (out.new.items ≡ out.old.items ++ square spot.now ∷ []) }
{
    let strokes = [
        move_to(spot, 27, 4),
        line_to(spot, 37, 4),
        line_to(spot, 37, 14),
        line_to(spot, 27, 14),
        Stroke::Close,
    ];
    put_path(out, Class::Mark, &strokes)
}

/// A square with a stroke.
pub(crate) fn put_struck(out: &mut Vec<Shape>, spot: &Spot) -> Result<(), NoMemory>
    ensures { OnOk result (out.new.items ≡ out.old.items ++ struck spot.now ∷ []) }
{
    let strokes = [
        move_to(spot, 27, 4),
        line_to(spot, 37, 4),
        line_to(spot, 37, 14),
        line_to(spot, 27, 14),
        Stroke::Close,
        move_to(spot, 27, 14),
        line_to(spot, 37, 4),
    ];
    put_path(out, Class::Mark, &strokes)
}

/// What is done to a link or a node.
pub(crate) fn put_flat(out: &mut Vec<Shape>, spot: &Spot) -> Result<(), NoMemory>
    ensures { OnOk result (out.new.items ≡ out.old.items ++ flat spot.now ∷ []) }
{
    let strokes = [
        move_to(spot, 26, 5),
        line_to(spot, 38, 5),
        line_to(spot, 38, 13),
        line_to(spot, 26, 13),
        Stroke::Close,
    ];
    put_path(out, Class::Mark, &strokes)
}

/// The end of an actor: two level strokes.
pub(crate) fn put_ended(out: &mut Vec<Shape>, spot: &Spot) -> Result<(), NoMemory>
    ensures { OnOk result (out.new.items ≡ out.old.items ++ ended spot.now ∷ []) }
{
    let strokes = [
        move_to(spot, 24, 9),
        line_to(spot, 40, 9),
        move_to(spot, 27, 12),
        line_to(spot, 37, 12),
    ];
    put_path(out, Class::Mark, &strokes)
}

/// A session that is lost.
pub(crate) fn put_down(out: &mut Vec<Shape>, spot: &Spot) -> Result<(), NoMemory>
    ensures { OnOk result (out.new.items ≡ out.old.items ++ down_shape spot.now ∷ []) }
{
    let strokes = [move_to(spot, 10, 9), line_to(spot, 22, 9)];
    put_path(out, Class::Wrong, &strokes)
}

/// A peer that is met: a circle with a plus.
pub(crate) fn put_met(out: &mut Vec<Shape>, spot: &Spot) -> Result<(), NoMemory>
    ensures { OnOk result (out.new.items ≡ out.old.items ++ met_shapes spot.now) }
{
    put_ring(out, spot, 16, 6)?;
    let strokes = [
        move_to(spot, 12, 9),
        line_to(spot, 20, 9),
        move_to(spot, 16, 5),
        line_to(spot, 16, 13),
    ];
    put_path(out, Class::Mark, &strokes)
}

/// A peer that is gone: a circle with a minus.
pub(crate) fn put_gone(out: &mut Vec<Shape>, spot: &Spot) -> Result<(), NoMemory>
    ensures { OnOk result (out.new.items ≡ out.old.items ++ gone_shapes spot.now) }
{
    put_ring(out, spot, 16, 6)?;
    put_level(out, spot, 12, 20)
}
