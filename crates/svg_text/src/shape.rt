//! The shapes that a picture is drawn with. All measures are whole, from the upper left corner on.
ghost use Rattle.std.specs.Prelude.{◌≡◌};

use crate::class::Class;
use linx_base::{Blob, Sequence};

/// A point, so far to the right and so far down.
#[derive(Clone, Copy, Debug, PartialEq, Eq)]
pub struct Point {
    pub x: u32,
    pub y: u32,
}

/// A rectangle, by its upper left corner.
#[derive(Clone, Copy, Debug, PartialEq, Eq)]
pub struct Area {
    pub corner: Point,
    pub width: u32,
    pub height: u32,
}

/// A part of a path: a move or a line to a point, a curve by two points to a third one, or back to
/// where the last move went.
#[derive(Clone, Copy, Debug, PartialEq, Eq)]
pub enum Stroke {
    Move(Point),
    Line(Point),
    Curve(Point, Point, Point),
    Close,
}

/// Which part of words stands at their point.
#[derive(Clone, Copy, Debug, PartialEq, Eq)]
pub enum Anchor {
    Start,
    Middle,
    End,
}

/// A shape, of its class.
#[derive(Drop)]
pub enum Shape {
    Box(Class, Area),
    Circle(Class, Point, u32),
    Path(Class, Sequence<Stroke>),
    Words(Class, Anchor, Point, Blob),
}
