//! Pictures as SVG: a picture is a tree of few kinds of elements, with the numbers, classes and
//! words that each kind has, and its text is an XML document. What is drawn here knows nothing of
//! journals. A picture can't say a reference, a script or a colour: it has no such element and no
//! such attribute, and colours are those of the classes, light or dark as the viewer has it. Words
//! are any bytes, escaped where XML wants it; a small reader of XML in `specs/` reads each
//! picture's text back as its tree. What memory refuses isn't written.
#![tactic(auto)]

mod class;
mod looks;
mod picture;
mod shape;
mod style;
mod writing;

pub use class::Class;
pub use picture::{Picture, Row};
pub use shape::{Anchor, Area, Point, Shape, Stroke};
