//! A picture, and its text.
ghost use Rattle.std.specs.Prelude.{◌≡◌, ◌≤◌, ◌++◌, length, decimal, Some, OnOk, IfOk};
ghost use Rattle.svg_text.specs.declared.shape.Shape.TheVariants.{Box, Circle, Path, Words};
ghost use Rattle.svg_text.specs.Reading.{read};
ghost use Rattle.svg_text.specs.Rooms.{picture_room};
ghost use Rattle.svg_text.specs.Texts.{at_text, middle_text, size_text, begin_text, within_text};
ghost use Rattle.svg_text.specs.Texts.{shape_text, shapes_text, title_text, begin_row_text};
ghost use Rattle.svg_text.specs.Texts.{row_text, rows_text, layer_text, rows_layer_text};
ghost use Rattle.svg_text.specs.Texts.{begin_picture_text, style_element_text, head_text};
ghost use Rattle.svg_text.specs.Texts.{picture_text};
ghost use Rattle.svg_text.specs.Tree.{tree_of};

use crate::class::Class;
use crate::looks;
use crate::shape::{Anchor, Area, Point, Shape, Stroke};
use crate::style::write_style;
use crate::writing::{write, write_anchor, write_number, write_place, write_strokes, write_words};
use linx_base::{Blob, NoMemory, Sequence};
use std::alloc::Global;

/// The room that a text begins with.
const TEXT_ROOM: usize = 65_536;

/// The shapes that belong to a line of a journal: that of a step, or of one of its effects, which
/// count from 1. A viewer shows the title where the pointer rests on them.
#[derive(Drop)]
pub struct Row {
    pub step: u64,
    pub effect: u64,
    pub title: Blob,
    pub shapes: Sequence<Shape>,
}

/// A picture: what lies at the back, the rows, and what lies in front of them.
#[derive(Drop)]
pub struct Picture {
    pub width: u32,
    pub height: u32,
    pub title: Blob,
    pub back: Sequence<Shape>,
    pub rows: Sequence<Row>,
    pub front: Sequence<Shape>,
}

/// A number, and what stands before it.
fn write_numbered(out: &mut Vec<u8>, before: &[u8], number: u32) -> Result<(), NoMemory>
    ensures { OnOk result (out.new.items ≡ out.old.items ++ before.now ++ decimal number) }
{
    write(out, before)?;
    write_number(out, number as u64)
}

#[tactic(auto, unfolding(crate::specs::Texts::at_text))]
fn write_at(out: &mut Vec<u8>, point: Point) -> Result<(), NoMemory>
    ensures { OnOk result (out.new.items ≡ out.old.items ++ at_text point) }
{
    write_numbered(out, b" x=\"", point.x)?;
    write_numbered(out, b"\" y=\"", point.y)?;
    write(out, b"\"")
}

#[tactic(auto, unfolding(crate::specs::Texts::middle_text))]
fn write_middle(out: &mut Vec<u8>, point: Point) -> Result<(), NoMemory>
    ensures { OnOk result (out.new.items ≡ out.old.items ++ middle_text point) }
{
    write_numbered(out, b" cx=\"", point.x)?;
    write_numbered(out, b"\" cy=\"", point.y)?;
    write(out, b"\"")
}

#[tactic(auto, unfolding(crate::specs::Texts::size_text))]
fn write_size(out: &mut Vec<u8>, width: u32, height: u32) -> Result<(), NoMemory>
    ensures { OnOk result (out.new.items ≡ out.old.items ++ size_text width height) }
{
    write_numbered(out, b" width=\"", width)?;
    write_numbered(out, b"\" height=\"", height)?;
    write(out, b"\"")
}

/// What a shape begins with: the name of its element, and its class.
#[tactic(auto, unfolding(crate::specs::Texts::begin_text))]
fn write_begin(out: &mut Vec<u8>, name: &[u8], class: Class) -> Result<(), NoMemory>
    ensures { OnOk result (out.new.items ≡ out.old.items ++ begin_text name.now class) }
{
    write(out, b"<")?;
    write(out, name)?;
    write(out, b" class=\"")?;
    write(out, looks::name(class))?;
    write(out, b"\"")
}

/// The words of an element, and its end.
#[tactic(auto, unfolding(crate::specs::Texts::within_text))]
fn write_within(out: &mut Vec<u8>, words: &Blob) -> Result<(), NoMemory>
    ensures { OnOk result (out.new.items ≡ out.old.items ++ within_text words.now) }
{
    write(out, b">")?;
    write_words(out, words.bytes())?;
    write(out, b"</text>\n")
}

#[tactic(auto, unfolding(crate::specs::Texts::shape_text))]
fn write_box(out: &mut Vec<u8>, class: Class, area: Area) -> Result<(), NoMemory>
    ensures { OnOk result (out.new.items ≡ out.old.items ++ shape_text (Box class area)) }
{
    write_begin(out, b"rect", class)?;
    write_at(out, area.corner)?;
    write_size(out, area.width, area.height)?;
    write(out, b"/>\n")
}

#[tactic(auto, unfolding(crate::specs::Texts::shape_text))]
fn write_circle(out: &mut Vec<u8>, class: Class, middle: Point, radius: u32) -> Result<(), NoMemory>
    ensures { OnOk result (out.new.items ≡ out.old.items
        ++ shape_text (Circle class middle radius)) }
{
    write_begin(out, b"circle", class)?;
    write_middle(out, middle)?;
    write_numbered(out, b" r=\"", radius)?;
    write(out, b"\"/>\n")
}

#[tactic(auto, unfolding(crate::specs::Texts::shape_text))]
fn write_path(out: &mut Vec<u8>, class: Class, strokes: &Sequence<Stroke>) -> Result<(), NoMemory>
    ensures { OnOk result (out.new.items ≡ out.old.items ++ shape_text (Path class strokes.now)) }
{
    write_begin(out, b"path", class)?;
    write(out, b" d=\"")?;
    write_strokes(out, strokes.as_slice())?;
    write(out, b"\"/>\n")
}

#[tactic(auto, unfolding(crate::specs::Texts::shape_text))]
fn write_text(
    out: &mut Vec<u8>,
    class: Class,
    anchor: Anchor,
    point: Point,
    words: &Blob,
) -> Result<(), NoMemory>
    ensures { OnOk result (out.new.items ≡ out.old.items
        ++ shape_text (Words class anchor point words.now)) }
{
    write_begin(out, b"text", class)?;
    write_anchor(out, anchor)?;
    write_at(out, point)?;
    write_within(out, words)
}

fn write_shape(out: &mut Vec<u8>, shape: &Shape) -> Result<(), NoMemory>
    ensures { OnOk result (out.new.items ≡ out.old.items ++ shape_text shape.now) }
{
    match shape {
        Shape::Box(class, area) => write_box(out, *class, *area),
        Shape::Circle(class, middle, radius) => write_circle(out, *class, *middle, *radius),
        Shape::Path(class, strokes) => write_path(out, *class, strokes),
        Shape::Words(class, anchor, point, words) => write_text(
            out, *class, *anchor, *point, words,
        ),
    }
}

fn write_shapes(out: &mut Vec<u8>, shapes: &[Shape]) -> Result<(), NoMemory>
    ensures { OnOk result (out.new.items ≡ out.old.items ++ shapes_text shapes.now) }
{
    for shape in shapes {
        write_shape(out, shape)?;
    }
    Ok(())
}

#[tactic(auto, unfolding(crate::specs::Texts::title_text))]
fn write_title(out: &mut Vec<u8>, words: &Blob) -> Result<(), NoMemory>
    ensures { OnOk result (out.new.items ≡ out.old.items ++ title_text words.now) }
{
    write(out, b"<title>")?;
    write_words(out, words.bytes())?;
    write(out, b"</title>\n")
}

/// What a row begins with.
#[tactic(auto, unfolding(crate::specs::Texts::begin_row_text))]
fn write_begin_row(out: &mut Vec<u8>, step: u64, effect: u64) -> Result<(), NoMemory>
    ensures { OnOk result (out.new.items ≡ out.old.items ++ begin_row_text step effect) }
{
    write(out, b"<g class=\"row\" id=\"")?;
    write_place(out, step, effect)?;
    write(out, b"\">\n")
}

#[tactic(auto, unfolding(crate::specs::Texts::row_text))]
fn write_row(out: &mut Vec<u8>, row: &Row) -> Result<(), NoMemory>
    ensures { OnOk result (out.new.items ≡ out.old.items ++ row_text row.now) }
{
    write_begin_row(out, row.step, row.effect)?;
    write_title(out, &row.title)?;
    write_shapes(out, row.shapes.as_slice())?;
    write(out, b"</g>\n")
}

fn write_rows(out: &mut Vec<u8>, rows: &[Row]) -> Result<(), NoMemory>
    ensures { OnOk result (out.new.items ≡ out.old.items ++ rows_text rows.now) }
{
    for row in rows {
        write_row(out, row)?;
    }
    Ok(())
}

/// A layer of shapes, by its name.
#[tactic(auto, unfolding(crate::specs::Texts::layer_text))]
fn write_layer(out: &mut Vec<u8>, name: &[u8], shapes: &Sequence<Shape>) -> Result<(), NoMemory>
    ensures { OnOk result (out.new.items ≡ out.old.items ++ layer_text name.now shapes.now) }
{
    write(out, b"<g class=\"")?;
    write(out, name)?;
    write(out, b"\">\n")?;
    write_shapes(out, shapes.as_slice())?;
    write(out, b"</g>\n")
}

/// The layer of the rows.
#[tactic(auto, unfolding(crate::specs::Texts::rows_layer_text))]
fn write_rows_layer(out: &mut Vec<u8>, rows: &Sequence<Row>) -> Result<(), NoMemory>
    ensures { OnOk result (out.new.items ≡ out.old.items ++ rows_layer_text rows.now) }
{
    write(out, b"<g class=\"rows\">\n")?;
    write_rows(out, rows.as_slice())?;
    write(out, b"</g>\n")
}

/// What a picture begins with: its size.
#[tactic(auto, unfolding(crate::specs::Texts::begin_picture_text))]
fn write_begin_picture(out: &mut Vec<u8>, width: u32, height: u32) -> Result<(), NoMemory>
    ensures { OnOk result (out.new.items ≡ out.old.items ++ begin_picture_text width height) }
{
    write(out, b"<svg xmlns=\"http://www.w3.org/2000/svg\"")?;
    write_size(out, width, height)?;
    write_numbered(out, b" viewBox=\"0 0 ", width)?;
    write_numbered(out, b" ", height)?;
    write(out, b"\" role=\"img\">\n")
}

#[tactic(auto, unfolding(crate::specs::Texts::style_element_text))]
fn write_style_element(out: &mut Vec<u8>) -> Result<(), NoMemory>
    ensures { OnOk result (out.new.items ≡ out.old.items ++ style_element_text) }
{
    write(out, b"<style>\n")?;
    write_style(out)?;
    write(out, b"</style>\n")
}

#[tactic(auto, unfolding(crate::specs::Texts::head_text))]
fn write_head(out: &mut Vec<u8>, picture: &Picture) -> Result<(), NoMemory>
    ensures { OnOk result (out.new.items ≡ out.old.items ++ head_text picture.now) }
{
    write_begin_picture(out, picture.width, picture.height)?;
    write_title(out, &picture.title)?;
    write_style_element(out)
}

#[tactic(auto, unfolding(crate::specs::Texts::picture_text))]
fn write_picture(out: &mut Vec<u8>, picture: &Picture) -> Result<(), NoMemory>
    ensures { OnOk result (out.new.items ≡ out.old.items ++ picture_text picture.now) }
{
    write_head(out, picture)?;
    write_layer(out, b"back", &picture.back)?;
    write_rows_layer(out, &picture.rows)?;
    write_layer(out, b"front", &picture.front)?;
    write(out, b"</svg>\n")
}

impl Picture {
    /// The text of the picture: a document of XML, which reads as the picture's tree, and whose
    /// length is linear in what the picture has.
    #[tactic(auto, using(crate::proofs::PictureAgain::picture_again, crate::proofs::Short::picture_short))]
    pub fn text(&self, alloc: Global) -> Result<Vec<u8>, NoMemory>
        ensures spelled { IfOk result (λ text. text.items ≡ picture_text self.now) }
        ensures well_formed { IfOk result (λ text. read text.items ≡ Some (tree_of self.now)) }
        ensures short { IfOk result (λ text. length text.items ≤ picture_room self.now) }
    {
        let mut text = Vec::with_capacity(alloc, TEXT_ROOM)?;
        write_picture(&mut text, self)?;
        Ok(text)
    }
}
