//! What stands over the strips of a map and at their left, and the frames of the strips.
ghost use Rattle.std.specs.Prelude.{◌≡◌, ◌≤◌, ◌++◌, ◌∷◌, [], flat_map, decimal, codes, OnOk, IfOk};
ghost use Rattle.svg_text.specs.declared.shape.Shape.TheVariants.{Words};
ghost use Rattle.chart_drawing.specs.Layout.{IsNarrow};
ghost use Rattle.chart_drawing.specs.Spots.{point};
ghost use Rattle.chart_map.specs.Captions.{heading_words, heading, caption_shapes, node_shapes};
ghost use Rattle.chart_map.specs.Captions.{frame, over, number_over, names_over, actor_shapes};
ghost use Rattle.chart_map.specs.Captions.{way_shapes, link_shapes, number_shapes, row_numbers};

use crate::grid::Grid;
use crate::layout::{
    LEFT, box_left, box_width, is_wide, lane_left, row_top, strip_left, strip_width, way_left,
};
use chart_drawing::{
    DrawnActor, DrawnLink, DrawnNode, Setting, cut, put_box, put_bytes, put_number, put_words,
};
use linx_base::{NoMemory, Side};
use std::alloc::Global;
use svg_text::{Anchor, Area, Class, Point, Shape};

/// How many steps there are, and in a row, and what strong shades and orange say.
fn heading_words(alloc: Global, grid: Grid) -> Result<Vec<u8>, NoMemory>
    ensures { IfOk result (λ words. words.items ≡ heading_words grid) }
{
    let mut words = Vec::new(alloc);
    put_number(&mut words, grid.steps)?;
    put_bytes(&mut words, b" steps, ")?;
    put_number(&mut words, grid.in_row)?;
    put_bytes(
        &mut words,
        b" in a row; stronger: more of them; orange: packets lost",
    )?;
    Ok(words)
}

/// The heading.
pub(crate) fn put_heading(out: &mut Vec<Shape>, grid: Grid) -> Result<(), NoMemory>
    ensures { OnOk result (out.new.items ≡ out.old.items ++ heading grid ∷ []) }
{
    let words = heading_words(*out.allocator(), grid)?;
    put_words(
        out,
        Class::Strong,
        Anchor::Start,
        Point { x: LEFT, y: 20 },
        &words,
    )
}

/// A caption of a node or a link, in a box.
fn put_caption(out: &mut Vec<Shape>, left: u32, width: u32, name: &[u8]) -> Result<(), NoMemory>
    requires left { left ≤ 40000 }
    requires least { 28 ≤ width }
    ensures { OnOk result (out.new.items
        ≡ out.old.items ++ caption_shapes left width name.now) }
{
    let area = Area {
        corner: Point { x: left, y: 32 },
        width,
        height: 20,
    };
    put_box(out, Class::NodeCaption, area)?;
    let words = cut(*out.allocator(), (width / 7) as usize, name)?;
    let middle = Point {
        x: left + width / 2,
        y: 46,
    };
    put_words(out, Class::Strong, Anchor::Middle, middle, &words)
}

fn put_node(out: &mut Vec<Shape>, setting: &Setting, node: &DrawnNode) -> Result<(), NoMemory>
    requires { IsNarrow setting.now }
    ensures { OnOk result (out.new.items ≡ out.old.items ++ node_shapes setting.now node.now) }
{
    let left = box_left(setting, node.node.0);
    put_caption(
        out,
        left,
        box_width(setting, node.node.0),
        node.name.bytes(),
    )
}

/// The captions of all nodes.
pub(crate) fn put_nodes(out: &mut Vec<Shape>, setting: &Setting) -> Result<(), NoMemory>
    requires { IsNarrow setting.now }
    ensures { OnOk result (out.new.items
        ≡ out.old.items ++ flat_map (node_shapes setting.now) setting.now.nodes) }
{
    for node in setting.nodes.as_slice() {
        put_node(out, setting, node)?;
    }
    Ok(())
}

/// The frame of a strip.
fn put_frame(out: &mut Vec<Shape>, x: u32, width: u32, rows: u32) -> Result<(), NoMemory>
    requires { rows ≤ 240 }
    ensures { OnOk result (out.new.items ≡ out.old.items ++ frame x width rows ∷ []) }
{
    let area = Area {
        corner: Point { x, y: row_top(0) },
        width,
        height: 3 * rows,
    };
    put_box(out, Class::Rail, area)
}

/// Words over a strip, at its middle.
fn put_over(
    out: &mut Vec<Shape>,
    class: Class,
    middle: u32,
    y: u32,
    words: &[u8],
) -> Result<(), NoMemory>
    ensures { OnOk result (out.new.items ≡ out.old.items ++ over class middle y words.now ∷ []) }
{
    put_words(out, class, Anchor::Middle, Point { x: middle, y }, words)
}

/// What an actor is called whose strip has no room for a name: its number.
fn put_number_over(out: &mut Vec<Shape>, middle: u32, actor: u32) -> Result<(), NoMemory>
    ensures { OnOk result (out.new.items ≡ out.old.items ++ number_over middle actor ∷ []) }
{
    let mut words = Vec::new(*out.allocator());
    put_bytes(&mut words, b"A")?;
    put_number(&mut words, u64::from(actor))?;
    put_over(out, Class::Strong, middle, 66, &words)
}

/// What an actor is called, and what else is said of it.
fn put_names_over(out: &mut Vec<Shape>, middle: u32, actor: &DrawnActor) -> Result<(), NoMemory>
    ensures { OnOk result (out.new.items ≡ out.old.items ++ names_over middle actor.now) }
{
    let alloc = *out.allocator();
    let caption = cut(alloc, 9, actor.caption.bytes())?;
    put_over(out, Class::Strong, middle, 66, &caption)?;
    let subcaption = cut(alloc, 9, actor.subcaption.bytes())?;
    put_over(out, Class::Faint, middle, 80, &subcaption)
}

/// The frame of an actor's strip, and its captions.
fn put_actor(
    out: &mut Vec<Shape>,
    setting: &Setting,
    rows: u32,
    actor: &DrawnActor,
) -> Result<(), NoMemory>
    requires narrow { IsNarrow setting.now }
    requires rows { rows ≤ 240 }
    ensures { OnOk result (out.new.items
        ≡ out.old.items ++ actor_shapes setting.now rows actor.now) }
{
    let x = strip_left(setting, actor);
    let width = strip_width(setting) - 3;
    put_frame(out, x, width, rows)?;
    if is_wide(setting) {
        put_names_over(out, x + width / 2, actor)
    } else {
        put_number_over(out, x + width / 2, actor.actor)
    }
}

/// The strips of all actors.
pub(crate) fn put_actors(out: &mut Vec<Shape>, setting: &Setting, rows: u32) -> Result<(), NoMemory>
    requires narrow { IsNarrow setting.now }
    requires rows { rows ≤ 240 }
    ensures { OnOk result (out.new.items
        ≡ out.old.items ++ flat_map (actor_shapes setting.now rows) setting.now.actors) }
{
    for actor in setting.actors.as_slice() {
        put_actor(out, setting, rows, actor)?;
    }
    Ok(())
}

/// The frame of the strip of a link's direction, and the mark of that.
fn put_way(out: &mut Vec<Shape>, x: u32, rows: u32, mark: &[u8]) -> Result<(), NoMemory>
    requires left { x ≤ 40000 }
    requires rows { rows ≤ 240 }
    ensures { OnOk result (out.new.items ≡ out.old.items ++ way_shapes x rows mark.now) }
{
    put_frame(out, x, 19, rows)?;
    put_over(out, Class::Faint, x + 9, 66, mark)
}

/// The strips of a link, and its caption.
fn put_link(
    out: &mut Vec<Shape>,
    setting: &Setting,
    rows: u32,
    link: &DrawnLink,
) -> Result<(), NoMemory>
    requires narrow { IsNarrow setting.now }
    requires rows { rows ≤ 240 }
    ensures { OnOk result (out.new.items
        ≡ out.old.items ++ link_shapes setting.now rows link.now) }
{
    put_caption(out, lane_left(setting, link), 72, link.name.bytes())?;
    put_way(out, way_left(setting, link, Side::First), rows, b">")?;
    put_way(out, way_left(setting, link, Side::Second), rows, b"<")
}

/// The strips of all links.
pub(crate) fn put_links(out: &mut Vec<Shape>, setting: &Setting, rows: u32) -> Result<(), NoMemory>
    requires narrow { IsNarrow setting.now }
    requires rows { rows ≤ 240 }
    ensures { OnOk result (out.new.items
        ≡ out.old.items ++ flat_map (link_shapes setting.now rows) setting.now.links) }
{
    for link in setting.links.as_slice() {
        put_link(out, setting, rows, link)?;
    }
    Ok(())
}

/// The position of the first step of a row, where there is that row.
fn put_row_number(out: &mut Vec<Shape>, grid: Grid, row: u32) -> Result<(), NoMemory>
    requires { row ≤ 220 }
    ensures { OnOk result (out.new.items ≡ out.old.items ++ number_shapes grid row) }
{
    if row >= grid.rows {
        return Ok(());
    }
    let mut words = Vec::new(*out.allocator());
    put_number(&mut words, grid.first_position(row))?;
    let point = Point {
        x: LEFT - 8,
        y: row_top(row) + 6,
    };
    put_words(out, Class::Line, Anchor::End, point, &words)
}

/// The positions of the first steps of each twentieth row.
#[tactic(auto, using(crate::proofs::Next::numbers_next))]
pub(crate) fn put_row_numbers(out: &mut Vec<Shape>, grid: Grid) -> Result<(), NoMemory>
    ensures { OnOk result (out.new.items ≡ out.old.items ++ row_numbers grid 12) }
{
    for k in 0..12 {
        put_row_number(out, grid, 20 * k)?;
    }
    Ok(())
}
