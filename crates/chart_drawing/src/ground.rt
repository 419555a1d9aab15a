//! What a drawing stands on: the boxes of nodes, the lanes of links, and the lines of actors.
ghost use Rattle.std.specs.Prelude.{◌≡◌, ◌≤◌, ◌++◌, [], ◌∷◌, flat_map, OnOk, IfOk, length};
ghost use Rattle.std.specs.Option.{option_copied};
ghost use Rattle.chart_drawing.specs.Layout.{IsNarrow, node_of};
ghost use Rattle.chart_drawing.specs.Ground.{foot, title_at, ground, node_shapes, straight};
ghost use Rattle.chart_drawing.specs.Ground.{name_if, rail_shapes, link_shapes, stripe_shapes};
ghost use Rattle.chart_drawing.specs.Ground.{is_ended, first_of, last_of, end_of, life_shapes};
ghost use Rattle.chart_drawing.specs.Ground.{name_room, actor_shapes, is_bare};

use crate::captions::cut;
use crate::cells::{put_box, put_path, put_words, row_top};
use crate::columns::node_of;
use crate::layout::{
    actors_on, box_left, box_width, earlier_end, gap, lane_left, later_end, life_left, width_of,
};
use crate::rows::put_bytes;
use crate::setting::{DrawnActor, DrawnLink, DrawnNode, Setting};
use crate::spot::{Spot, same_column};
use crate::view::is_part;
use chart::{Column, MarkKind};
use linx_base::NoMemory;
use std::alloc::Global;
use svg_text::{Anchor, Area, Class, Point, Shape, Stroke};

/// The foot of lines that nothing ends.
fn foot(rows: u16) -> u32
    ensures { result ≡ foot rows }
{
    row_top(rows) + 8
}

/// Words over a drawing.
fn put_title(
    out: &mut Vec<Shape>,
    class: Class,
    x: u32,
    y: u32,
    words: &[u8],
) -> Result<(), NoMemory>
    ensures { OnOk result (out.new.items ≡ out.old.items ++ title_at class x y words.now ∷ []) }
{
    put_words(out, class, Anchor::Middle, Point { x, y }, words)
}

/// The ground of a node or a link.
fn put_ground(
    out: &mut Vec<Shape>,
    class: Class,
    left: u16,
    width: u16,
    rows: u16,
) -> Result<(), NoMemory>
    ensures { OnOk result (out.new.items ≡ out.old.items ++ ground class left width rows ∷ []) }
{
    let area = Area {
        corner: Point {
            x: u32::from(left),
            y: 66,
        },
        width: u32::from(width),
        height: 18 * u32::from(rows) + 28,
    };
    put_box(out, class, area)
}

/// What something is, and its name behind that.
fn kind_and_name(alloc: Global, kind: &[u8], name: &[u8]) -> Result<Vec<u8>, NoMemory>
    ensures { IfOk result (λ words. words.items ≡ kind.now ++ name.now) }
{
    let mut words = Vec::new(alloc);
    put_bytes(&mut words, kind)?;
    put_bytes(&mut words, name)?;
    Ok(words)
}

/// Whether no box is drawn for a node: in a part of a chart, where none of its actors is seen.
fn is_bare(setting: &Setting, node: u32) -> bool
    requires { IsNarrow setting.now }
    ensures { result ≡ is_bare setting.now node }
{
    is_part(&setting.view) && actors_on(setting, node) == 0
}

/// The box of a node, and its name over it.
fn put_node(
    out: &mut Vec<Shape>,
    setting: &Setting,
    rows: u16,
    node: &DrawnNode,
) -> Result<(), NoMemory>
    requires { IsNarrow setting.now }
    ensures { OnOk result (out.new.items
        ≡ out.old.items ++ node_shapes setting.now rows node.now) }
{
    if is_bare(setting, node.node.0) {
        return Ok(());
    }
    let left = box_left(setting, node.node.0);
    let width = box_width(setting, node.node.0);
    put_ground(out, Class::Node, left, width, rows)?;
    let caption = Area {
        corner: Point {
            x: u32::from(left),
            y: 6,
        },
        width: u32::from(width),
        height: 22,
    };
    put_box(out, Class::NodeCaption, caption)?;
    let middle = u32::from(left) + u32::from(width / 2);
    let words = kind_and_name(*out.allocator(), b"node ", node.name.bytes())?;
    put_title(out, Class::Strong, middle, 21, &words)
}

/// The boxes of all nodes, with their names over them.
pub(crate) fn put_nodes(
    out: &mut Vec<Shape>,
    setting: &Setting,
    rows: u16,
    nodes: &[DrawnNode],
) -> Result<(), NoMemory>
    requires { IsNarrow setting.now }
    ensures { OnOk result (out.new.items
        ≡ out.old.items ++ flat_map (node_shapes setting.now rows) nodes.now) }
{
    for node in nodes {
        put_node(out, setting, rows, node)?;
    }
    Ok(())
}

/// An upright line.
fn put_straight(
    out: &mut Vec<Shape>,
    class: Class,
    x: u32,
    from: u32,
    to: u32,
) -> Result<(), NoMemory>
    ensures { OnOk result (out.new.items ≡ out.old.items ++ straight class x from to ∷ []) }
{
    let strokes = [
        Stroke::Move(Point { x, y: from }),
        Stroke::Line(Point { x, y: to }),
    ];
    put_path(out, class, &strokes)
}

/// The name of a node.
fn name_of(setting: &Setting, node: u32) -> &[u8]
    ensures { result.now ≡ name_if (node_of setting.now node) }
{
    match node_of(setting, node) {
        Some(node) => node.name.bytes(),
        None => b"?",
    }
}

/// The rail of a link at a node, and the node's name over it.
fn put_rail(
    out: &mut Vec<Shape>,
    setting: &Setting,
    rows: u16,
    node: u32,
    x: u16,
) -> Result<(), NoMemory>
    ensures { OnOk result (out.new.items
        ≡ out.old.items ++ rail_shapes setting.now rows node x) }
{
    put_straight(out, Class::Rail, u32::from(x), 70, foot(rows))?;
    let name = cut(*out.allocator(), 10, name_of(setting, node))?;
    put_title(out, Class::Faint, u32::from(x), 44, &name)
}

/// The lane of a link, with its name over it and its two rails.
fn put_link(
    out: &mut Vec<Shape>,
    setting: &Setting,
    rows: u16,
    link: &DrawnLink,
) -> Result<(), NoMemory>
    requires { IsNarrow setting.now }
    ensures { OnOk result (out.new.items
        ≡ out.old.items ++ link_shapes setting.now rows link.now) }
{
    let left = lane_left(setting, link);
    put_ground(out, Class::Lane, left, 156, rows)?;
    let words = kind_and_name(*out.allocator(), b"link ", link.name.bytes())?;
    put_title(out, Class::Strong, u32::from(left) + 78, 21, &words)?;
    put_rail(out, setting, rows, earlier_end(link), left + 24)?;
    put_rail(out, setting, rows, later_end(link), left + 132)
}

/// The lanes of all links, with their names over them.
pub(crate) fn put_links(
    out: &mut Vec<Shape>,
    setting: &Setting,
    rows: u16,
    links: &[DrawnLink],
) -> Result<(), NoMemory>
    requires { IsNarrow setting.now }
    ensures { OnOk result (out.new.items
        ≡ out.old.items ++ flat_map (link_shapes setting.now rows) links.now) }
{
    for link in links {
        put_link(out, setting, rows, link)?;
    }
    Ok(())
}

/// A stripe behind each second step.
fn put_stripe(out: &mut Vec<Shape>, setting: &Setting, spot: &Spot) -> Result<(), NoMemory>
    requires { IsNarrow setting.now }
    ensures { OnOk result (out.new.items
        ≡ out.old.items ++ stripe_shapes setting.now spot.now) }
{
    if spot.mark.line.step % 2 != 0 {
        return Ok(());
    }
    let area = Area {
        corner: Point {
            x: 0,
            y: row_top(spot.row),
        },
        width: u32::from(width_of(setting)),
        height: 18,
    };
    put_box(out, Class::Stripe, area)
}

/// A stripe behind each second step.
pub(crate) fn put_stripes(
    out: &mut Vec<Shape>,
    setting: &Setting,
    spots: &[Spot],
) -> Result<(), NoMemory>
    requires { IsNarrow setting.now }
    ensures { OnOk result (out.new.items
        ≡ out.old.items ++ flat_map (stripe_shapes setting.now) spots.now) }
{
    for spot in spots {
        put_stripe(out, setting, spot)?;
    }
    Ok(())
}

fn is_ended(kind: MarkKind) -> bool
    ensures { result ≡ is_ended kind }
{
    match kind {
        MarkKind::Ended => true,
        _ => false,
    }
}

/// The first mark on an actor's line.
fn first_of<'a>(spots: &'a [Spot], actor: &DrawnActor) -> Option<&'a Spot>
    ensures { option_copied result ≡ first_of spots.now actor.now }
{
    let column = Column::Life(actor.actor);
    spots.iter().find(|s| same_column(s.mark.column, column))
}

/// The mark of an actor's end.
fn last_of<'a>(spots: &'a [Spot], actor: &DrawnActor) -> Option<&'a Spot>
    ensures { option_copied result ≡ last_of spots.now actor.now }
{
    let column = Column::Life(actor.actor);
    spots.iter().find(|s| same_column(s.mark.column, column) && is_ended(s.mark.kind))
}

/// How far down a line ends.
fn end_of(rows: u16, last: Option<&Spot>) -> u32
    ensures { result ≡ end_of rows (option_copied last.entry) }
{
    match last {
        Some(spot) => row_top(spot.row) + 9,
        None => foot(rows),
    }
}

/// The line of an actor from its first mark on.
fn put_life(
    out: &mut Vec<Shape>,
    rows: u16,
    x: u32,
    first: Option<&Spot>,
    last: Option<&Spot>,
) -> Result<(), NoMemory>
    ensures { OnOk result (out.new.items ≡ out.old.items
        ++ life_shapes rows x (option_copied first.entry) (option_copied last.entry)) }
{
    match first {
        Some(first) => {
            put_straight(
                out,
                Class::Life,
                x,
                row_top(first.row) + 9,
                end_of(rows, last),
            )
        }
        None => Ok(()),
    }
}

/// How many characters of an actor's captions there is room for.
fn name_room(setting: &Setting) -> usize
    ensures room { result ≡ name_room setting.now }
    ensures some { 2 ≤ result }
{
    gap(setting) as usize / 7
}

/// The line of an actor, and its captions over it.
fn put_actor(
    out: &mut Vec<Shape>,
    setting: &Setting,
    rows: u16,
    spots: &[Spot],
    actor: &DrawnActor,
) -> Result<(), NoMemory>
    requires { IsNarrow setting.now }
    ensures { OnOk result (out.new.items
        ≡ out.old.items ++ actor_shapes setting.now rows spots.now actor.now) }
{
    let alloc = *out.allocator();
    let x = u32::from(life_left(setting, actor)) + 32;
    let caption = cut(alloc, name_room(setting), actor.caption.bytes())?;
    put_title(out, Class::Strong, x, 44, &caption)?;
    let subcaption = cut(alloc, name_room(setting), actor.subcaption.bytes())?;
    put_title(out, Class::Faint, x, 58, &subcaption)?;
    put_life(out, rows, x, first_of(spots, actor), last_of(spots, actor))
}

/// The lines of all actors, with their captions over them.
pub(crate) fn put_actors(
    out: &mut Vec<Shape>,
    setting: &Setting,
    rows: u16,
    spots: &[Spot],
    actors: &[DrawnActor],
) -> Result<(), NoMemory>
    requires { IsNarrow setting.now }
    ensures { OnOk result (out.new.items
        ≡ out.old.items ++ flat_map (actor_shapes setting.now rows spots.now) actors.now) }
{
    for actor in actors {
        put_actor(out, setting, rows, spots, actor)?;
    }
    Ok(())
}
