//! Where things stand in a map, from left to right and from the top down. What stands side by side is in
//! the order of a chart, of at most 64 nodes, links and actors.
ghost use Rattle.std.specs.Prelude.{◌≡◌, ◌≤◌, ◌*◌};
ghost use Rattle.chart_drawing.specs.Layout.{IsNarrow};
ghost use Rattle.chart_map.specs.Layout.{is_wide, strip_width, node_left, lane_left, box_left};
ghost use Rattle.chart_map.specs.Layout.{box_width, strip_left, way_left, right_edge, row_top};
ghost use Rattle.chart_map.specs.Layout.{depth, height_of, label_room};

use chart_drawing::{
    DrawnActor, DrawnLink, Setting, actors_before, actors_left, actors_on, later_end, links_before,
    links_left, links_to, nodes_before,
};
use linx_base::Side;

/// Where the strips begin.
pub(crate) const LEFT: u32 = 66;

const TOP: u32 = 88;

/// Whether there are so few actors that their strips have room for names.
pub(crate) fn is_wide(setting: &Setting) -> bool
    ensures { result ≡ is_wide setting.now }
{
    setting.actors.len() <= 12
}

/// How wide the strip of an actor is, with the gap behind it.
pub(crate) fn strip_width(setting: &Setting) -> u32
    ensures width { result ≡ strip_width setting.now }
    ensures least { 22 ≤ result }
    ensures most { result ≤ 64 }
{
    if is_wide(setting) { 64 } else { 22 }
}

/// The room of so many strips.
fn strips(setting: &Setting, count: usize) -> u32
    requires { count ≤ 64 }
    ensures room { result ≡ strip_width setting.now * count }
    ensures bound { result ≤ 4096 }
{
    if is_wide(setting) {
        64 * count as u32
    } else {
        22 * count as u32
    }
}

/// Where what belongs to a node begins.
#[tactic(auto, unfolding(crate::specs::Layout::node_left))]
fn node_left(setting: &Setting, node: u32) -> u32
    requires { IsNarrow setting.now }
    ensures left { result ≡ node_left setting.now node }
    ensures bound { result ≤ 20000 }
{
    let boxes = LEFT + 34 * nodes_before(setting, node) as u32;
    let lanes = 78 * links_before(setting, node) as u32;
    boxes + strips(setting, actors_before(setting, node)) + lanes
}

/// The left edge of a link's lane.
#[tactic(auto, unfolding(crate::specs::Layout::lane_left))]
pub(crate) fn lane_left(setting: &Setting, link: &DrawnLink) -> u32
    requires { IsNarrow setting.now }
    ensures left { result ≡ lane_left setting.now link.now }
    ensures bound { result ≤ 30000 }
{
    let node = later_end(link);
    node_left(setting, node) + 78 * links_left(setting, node, link.link.0) as u32
}

/// The left edge of a node's box.
#[tactic(auto, unfolding(crate::specs::Layout::box_left))]
pub(crate) fn box_left(setting: &Setting, node: u32) -> u32
    requires { IsNarrow setting.now }
    ensures left { result ≡ box_left setting.now node }
    ensures bound { result ≤ 30000 }
{
    node_left(setting, node) + 78 * links_to(setting, node) as u32
}

/// The width of a node's box.
#[tactic(auto, unfolding(crate::specs::Layout::box_width))]
pub(crate) fn box_width(setting: &Setting, node: u32) -> u32
    requires { IsNarrow setting.now }
    ensures width { result ≡ box_width setting.now node }
    ensures least { 28 ≤ result }
    ensures bound { result ≤ 4124 }
{
    28 + strips(setting, actors_on(setting, node))
}

/// The left edge of an actor's strip.
#[tactic(auto, unfolding(crate::specs::Layout::strip_left))]
pub(crate) fn strip_left(setting: &Setting, actor: &DrawnActor) -> u32
    requires { IsNarrow setting.now }
    ensures left { result ≡ strip_left setting.now actor.now }
    ensures bound { result ≤ 40000 }
{
    let node = actor.node.0;
    let before = strips(setting, actors_left(setting, node, actor.actor));
    box_left(setting, node) + 14 + before
}

/// The left edge of the strip of a link's direction.
#[tactic(auto, unfolding(crate::specs::Layout::way_left))]
pub(crate) fn way_left(setting: &Setting, link: &DrawnLink, from: Side) -> u32
    requires { IsNarrow setting.now }
    ensures left { result ≡ way_left setting.now link.now from }
    ensures bound { result ≤ 40000 }
{
    match from {
        Side::First => lane_left(setting, link) + 14,
        Side::Second => lane_left(setting, link) + 36,
    }
}

/// The right edge of all strips.
#[tactic(auto, unfolding(crate::specs::Layout::right_edge))]
pub(crate) fn right_edge(setting: &Setting) -> u32
    requires { IsNarrow setting.now }
    ensures edge { result ≡ right_edge setting.now }
    ensures bound { result ≤ 20000 }
{
    let boxes = LEFT + 34 * setting.nodes.len() as u32;
    let lanes = 78 * setting.links.len() as u32;
    boxes + strips(setting, setting.actors.len()) + lanes
}

/// How far down a row begins.
pub(crate) fn row_top(row: u32) -> u32
    requires { row ≤ 1000 }
    ensures top { result ≡ row_top row }
    ensures bound { result ≤ 3088 }
{
    TOP + 3 * row
}

/// How far the strips and what stands beside them go down from their top.
fn depth(rows: u32) -> u32
    requires { rows ≤ 240 }
    ensures depth { result ≡ depth rows }
    ensures bound { result ≤ 760 }
    ensures least { 200 ≤ result }
{
    (3 * rows + 40).max(200)
}

/// The height of a map.
pub(crate) fn height_of(rows: u32) -> u32
    requires { rows ≤ 240 }
    ensures { result ≡ height_of rows }
{
    TOP + depth(rows)
}

/// How many rare lines there is room for.
pub(crate) fn label_room(rows: u32) -> usize
    requires { rows ≤ 240 }
    ensures room { result ≡ label_room rows }
    ensures few { result ≤ 52 }
{
    (depth(rows) / 14 - 2) as usize
}
