//! Where things stand from left to right. Lengths are counted in pixels, and all of them fit 16
//! bits, since a setting that is drawn has at most 64 nodes, links and actors.
ghost use Rattle.std.specs.Prelude.{◌≡◌, ◌≤◌, ◌*◌};
ghost use Rattle.chart_drawing.specs.Layout.{IsNarrow, is_narrow, earlier_end, later_end, end_at};
ghost use Rattle.chart_drawing.specs.Layout.{is_right, gap, nodes_before, actors_before};
ghost use Rattle.chart_drawing.specs.Layout.{actors_on, actors_left, links_before, links_to};
ghost use Rattle.chart_drawing.specs.Layout.{links_left, node_left, lane_left, box_left, box_width};
ghost use Rattle.chart_drawing.specs.Layout.{life_left, width_of, text_width};

use crate::setting::{DrawnActor, DrawnLink, Setting};
use linx_base::Side;

/// The most nodes, links and actors of a drawing.
const MOST: usize = 64;

/// Whether the setting is narrow enough to be drawn.
pub fn is_narrow(setting: &Setting) -> bool
    ensures { result ≡ is_narrow setting.now }
{
    setting.nodes.len() <= MOST && setting.links.len() <= MOST && setting.actors.len() <= MOST
}

/// The number of the node at a link's left rail.
pub(crate) fn earlier_end(link: &DrawnLink) -> u32
    ensures { result ≡ earlier_end link.now }
{
    link.first.0.min(link.second.0)
}

/// The number of the node at a link's right rail.
pub fn later_end(link: &DrawnLink) -> u32
    ensures { result ≡ later_end link.now }
{
    link.first.0.max(link.second.0)
}

/// The number of the node at a side of a link.
pub(crate) fn end_at(side: Side, link: &DrawnLink) -> u32
    ensures { result ≡ end_at side link.now }
{
    match side {
        Side::First => link.first.0,
        Side::Second => link.second.0,
    }
}

/// Whether a node's rail of a link is the right one.
pub(crate) fn is_right(node: u32, link: &DrawnLink) -> bool
    ensures { result ≡ is_right node link.now }
{
    node != earlier_end(link)
}

/// How much room the lines of the journal have at the left.
pub(crate) fn text_width(setting: &Setting) -> u16
    ensures width { result ≡ text_width setting.now }
    ensures least { 60 ≤ result }
    ensures most { result ≤ 364 }
{
    if setting.view.plain { 60 } else { 364 }
}

/// How far apart actors stand.
pub(crate) fn gap(setting: &Setting) -> u16
    ensures gap { result ≡ gap setting.now }
    ensures least { 84 ≤ result }
    ensures most { result ≤ 168 }
{
    let actors = setting.actors.len();
    if actors <= 6 {
        168
    } else if actors <= 12 {
        120
    } else {
        84
    }
}

/// The room of so many actors.
fn gaps(setting: &Setting, count: usize) -> u16
    requires { count ≤ 64 }
    ensures room { result ≡ gap setting.now * count }
    ensures bound { result ≤ 10752 }
{
    let actors = setting.actors.len();
    if actors <= 6 {
        168 * count as u16
    } else if actors <= 12 {
        120 * count as u16
    } else {
        84 * count as u16
    }
}

/// How many nodes have a lower number.
#[tactic(auto, using(crate::proofs::Counts::filter_short))]
pub fn nodes_before(setting: &Setting, node: u32) -> usize
    requires { IsNarrow setting.now }
    ensures count { result ≡ nodes_before setting.now node }
    ensures bound { result ≤ 64 }
{
    setting
        .nodes
        .as_slice()
        .iter()
        .filter(|n| n.node.0 < node)
        .count()
}

/// How many actors are on nodes with a lower number.
#[tactic(auto, using(crate::proofs::Counts::filter_short))]
pub fn actors_before(setting: &Setting, node: u32) -> usize
    requires { IsNarrow setting.now }
    ensures count { result ≡ actors_before setting.now node }
    ensures bound { result ≤ 64 }
{
    setting
        .actors
        .as_slice()
        .iter()
        .filter(|a| a.node.0 < node)
        .count()
}

/// How many actors are on a node.
#[tactic(auto, using(crate::proofs::Counts::filter_short))]
pub fn actors_on(setting: &Setting, node: u32) -> usize
    requires { IsNarrow setting.now }
    ensures count { result ≡ actors_on setting.now node }
    ensures bound { result ≤ 64 }
{
    setting
        .actors
        .as_slice()
        .iter()
        .filter(|a| a.node.0 == node)
        .count()
}

/// How many actors of a node have a lower number than this one.
#[tactic(auto, using(crate::proofs::Counts::filter_short))]
pub fn actors_left(setting: &Setting, node: u32, actor: u32) -> usize
    requires { IsNarrow setting.now }
    ensures count { result ≡ actors_left setting.now node actor }
    ensures bound { result ≤ 64 }
{
    let actors = setting.actors.as_slice().iter();
    actors
        .filter(|a| a.node.0 == node && a.actor < actor)
        .count()
}

/// How many links have their later end at a node with a lower number.
#[tactic(auto, using(crate::proofs::Counts::filter_short))]
pub fn links_before(setting: &Setting, node: u32) -> usize
    requires { IsNarrow setting.now }
    ensures count { result ≡ links_before setting.now node }
    ensures bound { result ≤ 64 }
{
    setting
        .links
        .as_slice()
        .iter()
        .filter(|l| later_end(l) < node)
        .count()
}

/// How many links have their later end at this node.
#[tactic(auto, using(crate::proofs::Counts::filter_short))]
pub fn links_to(setting: &Setting, node: u32) -> usize
    requires { IsNarrow setting.now }
    ensures count { result ≡ links_to setting.now node }
    ensures bound { result ≤ 64 }
{
    setting
        .links
        .as_slice()
        .iter()
        .filter(|l| later_end(l) == node)
        .count()
}

/// How many links have their later end at this node, and a lower number than this one.
#[tactic(auto, using(crate::proofs::Counts::filter_short))]
pub fn links_left(setting: &Setting, node: u32, link: u32) -> usize
    requires { IsNarrow setting.now }
    ensures count { result ≡ links_left setting.now node link }
    ensures bound { result ≤ 64 }
{
    let links = setting.links.as_slice().iter();
    links
        .filter(|l| later_end(l) == node && l.link.0 < link)
        .count()
}

/// Where what belongs to a node begins.
#[tactic(auto, unfolding(crate::specs::Layout::node_left))]
fn node_left(setting: &Setting, node: u32) -> u16
    requires { IsNarrow setting.now }
    ensures left { result ≡ node_left setting.now node }
    ensures bound { result ≤ 23660 }
{
    let boxes = text_width(setting) + 34 * nodes_before(setting, node) as u16;
    let columns = gaps(setting, actors_before(setting, node));
    let lanes = 162 * links_before(setting, node) as u16;
    boxes + columns + lanes
}

/// The left edge of a link's lane.
#[tactic(auto, unfolding(crate::specs::Layout::lane_left))]
pub(crate) fn lane_left(setting: &Setting, link: &DrawnLink) -> u16
    requires { IsNarrow setting.now }
    ensures left { result ≡ lane_left setting.now link.now }
    ensures bound { result ≤ 34028 }
{
    let node = later_end(link);
    node_left(setting, node) + 162 * links_left(setting, node, link.link.0) as u16
}

/// The left edge of a node's box.
#[tactic(auto, unfolding(crate::specs::Layout::box_left))]
pub(crate) fn box_left(setting: &Setting, node: u32) -> u16
    requires { IsNarrow setting.now }
    ensures left { result ≡ box_left setting.now node }
    ensures bound { result ≤ 34028 }
{
    node_left(setting, node) + 162 * links_to(setting, node) as u16
}

/// The width of a node's box.
#[tactic(auto, unfolding(crate::specs::Layout::box_width))]
pub(crate) fn box_width(setting: &Setting, node: u32) -> u16
    requires { IsNarrow setting.now }
    ensures width { result ≡ box_width setting.now node }
    ensures bound { result ≤ 10780 }
{
    28 + gaps(setting, actors_on(setting, node))
}

/// Where the cells of an actor begin.
#[tactic(auto, unfolding(crate::specs::Layout::life_left))]
pub(crate) fn life_left(setting: &Setting, actor: &DrawnActor) -> u16
    requires { IsNarrow setting.now }
    ensures { result ≡ life_left setting.now actor.now }
{
    let node = actor.node.0;
    let columns = gaps(setting, actors_left(setting, node, actor.actor));
    box_left(setting, node) + 12 + columns
}

/// The width of the picture.
#[tactic(auto, unfolding(crate::specs::Layout::width_of))]
pub(crate) fn width_of(setting: &Setting) -> u16
    requires { IsNarrow setting.now }
    ensures { result ≡ width_of setting.now }
{
    let boxes = text_width(setting) + 10 + 34 * setting.nodes.len() as u16;
    let columns = gaps(setting, setting.actors.len());
    let lanes = 162 * setting.links.len() as u16;
    boxes + columns + lanes
}
