//! Where the cells of a column begin, and which way its marks are turned.
ghost use Rattle.std.specs.Prelude.{◌≡◌};
ghost use Rattle.std.specs.Option.{option_copied};
ghost use Rattle.chart_drawing.specs.Layout.{IsNarrow, actor_of, link_of, node_of, column_left};
ghost use Rattle.chart_drawing.specs.Layout.{life_left_if, lane_left_if, rail_left, rail_left_if};
ghost use Rattle.chart_drawing.specs.Layout.{is_right_if, goes_left_if, is_turned, nowhere_left};

use crate::layout::{end_at, is_right, lane_left, life_left, text_width};
use crate::setting::{DrawnActor, DrawnLink, DrawnNode, Setting};
use chart::Column;
use linx_base::{LinkNo, Side};

/// Where the marks of a column stand that no actor and no link has.
fn nowhere_left(setting: &Setting) -> u16
    ensures { result ≡ nowhere_left setting.now }
{
    text_width(setting) - 52
}

fn actor_of(setting: &Setting, number: u32) -> Option<&DrawnActor>
    ensures { option_copied result ≡ actor_of setting.now number }
{
    setting.actors.as_slice().iter().find(|a| a.actor == number)
}

/// The link of a number, if there is one.
pub(crate) fn link_of(setting: &Setting, number: u32) -> Option<&DrawnLink>
    ensures { option_copied result ≡ link_of setting.now number }
{
    setting.links.as_slice().iter().find(|l| l.link.0 == number)
}

/// The node of a number, if there is one.
pub(crate) fn node_of(setting: &Setting, number: u32) -> Option<&DrawnNode>
    ensures { option_copied result ≡ node_of setting.now number }
{
    setting.nodes.as_slice().iter().find(|n| n.node.0 == number)
}

fn life_left_of(setting: &Setting, number: u32) -> u16
    requires { IsNarrow setting.now }
    ensures { result ≡ life_left_if setting.now (actor_of setting.now number) }
{
    match actor_of(setting, number) {
        Some(actor) => life_left(setting, actor),
        None => nowhere_left(setting),
    }
}

fn lane_left_of(setting: &Setting, number: u32) -> u16
    requires { IsNarrow setting.now }
    ensures { result ≡ lane_left_if setting.now (link_of setting.now number) }
{
    match link_of(setting, number) {
        Some(link) => lane_left(setting, link),
        None => nowhere_left(setting),
    }
}

fn rail_left(setting: &Setting, node: u32, link: &DrawnLink) -> u16
    requires { IsNarrow setting.now }
    ensures { result ≡ rail_left setting.now node link.now }
{
    let inside = if is_right(node, link) { 116 } else { 8 };
    lane_left(setting, link) + inside
}

fn rail_left_of(setting: &Setting, node: u32, number: u32) -> u16
    requires { IsNarrow setting.now }
    ensures { result ≡ rail_left_if setting.now node (link_of setting.now number) }
{
    match link_of(setting, number) {
        Some(link) => rail_left(setting, node, link),
        None => nowhere_left(setting),
    }
}

fn is_right_of(setting: &Setting, node: u32, number: u32) -> bool
    ensures { result ≡ is_right_if node (link_of setting.now number) }
{
    match link_of(setting, number) {
        Some(link) => is_right(node, link),
        None => false,
    }
}

fn goes_left(setting: &Setting, side: Side, number: u32) -> bool
    ensures { result ≡ goes_left_if side (link_of setting.now number) }
{
    match link_of(setting, number) {
        Some(link) => is_right(end_at(side, link), link),
        None => false,
    }
}

/// Where the cells of a column begin.
#[tactic(auto, unfolding(crate::specs::Layout::column_left))]
pub(crate) fn column_left(setting: &Setting, column: Column) -> u16
    requires { IsNarrow setting.now }
    ensures { result ≡ column_left setting.now column }
{
    match column {
        Column::Life(actor) => life_left_of(setting, actor),
        Column::Lane(link, _) => lane_left_of(setting, link.0),
        Column::Rail(link, node) => rail_left_of(setting, node.0, link.0),
        Column::Nowhere => nowhere_left(setting),
    }
}

/// Whether the column's marks are turned.
#[tactic(auto, unfolding(crate::specs::Layout::is_turned))]
pub(crate) fn is_turned(setting: &Setting, column: Column) -> bool
    ensures { result ≡ is_turned setting.now column }
{
    match column {
        Column::Life(_) => false,
        Column::Lane(link, side) => goes_left(setting, side, link.0),
        Column::Rail(link, node) => is_right_of(setting, node.0, link.0),
        Column::Nowhere => false,
    }
}
