//! The nodes that a link joins, as far as the steps tell them.
ghost use Rattle.std.specs.Prelude.{◌≡◌, slice_get};
ghost use Rattle.journal_charts.specs.Ends.{same_side, is_met_at, node_of_effect, node_of_first};
ghost use Rattle.journal_charts.specs.Ends.{end_told, or_told, end_in, first_end, second_end};

use journal::{Effect, Head, Journal, Step};
use linx_base::{LinkNo, NodeNo, Side};

/// Where a link ends to the left and to the right that no step tells: beside all nodes.
const LEFTMOST: NodeNo = NodeNo(0);

pub(crate) const RIGHTMOST: NodeNo = NodeNo(u32::MAX);

fn same_side(one: Side, other: Side) -> bool
    ensures { result ≡ same_side one other }
{
    match (one, other) {
        (Side::First, Side::First) | (Side::Second, Side::Second) => true,
        _ => false,
    }
}

/// Whether what a step brings comes to this side of a link: a packet from the other side, or a tick
/// of its clock.
fn is_met_at(link: LinkNo, side: Side, head: &Head) -> bool
    ensures { result ≡ is_met_at link side head.now }
{
    match head {
        Head::Wire(on, from, _) => on.0 == link.0 && !same_side(*from, side),
        Head::Tick(on, at) => on.0 == link.0 && same_side(*at, side),
        _ => false,
    }
}

/// The node that an effect names.
fn node_of_effect(effect: &Effect) -> Option<NodeNo>
    ensures { result ≡ node_of_effect effect.now }
{
    match effect {
        Effect::Met(node, ..)
        | Effect::Gone(node, _)
        | Effect::Up(node, ..)
        | Effect::Down(node, ..) => Some(*node),
        _ => None,
    }
}

/// The node that a step's first effect names.
fn node_of_first(effects: &[Effect]) -> Option<NodeNo>
    ensures { result ≡ node_of_first (slice_get effects.now 0) }
{
    match effects.first() {
        Some(effect) => node_of_effect(effect),
        None => None,
    }
}

/// The node at a side of a link, if the step tells it.
fn end_told(link: LinkNo, side: Side, step: &Step) -> Option<NodeNo>
    ensures { result ≡ end_told link side step.now }
{
    if is_met_at(link, side, &step.head) {
        node_of_first(step.effects.as_slice())
    } else {
        None
    }
}

/// What was told before, or else what is told now.
fn or_told(before: Option<NodeNo>, now: Option<NodeNo>) -> Option<NodeNo>
    ensures { result ≡ or_told before now }
{
    match before {
        Some(node) => Some(node),
        None => now,
    }
}

/// The node at a side of a link that the first step tells which tells one.
fn end_in(journal: &Journal, link: LinkNo, side: Side) -> Option<NodeNo>
    ensures { result ≡ end_in journal.now.log.steps link side }
{
    let mut end = None;
    for done in 0..journal.len() {
        let step = journal.step_after(done);
        end = or_told(end, end_told(link, side, step));
    }
    end
}

/// The node at the first side of a link.
pub(crate) fn first_end(journal: &Journal, link: LinkNo) -> NodeNo
    ensures { result ≡ first_end journal.now.log.steps link }
{
    match end_in(journal, link, Side::First) {
        Some(node) => node,
        None => LEFTMOST,
    }
}

/// The node at its second side.
pub(crate) fn second_end(journal: &Journal, link: LinkNo) -> NodeNo
    ensures { result ≡ second_end journal.now.log.steps link }
{
    match end_in(journal, link, Side::Second) {
        Some(node) => node,
        None => RIGHTMOST,
    }
}
