//! The strips of a map, and whose steps each has.
ghost use Rattle.std.specs.Prelude.{◌≡◌};
ghost use Rattle.chart_map.specs.Strips.{strip_of_maker, strip_of, same_side, same_strip, is_of};

use journal::{By, Head, Step};
use linx_base::{LinkNo, Side};

/// What a strip has the steps of: an actor, but for those by which it settles a link, or what goes
/// over a link from this side.
#[derive(Clone, Copy, Debug, PartialEq, Eq)]
pub enum Strip {
    Actor(u32),
    Way(LinkNo, Side),
}

/// The strip of what a maker does itself.
fn strip_of_maker(by: By) -> Strip
    ensures { result ≡ strip_of_maker by }
{
    match by {
        By::Actor(actor) => Strip::Actor(actor),
        By::Pump(link) => Strip::Way(link, Side::First),
    }
}

/// The strip of a step: packets and ticks stand in those of their links.
fn strip_of(step: &Step) -> Strip
    ensures { result ≡ strip_of step.now }
{
    match &step.head {
        Head::Wire(link, side, _) | Head::Tick(link, side) => Strip::Way(*link, *side),
        _ => strip_of_maker(step.by),
    }
}

fn same_side(one: Side, other: Side) -> bool
    ensures { result ≡ same_side one other }
{
    match (one, other) {
        (Side::First, Side::First) | (Side::Second, Side::Second) => true,
        _ => false,
    }
}

/// Whether both are the same strip.
fn same_strip(one: Strip, other: Strip) -> bool
    ensures { result ≡ same_strip one other }
{
    match (one, other) {
        (Strip::Actor(a), Strip::Actor(b)) => a == b,
        (Strip::Way(link, side), Strip::Way(on, from)) => link.0 == on.0 && same_side(side, from),
        _ => false,
    }
}

/// Whether a step is of a strip.
pub(crate) fn is_of(strip: Strip, step: &Step) -> bool
    ensures { result ≡ is_of strip step.now }
{
    same_strip(strip_of(step), strip)
}
