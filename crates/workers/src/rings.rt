//! Whom to ring after a step, by what it did. A worker sleeps where its actor waits for a signal,
//! or where its link doesn't stir. An actor's look finds something once an item that it selects is
//! in its queue, once somebody else closes its endpoint, or once it is at rest; a pump has work
//! once its link stirs, and is done once all actors have ended. Each of these comes by a step, and
//! that step's maker rings.
ghost use Rattle.std.specs.Prelude.{◌≡◌, ◌<◌, ◌≤◌, length, true, IfSome, IfNone};
ghost use Rattle.fabric.specs.Machine.{all_have_ended};

use fabric::Fabric;
use journal::{By, Effect, Head, Step};
use linx_base::{Inc, LinkNo, Peer};

/// The workers that are called: a bit for each, by its number less 1.
#[derive(Clone, Copy, PartialEq, Eq)]
pub(crate) struct Rings {
    bits: u128,
}

impl Rings {
    /// Nobody.
    pub(crate) fn none() -> Rings {
        Rings { bits: 0 }
    }

    /// Everybody.
    pub(crate) fn all() -> Rings {
        Rings { bits: u128::MAX }
    }

    /// Whether nobody is called.
    pub(crate) fn is_none(self) -> bool {
        self.bits == 0
    }

    /// Whether the worker in this place is called.
    pub(crate) fn calls(self, place: usize) -> bool {
        self.bits & bit_of(place) != 0
    }

    /// Calls the worker of this number, too.
    fn call(&mut self, number: u32) {
        self.bits |= bit_of((number as usize).wrapping_sub(1));
    }
}

fn bit_of(place: usize) -> u128 {
    1u128.wrapping_shl(u32::try_from(place % 128).unwrap_or(0))
}

/// Whom to ring after what was done since the journal had so many steps.
pub(crate) fn rings_since(fabric: &Fabric, links: u32, before: u64) -> Rings
    requires { links ≡ length fabric.now.shape.links }
{
    let journal = fabric.journal();
    let position = journal.len();
    if position == before {
        return Rings::none();
    }
    // a settle makes many steps at once
    if position != before.wrapping_add(1) {
        return Rings::all();
    }
    match journal.step(position) {
        Some(step) => rings_after(fabric, links, step),
        None => Rings::none(),
    }
}

/// Whom to ring after the last step.
fn rings_after(fabric: &Fabric, links: u32, step: &Step) -> Rings
    requires { links ≡ length fabric.now.shape.links }
{
    let mut rings = Rings::none();
    call_owners(&mut rings, fabric, step.effects.as_slice());
    match &step.head {
        Head::Take(..) | Head::TakeNone(_) | Head::Refused(_) => {}
        Head::Waits(_) => call_first_at_rest(&mut rings, fabric),
        Head::Send(to, ..) => {
            if let Peer::There { link, .. } = to {
                call_pump(&mut rings, fabric, links, *link);
            }
        }
        Head::Cut(link) | Head::Mend(link) => call_pump(&mut rings, fabric, links, *link),
        Head::Wire(link, ..) | Head::Tick(link, _) => {
            call_after_pumped(&mut rings, fabric, links, *link)
        }
        Head::Open(_) | Head::Close | Head::Hunt(..) | Head::Attach(..) | Head::Detach(..) => {
            call_pumps(&mut rings, fabric, links)
        }
        Head::Ended => return rings_after_end(rings, fabric, links),
        // others may have lost their endpoints
        Head::Restart(_) | Head::Settle(_) => return Rings::all(),
    }
    rings
}

/// After the end of an actor the pumps may have work, and are done where it was the last one; and
/// the others may be at rest.
fn rings_after_end(mut rings: Rings, fabric: &Fabric, links: u32) -> Rings
    requires { links ≡ length fabric.now.shape.links }
{
    let Some(first) = first_running(fabric) else {
        return Rings::all();
    };
    call_pumps(&mut rings, fabric, links);
    if fabric.may_find_none(first) {
        rings.call(first);
    }
    rings
}

/// After a step of a link's pump the link may be quiet, and then an actor at rest. Else the link
/// has more work.
fn call_after_pumped(rings: &mut Rings, fabric: &Fabric, links: u32, link: LinkNo)
    requires { links ≡ length fabric.now.shape.links }
{
    if 0 < link.0 && link.0 <= links && !fabric.stirs(link) {
        call_first_at_rest(rings, fabric);
    }
}

/// The first actor that hasn't ended.
pub(crate) fn first_running(fabric: &Fabric) -> Option<u32>
    ensures some { IfSome result (λ n. (0 < n) × (n ≤ length fabric.now.shape.actors)) }
    ensures none { IfNone result
        (all_have_ended fabric.now.shape fabric.now.log.steps ≡ true) }
{
    for place in 0..fabric.actor_count() {
        if !fabric.has_ended(place + 1) {
            return Some(place + 1);
        }
    }
    None
}

/// Calls the first actor that hasn't ended, if it is at rest: no other one can be.
fn call_first_at_rest(rings: &mut Rings, fabric: &Fabric) {
    if let Some(first) = first_running(fabric) {
        if fabric.may_find_none(first) {
            rings.call(first);
        }
    }
}

/// Calls the pump of a link that stirs.
fn call_pump(rings: &mut Rings, fabric: &Fabric, links: u32, link: LinkNo)
    requires { links ≡ length fabric.now.shape.links }
{
    if 0 < link.0 && link.0 <= links && fabric.stirs(link) {
        rings.call(fabric.actor_count() + link.0);
    }
}

/// Calls the pump of each link that stirs.
fn call_pumps(rings: &mut Rings, fabric: &Fabric, links: u32)
    requires { links ≡ length fabric.now.shape.links }
{
    for place in 0..links {
        call_pump(rings, fabric, links, LinkNo(place + 1));
    }
}

/// Calls the actors into whose queues items came that they wait for.
fn call_owners(rings: &mut Rings, fabric: &Fabric, effects: &[Effect]) {
    for effect in effects {
        if let Some(inc) = receiver_of(effect) {
            call_owner(rings, fabric, inc);
        }
    }
}

/// The endpoint into whose queue an item came.
fn receiver_of(effect: &Effect) -> Option<Inc> {
    match effect {
        Effect::Arrived(inc, ..) => Some(*inc),
        Effect::Found(inc, ..) => Some(*inc),
        Effect::Notified(inc, ..) => Some(*inc),
        _ => None,
    }
}

/// Calls the actor that has this endpoint, unless it still waits in vain.
fn call_owner(rings: &mut Rings, fabric: &Fabric, inc: Inc) {
    for place in 0..fabric.actor_count() {
        if fabric.endpoint_of(place + 1) == Some(inc) {
            if !fabric.is_idle(place + 1) {
                rings.call(place + 1);
            }
            return;
        }
    }
}
