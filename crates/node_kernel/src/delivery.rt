//! Effects bring items to endpoints: all of a step's, or none.
ghost use Rattle.std.specs.Prelude.{◌≡◌, ℕ, List, map, IfOk, OnOk, OnErr};
ghost use Rattle.node_kernel.specs.Nodes.{OpenEndpoint, put_all};
ghost use Rattle.node_kernel.specs.Kept.{AreRising, bring_into, delivery_at, name_entry};
ghost use Rattle.node_kernel.specs.Kept.{receiver_of};

use crate::endpoint::Endpoint;
use crate::lookup::{deliver, take_last};
use journal::Effect;
use linx_base::{Inc, Item, ItemAt, Kind, NoMemory, Peer, SigNote, Signal, TryCopy};

/// An item, and the endpoint whose queue it goes into.
#[derive(Drop)]
pub(crate) struct Delivery {
    pub(crate) to: Inc,
    pub(crate) item: Item,
}

/// A delivery, whose signal is that of a note.
fn make_delivery(
    to: Inc,
    from: Peer,
    note: &SigNote,
    kind: Kind,
    pos: ItemAt,
) -> Result<Delivery, NoMemory>
    ensures { IfOk result (λ made. made ≡ record {
      to = to;
      item = record { signal = note.now; from = from; kind = kind; pos = pos };
    }) }
{
    let signal = note.signal()?;
    Ok(Delivery {
        to,
        item: Item {
            signal,
            from,
            kind,
            pos,
        },
    })
}

/// What an effect at this position delivers.
fn delivery_at(effect: &Effect, pos: ItemAt) -> Result<Option<Delivery>, NoMemory>
    ensures { IfOk result (λ made. made ≡ delivery_at pos effect.now) }
{
    let made = match effect {
        Effect::Arrived(to, from, note) => make_delivery(*to, *from, note, Kind::Plain, pos)?,
        Effect::Found(to, from, note, hunt) => make_delivery(
            *to,
            *from,
            note,
            Kind::Found(*hunt),
            pos,
        )?,
        Effect::Notified(to, from, note, attach, _) => {
            make_delivery(*to, *from, note, Kind::Notice(*attach), pos)?
        }
        Effect::Opened(_)
        | Effect::Closed(_)
        | Effect::Met(..)
        | Effect::Gone(..)
        | Effect::Up(..)
        | Effect::Down(..) => return Ok(None),
    };
    Ok(Some(made))
}

/// The endpoint that an effect delivers to.
fn receiver_of(effect: &Effect) -> Option<Inc>
    ensures { result ≡ receiver_of effect.now }
{
    match effect {
        Effect::Arrived(to, ..) | Effect::Found(to, ..) | Effect::Notified(to, ..) => Some(*to),
        Effect::Opened(_)
        | Effect::Closed(_)
        | Effect::Met(..)
        | Effect::Gone(..)
        | Effect::Up(..)
        | Effect::Down(..) => None,
    }
}

/// Puts what an effect delivers into the queue of its endpoint, if that is open. A refusal changes
/// nothing.
fn bring(endpoints: &mut [Endpoint], effect: &Effect, pos: ItemAt) -> Result<(), NoMemory>
    requires { AreRising endpoints.old }
    ensures ok { OnOk result (endpoints.new ≡ map (bring_into pos effect.now) endpoints.old) }
    ensures err { OnErr result (endpoints.new ≡ endpoints.old) }
{
    let Some(made) = delivery_at(effect, pos)? else {
        return Ok(());
    };
    match deliver(endpoints, made.to, made.item) {
        Ok(_) => Ok(()),
        Err(_) => Err(NoMemory),
    }
}

/// Takes back what an effect delivered.
fn take_back(endpoints: &mut [Endpoint], effect: &Effect)
    requires { AreRising endpoints.old }
    ensures same { map name_entry endpoints.new ≡ map name_entry endpoints.old }
    ensures back { (pos : ItemAt) (before : List OpenEndpoint)
        → endpoints.old ≡ map (bring_into pos effect.now) before → endpoints.new ≡ before }
{
    if let Some(to) = receiver_of(effect) {
        take_last(endpoints, to);
    }
}

/// Takes back what a step's effects delivered.
pub(crate) fn take_back_all(endpoints: &mut [Endpoint], effects: &[Effect])
    requires { AreRising endpoints.old }
    ensures same { map name_entry endpoints.new ≡ map name_entry endpoints.old }
    ensures back { (step : ℕ) (before : List OpenEndpoint)
        → endpoints.old ≡ put_all step effects.now before → endpoints.new ≡ before }
{
    let mut left = effects.len();
    while left > 0 {
        left -= 1;
        take_back(endpoints, &effects[left]);
    }
}

/// Puts what a step's effects deliver into the queues of their endpoints. A refusal changes
/// nothing.
pub(crate) fn bring_all(
    endpoints: &mut [Endpoint],
    effects: &[Effect],
    step: u64,
) -> Result<(), NoMemory>
    requires { AreRising endpoints.old }
    ensures ok { OnOk result (endpoints.new ≡ put_all step effects.now endpoints.old) }
    ensures err { OnErr result (endpoints.new ≡ endpoints.old) }
{
    for k in 0..effects.len() {
        let pos = ItemAt {
            step,
            place: k as u64 + 1,
        };
        if let Err(refusal) = bring(endpoints, &effects[k], pos) {
            take_back_all(endpoints, &effects[..k]);
            return Err(refusal);
        }
    }
    Ok(())
}
