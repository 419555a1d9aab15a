//! What is answered, as text; effects in the words of `docs/use/text.md`.

use case_words::{add_piece, inc_text, name_text, number_text, session_text, text_of};
use hunt_table::HuntsUnder;
use journal::{Effect, Effects};
use linx_base::{Inc, Item, ItemAt, Kind, Name, Peer, Reason, SigNote};
use std::alloc::Global;
use std::test::Fail;

/// The text of some pieces, `nothing` where there are none.
pub fn or_nothing(alloc: Global, text: String) -> Result<String, Fail> {
    if text.is_empty() {
        return text_of(alloc, "nothing");
    }
    Ok(text)
}

/// The numbers of the hunts that a walk goes over, or `nothing`.
pub fn hunts_text(alloc: Global, mut hunts: HuntsUnder<'_>) -> Result<String, Fail> {
    let mut text = String::new(alloc);
    for _ in 0..u64::MAX {
        let Some(hunt) = hunts.next_entry() else {
            break;
        };
        add_piece(&mut text, " ", number_text(alloc, hunt.number)?.as_str())?;
    }
    or_nothing(alloc, text)
}

/// A name, or `none`.
pub fn name_or_none(alloc: Global, name: Option<&Name>) -> Result<String, Fail> {
    text_of(alloc, name.map_or("none", name_text))
}

pub fn peer_text(alloc: Global, peer: Peer) -> Result<String, Fail> {
    match peer {
        Peer::Here(inc) => inc_text(alloc, inc),
        Peer::There { link, session, inc } => {
            let (session, inc) = (session_text(alloc, session)?, inc_text(alloc, inc)?);
            Ok(format!(in alloc; "{}:{session}:{inc}", link.0)?)
        }
    }
}

/// A signal: its number, and its data as hexadecimal digits or `-` for none.
pub fn signal_text(alloc: Global, number: u32, data: &[u8]) -> Result<String, Fail> {
    if data.is_empty() {
        return Ok(format!(in alloc; "{number} -")?);
    }
    let digits = hex::encode(alloc, data)?;
    Ok(format!(in alloc; "{number} {digits}")?)
}

fn reason_text(reason: Reason) -> &'static str {
    match reason {
        Reason::Closed => "closed",
        Reason::Lost => "lost",
        Reason::Dead => "dead",
    }
}

/// What an effect delivers: to whom, from whom, and the signal.
fn delivery_text(alloc: Global, at: Inc, from: Peer, note: &SigNote) -> Result<String, Fail> {
    let (at, from) = (inc_text(alloc, at)?, peer_text(alloc, from)?);
    let signal = signal_text(alloc, note.number(), note.data().bytes())?;
    Ok(format!(in alloc; "{at} {from} {signal}")?)
}

fn effect_text(alloc: Global, effect: &Effect) -> Result<String, Fail> {
    let text = match effect {
        Effect::Opened(inc) => format!(in alloc; "opened {}", inc_text(alloc, *inc)?)?,
        Effect::Closed(inc) => format!(in alloc; "closed {}", inc_text(alloc, *inc)?)?,
        Effect::Arrived(at, from, note) => {
            let delivery = delivery_text(alloc, *at, *from, note)?;
            format!(in alloc; "arrived {delivery}")?
        }
        Effect::Found(at, from, note, hunt) => {
            let delivery = delivery_text(alloc, *at, *from, note)?;
            format!(in alloc; "found {delivery} @{hunt}")?
        }
        Effect::Notified(at, from, note, attach, reason) => {
            let delivery = delivery_text(alloc, *at, *from, note)?;
            let reason = reason_text(*reason);
            format!(in alloc; "notified {delivery} @{} {reason}", attach.0)?
        }
        _ => link_effect_text(alloc, effect)?,
    };
    Ok(text)
}

/// An effect that tells what became of a peer or a session: the node stands first.
fn link_effect_text(alloc: Global, effect: &Effect) -> Result<String, Fail> {
    let text = match effect {
        Effect::Met(node, peer, name) => {
            let peer = peer_text(alloc, *peer)?;
            format!(in alloc; "met {} {peer} {}", node.0, name_text(name))?
        }
        Effect::Gone(node, peer) => {
            format!(in alloc; "gone {} {}", node.0, peer_text(alloc, *peer)?)?
        }
        Effect::Down(node, link, session) => {
            let session = session_text(alloc, *session)?;
            format!(in alloc; "down {} {} {session}", node.0, link.0)?
        }
        _ => return Err(Fail::from("no effect of a kernel")),
    };
    Ok(text)
}

/// Effects with commas between them.
pub fn effects_text(alloc: Global, effects: &Effects) -> Result<String, Fail> {
    let mut text = String::new(alloc);
    for effect in effects.as_slice() {
        add_piece(&mut text, ", ", effect_text(alloc, effect)?.as_str())?;
    }
    or_nothing(alloc, text)
}

fn kind_text(alloc: Global, kind: Kind) -> Result<String, Fail> {
    match kind {
        Kind::Plain => text_of(alloc, "plain"),
        Kind::Found(hunt) => Ok(format!(in alloc; "found@{hunt}")?),
        Kind::Notice(attach) => Ok(format!(in alloc; "notice@{}", attach.0)?),
    }
}

/// An item: its peer, its kind, its signal and its position, or `none`.
pub fn item_text(alloc: Global, item: Option<Item>) -> Result<String, Fail> {
    let Some(
        Item {
            signal,
            from,
            kind,
            pos,
        },
    ) = item
    else {
        return text_of(alloc, "none");
    };
    let (from, kind) = (peer_text(alloc, from)?, kind_text(alloc, kind)?);
    let signal = signal_text(alloc, signal.number(), signal.bytes())?;
    let ItemAt { step, place } = pos;
    Ok(format!(in alloc; "{from} {kind} {signal} {step}.{place}")?)
}
