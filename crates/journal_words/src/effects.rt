//! The words of an effect, read.
ghost use Rattle.std.specs.Prelude.{◌≡◌, map};
ghost use Rattle.text_words.specs.Gives.{Gives};
ghost use Rattle.journal_words.specs.Effects.{arrived_in, found_in, notified_in, met_in, gone_in};
ghost use Rattle.journal_words.specs.Effects.{sessions_in, up_in, down_in, node_effect_in};
ghost use Rattle.journal_words.specs.Effects.{effect_in};

use crate::answers::reason_of;
use crate::data::note;
use crate::names::{link_of, name_of, node_of};
use crate::peers::{peer_of, reference_of};
use journal::Effect;
use linx_base::{AttRef, Inc, Names, Session};
use std::alloc::Global;
use text_words::{ReadError, halves_of, is_text, only};

#[tactic(auto, unfolding(crate::specs::Effects::arrived_in))]
fn arrived(alloc: Global, names: &Names, words: &[&[u8]]) -> Result<Effect, ReadError>
    ensures { Gives (λ e. e) result (arrived_in names.now (map (λ w. w.now) words.now)) }
{
    let [inc, peer, number, shown] = words else {
        return Err(ReadError::Bad);
    };
    let inc = Inc(halves_of(inc)?);
    let peer = peer_of(names, peer)?;
    let note = note(alloc, number, shown)?;
    Ok(Effect::Arrived(inc, peer, note))
}

#[tactic(auto, unfolding(crate::specs::Effects::found_in))]
fn found(alloc: Global, names: &Names, words: &[&[u8]]) -> Result<Effect, ReadError>
    ensures { Gives (λ e. e) result (found_in names.now (map (λ w. w.now) words.now)) }
{
    let [inc, peer, number, shown, reference] = words else {
        return Err(ReadError::Bad);
    };
    let inc = Inc(halves_of(inc)?);
    let peer = peer_of(names, peer)?;
    let note = note(alloc, number, shown)?;
    let hunt = reference_of(reference)?;
    Ok(Effect::Found(inc, peer, note, hunt))
}

#[tactic(auto, unfolding(crate::specs::Effects::notified_in))]
fn notified(alloc: Global, names: &Names, words: &[&[u8]]) -> Result<Effect, ReadError>
    ensures { Gives (λ e. e) result (notified_in names.now (map (λ w. w.now) words.now)) }
{
    let [inc, peer, number, shown, reference, reason] = words else {
        return Err(ReadError::Bad);
    };
    let inc = Inc(halves_of(inc)?);
    let peer = peer_of(names, peer)?;
    let note = note(alloc, number, shown)?;
    let reference = AttRef(reference_of(reference)?);
    let reason = reason_of(reason)?;
    Ok(Effect::Notified(inc, peer, note, reference, reason))
}

#[tactic(auto, unfolding(crate::specs::Effects::met_in))]
fn met(alloc: Global, names: &Names, words: &[&[u8]]) -> Result<Effect, ReadError>
    ensures { Gives (λ e. e) result (met_in names.now (map (λ w. w.now) words.now)) }
{
    let [node, peer, called] = words else {
        return Err(ReadError::Bad);
    };
    let node = node_of(names, node)?;
    let peer = peer_of(names, peer)?;
    let called = name_of(alloc, called)?;
    Ok(Effect::Met(node, peer, called))
}

#[tactic(auto, unfolding(crate::specs::Effects::gone_in))]
fn gone(names: &Names, words: &[&[u8]]) -> Result<Effect, ReadError>
    ensures { Gives (λ e. e) result (gone_in names.now (map (λ w. w.now) words.now)) }
{
    let [node, peer] = words else {
        return Err(ReadError::Bad);
    };
    let node = node_of(names, node)?;
    let peer = peer_of(names, peer)?;
    Ok(Effect::Gone(node, peer))
}

/// A session of the own side, and one of the other.
#[tactic(auto, unfolding(crate::specs::Effects::sessions_in))]
fn sessions(words: &[&[u8]]) -> Result<(Session, Session), ReadError>
    ensures { Gives (λ s. s) result (sessions_in (map (λ w. w.now) words.now)) }
{
    let [session, other] = words else {
        return Err(ReadError::Bad);
    };
    let session = Session(halves_of(session)?);
    let other = Session(halves_of(other)?);
    Ok((session, other))
}

#[tactic(auto, unfolding(crate::specs::Effects::up_in))]
fn up(names: &Names, words: &[&[u8]]) -> Result<Effect, ReadError>
    ensures { Gives (λ e. e) result (up_in names.now (map (λ w. w.now) words.now)) }
{
    let [node, link, words @ ..] = words else {
        return Err(ReadError::Bad);
    };
    let node = node_of(names, node)?;
    let link = link_of(names, link)?;
    let (session, other) = sessions(words)?;
    Ok(Effect::Up(node, link, session, other))
}

#[tactic(auto, unfolding(crate::specs::Effects::down_in))]
fn down(names: &Names, words: &[&[u8]]) -> Result<Effect, ReadError>
    ensures { Gives (λ e. e) result (down_in names.now (map (λ w. w.now) words.now)) }
{
    let [node, link, session] = words else {
        return Err(ReadError::Bad);
    };
    let node = node_of(names, node)?;
    let link = link_of(names, link)?;
    let session = Session(halves_of(session)?);
    Ok(Effect::Down(node, link, session))
}

/// An effect that concerns a node.
#[tactic(auto, unfolding(crate::specs::Effects::node_effect_in))]
fn node_effect(
    alloc: Global,
    names: &Names,
    first: &[u8],
    words: &[&[u8]],
) -> Result<Effect, ReadError>
    ensures { Gives (λ e. e) result
        (node_effect_in names.now first.now (map (λ w. w.now) words.now)) }
{
    if is_text(first, b"met") {
        return met(alloc, names, words);
    }
    if is_text(first, b"gone") {
        return gone(names, words);
    }
    if is_text(first, b"up") {
        return up(names, words);
    }
    if is_text(first, b"down") {
        return down(names, words);
    }
    Err(ReadError::Bad)
}

/// The effect of a first word and the words behind it.
#[tactic(auto, unfolding(crate::specs::Effects::effect_in))]
pub(crate) fn effect(
    alloc: Global,
    names: &Names,
    first: &[u8],
    words: &[&[u8]],
) -> Result<Effect, ReadError>
    ensures { Gives (λ e. e) result (effect_in names.now first.now (map (λ w. w.now) words.now)) }
{
    if is_text(first, b"arrived") {
        return arrived(alloc, names, words);
    }
    if is_text(first, b"found") {
        return found(alloc, names, words);
    }
    if is_text(first, b"notified") {
        return notified(alloc, names, words);
    }
    if is_text(first, b"opened") {
        return Ok(Effect::Opened(Inc(halves_of(only(words)?)?)));
    }
    if is_text(first, b"closed") {
        return Ok(Effect::Closed(Inc(halves_of(only(words)?)?)));
    }
    node_effect(alloc, names, first, words)
}
