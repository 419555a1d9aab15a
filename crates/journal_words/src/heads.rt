//! The words of a head, read.
ghost use Rattle.std.specs.Prelude.{◌≡◌, map};
ghost use Rattle.text_words.specs.Gives.{Gives};
ghost use Rattle.journal_words.specs.Heads.{send_in, attach_in, hunt_in, take_in, detach_in};
ghost use Rattle.journal_words.specs.Heads.{wire_in, tick_in, outer_head_in, inner_head_in};
ghost use Rattle.journal_words.specs.Heads.{head_in};

use crate::answers::{detached_of, refusal_of, sent_of, side_of, verdict_of};
use crate::data::note;
use crate::filter::filter_of;
use crate::names::{link_of, name_of, node_of};
use crate::peers::{path_of, peer_of, position_of, reference_of};
use journal::Head;
use linx_base::{AttRef, Names};
use std::alloc::Global;
use text_words::{ReadError, alone, is_text, only};

#[tactic(auto, unfolding(crate::specs::Heads::send_in))]
fn send(alloc: Global, names: &Names, words: &[&[u8]]) -> Result<Head, ReadError>
    ensures { Gives (λ h. h) result (send_in names.now (map (λ w. w.now) words.now)) }
{
    let [peer, number, shown, answer] = words else {
        return Err(ReadError::Bad);
    };
    let peer = peer_of(names, peer)?;
    let note = note(alloc, number, shown)?;
    let answer = sent_of(answer)?;
    Ok(Head::Send(peer, note, answer))
}

#[tactic(auto, unfolding(crate::specs::Heads::attach_in))]
fn attach(alloc: Global, names: &Names, words: &[&[u8]]) -> Result<Head, ReadError>
    ensures { Gives (λ h. h) result (attach_in names.now (map (λ w. w.now) words.now)) }
{
    let [peer, number, shown] = words else {
        return Err(ReadError::Bad);
    };
    let peer = peer_of(names, peer)?;
    let note = note(alloc, number, shown)?;
    Ok(Head::Attach(peer, note))
}

#[tactic(auto, unfolding(crate::specs::Heads::hunt_in))]
fn hunt(alloc: Global, names: &Names, words: &[&[u8]]) -> Result<Head, ReadError>
    ensures { Gives (λ h. h) result (hunt_in names.now (map (λ w. w.now) words.now)) }
{
    let [path, number, shown] = words else {
        return Err(ReadError::Bad);
    };
    let path = path_of(alloc, names, path)?;
    let note = note(alloc, number, shown)?;
    Ok(Head::Hunt(path, note))
}

#[tactic(auto, unfolding(crate::specs::Heads::take_in))]
fn take(alloc: Global, words: &[&[u8]]) -> Result<Head, ReadError>
    ensures { Gives (λ h. h) result (take_in (map (λ w. w.now) words.now)) }
{
    let [filter, position] = words else {
        return Err(ReadError::Bad);
    };
    let filter = filter_of(alloc, filter)?;
    let at = position_of(position)?;
    Ok(Head::Take(filter, at))
}

#[tactic(auto, unfolding(crate::specs::Heads::detach_in))]
fn detach(words: &[&[u8]]) -> Result<Head, ReadError>
    ensures { Gives (λ h. h) result (detach_in (map (λ w. w.now) words.now)) }
{
    let [reference, answer] = words else {
        return Err(ReadError::Bad);
    };
    let reference = reference_of(reference)?;
    let answer = detached_of(answer)?;
    Ok(Head::Detach(AttRef(reference), answer))
}

#[tactic(auto, unfolding(crate::specs::Heads::wire_in))]
fn wire(names: &Names, words: &[&[u8]]) -> Result<Head, ReadError>
    ensures { Gives (λ h. h) result (wire_in names.now (map (λ w. w.now) words.now)) }
{
    let [link, side, verdict] = words else {
        return Err(ReadError::Bad);
    };
    let link = link_of(names, link)?;
    let side = side_of(side)?;
    let verdict = verdict_of(verdict)?;
    Ok(Head::Wire(link, side, verdict))
}

#[tactic(auto, unfolding(crate::specs::Heads::tick_in))]
fn tick(names: &Names, words: &[&[u8]]) -> Result<Head, ReadError>
    ensures { Gives (λ h. h) result (tick_in names.now (map (λ w. w.now) words.now)) }
{
    let [link, side] = words else {
        return Err(ReadError::Bad);
    };
    let link = link_of(names, link)?;
    let side = side_of(side)?;
    Ok(Head::Tick(link, side))
}

/// A head that concerns links, nodes or the maker.
#[tactic(auto, unfolding(crate::specs::Heads::outer_head_in))]
fn outer_head(names: &Names, first: &[u8], words: &[&[u8]]) -> Result<Head, ReadError>
    ensures { Gives (λ h. h) result
        (outer_head_in names.now first.now (map (λ w. w.now) words.now)) }
{
    if is_text(first, b"wire") {
        return wire(names, words);
    }
    if is_text(first, b"tick") {
        return tick(names, words);
    }
    if is_text(first, b"cut") {
        return Ok(Head::Cut(link_of(names, only(words)?)?));
    }
    if is_text(first, b"mend") {
        return Ok(Head::Mend(link_of(names, only(words)?)?));
    }
    if is_text(first, b"settle") {
        return Ok(Head::Settle(link_of(names, only(words)?)?));
    }
    if is_text(first, b"restart") {
        return Ok(Head::Restart(node_of(names, only(words)?)?));
    }
    if is_text(first, b"refused") {
        return Ok(Head::Refused(refusal_of(only(words)?)?));
    }
    if is_text(first, b"ended") {
        return alone(words, Head::Ended);
    }
    Err(ReadError::Bad)
}

/// A head that receives, opens or closes; or one of the others.
#[tactic(auto, unfolding(crate::specs::Heads::inner_head_in))]
fn inner_head(
    alloc: Global,
    names: &Names,
    first: &[u8],
    words: &[&[u8]],
) -> Result<Head, ReadError>
    ensures { Gives (λ h. h) result
        (inner_head_in names.now first.now (map (λ w. w.now) words.now)) }
{
    if is_text(first, b"take") {
        return take(alloc, words);
    }
    if is_text(first, b"none") {
        return Ok(Head::TakeNone(filter_of(alloc, only(words)?)?));
    }
    if is_text(first, b"waits") {
        return Ok(Head::Waits(filter_of(alloc, only(words)?)?));
    }
    if is_text(first, b"open") {
        return Ok(Head::Open(name_of(alloc, only(words)?)?));
    }
    if is_text(first, b"close") {
        return alone(words, Head::Close);
    }
    outer_head(names, first, words)
}

/// The head of a first word and the words behind it.
#[tactic(auto, unfolding(crate::specs::Heads::head_in))]
pub(crate) fn head(
    alloc: Global,
    names: &Names,
    first: &[u8],
    words: &[&[u8]],
) -> Result<Head, ReadError>
    ensures { Gives (λ h. h) result (head_in names.now first.now (map (λ w. w.now) words.now)) }
{
    if is_text(first, b"send") {
        return send(alloc, names, words);
    }
    if is_text(first, b"hunt") {
        return hunt(alloc, names, words);
    }
    if is_text(first, b"attach") {
        return attach(alloc, names, words);
    }
    if is_text(first, b"detach") {
        return detach(words);
    }
    inner_head(alloc, names, first, words)
}
