//! The lines of effects: what happened in a step.
ghost use Rattle.std.specs.Prelude.{◌≡◌, ◌++◌, codes, flat_map, Some, OnOk};
ghost use Rattle.journal_text.specs.Values.{halves_text, node_text, link_text, peer_text};
ghost use Rattle.journal_text.specs.Values.{peer_signal_text, reference_text, reason_text};
ghost use Rattle.journal_text.specs.Steps.{effect_text, effect_line};
ghost use Rattle.journal_text.specs.Known.{signal_brought, FitsStep, IsKnown, IsOf, digest_by, digest_in};

use crate::digests::{Digests, Known};
use crate::digits::{write_byte, write_bytes, write_word};
use crate::peers::{write_halves, write_link, write_node, write_peer, write_peer_signal};
use crate::words::{write_reason, write_reference};
use journal::{Effect, Step};
use linx_base::{Inc, LinkNo, Name, Names, NoMemory, NodeNo, Peer, Reason, SigNote};

/// A word and an incarnation.
fn write_word_and_inc<const N: usize>(
    out: &mut Vec<u8>,
    word: &[u8; N],
    inc: Inc,
) -> Result<(), NoMemory>
    ensures { OnOk result (out.new.items ≡ out.old.items ++ (word.now ++ halves_text inc.0)) }
{
    write_word(out, word)?;
    write_halves(out, inc.0)
}

/// A word, an incarnation, and the peer and signal that came to it.
fn write_arrival<const N: usize>(
    out: &mut Vec<u8>,
    names: &Names,
    word: &[u8; N],
    inc: Inc,
    peer: &Peer,
    note: &SigNote,
    known: Known<'_>,
) -> Result<(), NoMemory>
    requires { IsOf known note.now.bytes }
    ensures { OnOk result (out.new.items ≡ out.old.items
        ++ (word.now ++ halves_text inc.0 ++ codes " "
        ++ peer_signal_text (digest_in known.entry) names.now peer.now note.now)) }
{
    write_word_and_inc(out, word, inc)?;
    write_byte(out, b' ')?;
    write_peer_signal(out, names, peer, note, known)
}

/// The end of a notification: its reference and its reason.
fn write_cause(out: &mut Vec<u8>, step: u64, reason: Reason) -> Result<(), NoMemory>
    ensures { OnOk result (out.new.items ≡ out.old.items
        ++ (codes " " ++ reference_text step ++ codes " " ++ reason_text reason)) }
{
    write_byte(out, b' ')?;
    write_reference(out, step)?;
    write_byte(out, b' ')?;
    write_reason(out, reason)
}

/// A word, a node and a peer.
fn write_node_and_peer<const N: usize>(
    out: &mut Vec<u8>,
    names: &Names,
    word: &[u8; N],
    node: NodeNo,
    peer: &Peer,
) -> Result<(), NoMemory>
    ensures { OnOk result (out.new.items ≡ out.old.items
        ++ (word.now ++ node_text names.now node.0 ++ codes " " ++ peer_text names.now peer.now)) }
{
    write_word(out, word)?;
    write_node(out, names, node)?;
    write_byte(out, b' ')?;
    write_peer(out, names, peer)
}

/// A word, a node, a link and a session.
fn write_session<const N: usize>(
    out: &mut Vec<u8>,
    names: &Names,
    word: &[u8; N],
    node: NodeNo,
    link: LinkNo,
    session: u64,
) -> Result<(), NoMemory>
    ensures { OnOk result (out.new.items ≡ out.old.items
        ++ (word.now ++ node_text names.now node.0 ++ codes " " ++ link_text names.now link.0
        ++ codes " " ++ halves_text session)) }
{
    write_word(out, word)?;
    write_node(out, names, node)?;
    write_byte(out, b' ')?;
    write_link(out, names, link)?;
    write_byte(out, b' ')?;
    write_halves(out, session)
}

#[tactic(auto, unfolding(crate::specs::Steps::effect_text))]
fn write_effect(
    out: &mut Vec<u8>,
    names: &Names,
    effect: &Effect,
    known: Known<'_>,
) -> Result<(), NoMemory>
    requires { IsKnown known (signal_brought effect.now) }
    ensures { OnOk result (out.new.items ≡ out.old.items ++ effect_text (digest_in known.entry) names.now effect.now) }
{
    match effect {
        Effect::Opened(inc) => write_word_and_inc(out, b"opened ", *inc),
        Effect::Closed(inc) => write_word_and_inc(out, b"closed ", *inc),
        Effect::Arrived(inc, peer, note) => {
            write_arrival(out, names, b"arrived ", *inc, peer, note, known)
        }
        Effect::Found(inc, peer, note, hunt) => {
            write_arrival(out, names, b"found ", *inc, peer, note, known)?;
            write_byte(out, b' ')?;
            write_reference(out, *hunt)
        }
        Effect::Notified(inc, peer, note, reference, reason) => {
            write_arrival(out, names, b"notified ", *inc, peer, note, known)?;
            write_cause(out, reference.0, *reason)
        }
        Effect::Met(node, peer, name) => {
            write_node_and_peer(out, names, b"met ", *node, peer)?;
            write_byte(out, b' ')?;
            write_bytes(out, name.bytes())
        }
        Effect::Gone(node, peer) => write_node_and_peer(out, names, b"gone ", *node, peer),
        Effect::Up(node, link, session, other) => {
            write_session(out, names, b"up ", *node, *link, session.0)?;
            write_byte(out, b' ')?;
            write_halves(out, other.0)
        }
        Effect::Down(node, link, session) => {
            write_session(out, names, b"down ", *node, *link, session.0)
        }
    }
}

#[tactic(auto, unfolding(crate::specs::Steps::effect_line))]
fn write_effect_line(
    out: &mut Vec<u8>,
    names: &Names,
    effect: &Effect,
    known: Known<'_>,
) -> Result<(), NoMemory>
    requires { IsKnown known (signal_brought effect.now) }
    ensures { OnOk result (out.new.items ≡ out.old.items ++ effect_line (digest_in known.entry) names.now effect.now) }
{
    write_word(out, b"+ ")?;
    write_effect(out, names, effect, known)?;
    write_byte(out, b'\n')
}

/// A line for each effect of the step at a position.
pub(crate) fn write_effects(
    out: &mut Vec<u8>,
    names: &Names,
    digests: &Digests,
    next: &mut usize,
    position: u64,
    step: &Step,
) -> Result<(), NoMemory>
    requires { FitsStep digests.now position (Some step.now) }
    ensures { OnOk result (out.new.items
        ≡ out.old.items ++ flat_map (effect_line (digest_by digests.now.by) names.now) step.now.effects) }
{
    for (index, effect) in step.effects.as_slice().iter().enumerate() {
        let known = digests.of_effect(next, position, index as u64 + 1, effect);
        write_effect_line(out, names, effect, known)?;
    }
    Ok(())
}
