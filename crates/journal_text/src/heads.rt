//! The line of a head: what a step did.
ghost use Rattle.std.specs.Prelude.{◌≡◌, ◌++◌, codes, OnOk};
ghost use Rattle.journal_text.specs.Values.{link_text, peer_signal_text, filter_text};
ghost use Rattle.journal_text.specs.Values.{position_text, path_text, signal_text, reference_text};
ghost use Rattle.journal_text.specs.Values.{side_text, verdict_text, sent_text, detached_text};
ghost use Rattle.journal_text.specs.Steps.{head_text};
ghost use Rattle.journal_text.specs.Known.{signal_in, IsKnown, IsOf, digest_in};

use crate::digests::Known;
use crate::digits::{write_byte, write_bytes, write_word};
use crate::peers::{write_link, write_node, write_peer_signal, write_signal};
use crate::words::{
    write_detached, write_filter, write_path, write_position, write_reference, write_refusal,
    write_sent, write_side, write_verdict,
};
use journal::{Detached, Head, SentTo};
use linx_base::{AttRef, ItemAt, LinkNo, Names, NoMemory, Path, Peer, Side, SigNote, Verdict};
use sigsel::Sigsel;

/// `send PEER SIGNAL ANSWER`, also with another word in front.
pub(crate) fn write_sending<const N: usize>(
    out: &mut Vec<u8>,
    names: &Names,
    word: &[u8; N],
    peer: &Peer,
    note: &SigNote,
    known: Known<'_>,
    answer: SentTo,
) -> Result<(), NoMemory>
    requires { IsOf known note.now.bytes }
    ensures { OnOk result (out.new.items ≡ out.old.items
        ++ (word.now ++ peer_signal_text (digest_in known.entry) names.now peer.now note.now ++ codes " "
        ++ sent_text answer)) }
{
    write_word(out, word)?;
    write_peer_signal(out, names, peer, note, known)?;
    write_byte(out, b' ')?;
    write_sent(out, answer)
}

fn write_take(out: &mut Vec<u8>, filter: &Sigsel, at: ItemAt) -> Result<(), NoMemory>
    ensures { OnOk result (out.new.items ≡ out.old.items
        ++ (codes "take " ++ filter_text filter.now ++ codes " " ++ position_text at)) }
{
    write_word(out, b"take ")?;
    write_filter(out, filter)?;
    write_byte(out, b' ')?;
    write_position(out, at)
}

/// A word and a filter.
fn write_look<const N: usize>(
    out: &mut Vec<u8>,
    word: &[u8; N],
    filter: &Sigsel,
) -> Result<(), NoMemory>
    ensures { OnOk result (out.new.items ≡ out.old.items ++ (word.now ++ filter_text filter.now)) }
{
    write_word(out, word)?;
    write_filter(out, filter)
}

/// `hunt PATH SIGNAL`.
pub(crate) fn write_hunt(
    out: &mut Vec<u8>,
    names: &Names,
    path: &Path,
    note: &SigNote,
    known: Known<'_>,
) -> Result<(), NoMemory>
    requires { IsOf known note.now.bytes }
    ensures { OnOk result (out.new.items ≡ out.old.items
        ++ (codes "hunt " ++ path_text names.now path.now ++ codes " " ++ signal_text (digest_in known.entry) note.now)) }
{
    write_word(out, b"hunt ")?;
    write_path(out, names, path)?;
    write_byte(out, b' ')?;
    write_signal(out, note, known)
}

/// A word, a peer and a signal.
pub(crate) fn write_word_and_signal<const N: usize>(
    out: &mut Vec<u8>,
    names: &Names,
    word: &[u8; N],
    peer: &Peer,
    note: &SigNote,
    known: Known<'_>,
) -> Result<(), NoMemory>
    requires { IsOf known note.now.bytes }
    ensures { OnOk result (out.new.items ≡ out.old.items
        ++ (word.now ++ peer_signal_text (digest_in known.entry) names.now peer.now note.now)) }
{
    write_word(out, word)?;
    write_peer_signal(out, names, peer, note, known)
}

fn write_detach(out: &mut Vec<u8>, reference: AttRef, answer: Detached) -> Result<(), NoMemory>
    ensures { OnOk result (out.new.items ≡ out.old.items
        ++ (codes "detach " ++ reference_text reference.0 ++ codes " " ++ detached_text answer)) }
{
    write_word(out, b"detach ")?;
    write_reference(out, reference.0)?;
    write_byte(out, b' ')?;
    write_detached(out, answer)
}

/// A word and a link.
fn write_word_and_link<const N: usize>(
    out: &mut Vec<u8>,
    names: &Names,
    word: &[u8; N],
    link: LinkNo,
) -> Result<(), NoMemory>
    ensures { OnOk result (out.new.items
        ≡ out.old.items ++ (word.now ++ link_text names.now link.0)) }
{
    write_word(out, word)?;
    write_link(out, names, link)
}

/// A word, a link and a direction.
fn write_direction<const N: usize>(
    out: &mut Vec<u8>,
    names: &Names,
    word: &[u8; N],
    link: LinkNo,
    side: Side,
) -> Result<(), NoMemory>
    ensures { OnOk result (out.new.items ≡ out.old.items
        ++ (word.now ++ link_text names.now link.0 ++ codes " " ++ side_text side)) }
{
    write_word_and_link(out, names, word, link)?;
    write_byte(out, b' ')?;
    write_side(out, side)
}

fn write_wire(
    out: &mut Vec<u8>,
    names: &Names,
    link: LinkNo,
    from: Side,
    verdict: Verdict,
) -> Result<(), NoMemory>
    ensures { OnOk result (out.new.items ≡ out.old.items
        ++ (codes "wire " ++ link_text names.now link.0 ++ codes " " ++ side_text from ++ codes " "
        ++ verdict_text verdict)) }
{
    write_direction(out, names, b"wire ", link, from)?;
    write_byte(out, b' ')?;
    write_verdict(out, verdict)
}

/// The words of a step's head.
#[tactic(auto, unfolding(crate::specs::Steps::head_text))]
pub(crate) fn write_head(
    out: &mut Vec<u8>,
    names: &Names,
    head: &Head,
    known: Known<'_>,
) -> Result<(), NoMemory>
    requires { IsKnown known (signal_in head.now) }
    ensures { OnOk result (out.new.items ≡ out.old.items ++ head_text (digest_in known.entry) names.now head.now) }
{
    match head {
        Head::Open(name) => {
            write_word(out, b"open ")?;
            write_bytes(out, name.bytes())
        }
        Head::Close => write_word(out, b"close"),
        Head::Send(peer, note, answer) => {
            write_sending(out, names, b"send ", peer, note, known, *answer)
        }
        Head::Take(filter, at) => write_take(out, filter, *at),
        Head::TakeNone(filter) => write_look(out, b"none ", filter),
        Head::Waits(filter) => write_look(out, b"waits ", filter),
        Head::Hunt(path, note) => write_hunt(out, names, path, note, known),
        Head::Attach(peer, note) => {
            write_word_and_signal(out, names, b"attach ", peer, note, known)
        }
        Head::Detach(reference, answer) => write_detach(out, *reference, *answer),
        Head::Cut(link) => write_word_and_link(out, names, b"cut ", *link),
        Head::Mend(link) => write_word_and_link(out, names, b"mend ", *link),
        Head::Settle(link) => write_word_and_link(out, names, b"settle ", *link),
        Head::Restart(node) => {
            write_word(out, b"restart ")?;
            write_node(out, names, *node)
        }
        Head::Wire(link, from, verdict) => write_wire(out, names, *link, *from, *verdict),
        Head::Tick(link, side) => write_direction(out, names, b"tick ", *link, *side),
        Head::Refused(reason) => {
            write_word(out, b"refused ")?;
            write_refusal(out, *reason)
        }
        Head::Ended => write_word(out, b"ended"),
    }
}
