//! The lines of a log.
ghost use Rattle.std.specs.Prelude.{◌≡◌, ◌++◌, codes, OnOk};
ghost use Rattle.std.specs.Option.{option_copied};
ghost use Rattle.journal_text.specs.Values.{peer_signal_text, reason_text};
ghost use Rattle.journal_text.specs.Blocks.{title_text, effect_log, item_text, head_log};
ghost use Rattle.journal_text.specs.Known.{signal_in, signal_brought, signal_of, Fits, IsKnown, IsOf};
ghost use Rattle.journal_text.specs.Known.{digest_by, digest_in};

use crate::digests::{Digests, Known};
use crate::digits::{write_byte, write_word};
use crate::heads::{write_hunt, write_sending, write_word_and_signal};
use crate::peers::{write_halves, write_name_or_mark, write_node, write_peer_signal};
use crate::words::{write_detached, write_reason};
use journal::{Effect, Head, Journal};
use linx_base::{Inc, Name, Names, NoMemory, Peer, Reason, SigNote};

/// The first line of a log.
#[tactic(auto, unfolding(crate::specs::Blocks::title_text))]
pub(crate) fn write_title(
    out: &mut Vec<u8>,
    names: &Names,
    inc: Inc,
    name: Option<&Name>,
) -> Result<(), NoMemory>
    ensures { OnOk result (out.new.items
        ≡ out.old.items ++ title_text names.now inc (option_copied name.entry)) }
{
    write_word(out, b"log ")?;
    write_halves(out, inc.0)?;
    write_byte(out, b' ')?;
    write_name_or_mark(out, name)?;
    write_byte(out, b' ')?;
    write_node(out, names, inc.node())?;
    write_byte(out, b'\n')
}

/// A line of a word, a peer and a signal.
fn write_item_line<const N: usize>(
    out: &mut Vec<u8>,
    names: &Names,
    word: &[u8; N],
    peer: &Peer,
    note: &SigNote,
    known: Known<'_>,
) -> Result<(), NoMemory>
    requires { IsOf known note.now.bytes }
    ensures { OnOk result (out.new.items ≡ out.old.items
        ++ (word.now ++ peer_signal_text (digest_in known.entry) names.now peer.now note.now ++ codes "\n")) }
{
    write_word_and_signal(out, names, word, peer, note, known)?;
    write_byte(out, b'\n')
}

fn write_notified(
    out: &mut Vec<u8>,
    names: &Names,
    peer: &Peer,
    note: &SigNote,
    known: Known<'_>,
    reason: Reason,
) -> Result<(), NoMemory>
    requires { IsOf known note.now.bytes }
    ensures { OnOk result (out.new.items ≡ out.old.items
        ++ (codes "notified " ++ peer_signal_text (digest_in known.entry) names.now peer.now note.now ++ codes " "
        ++ reason_text reason ++ codes "\n")) }
{
    write_word_and_signal(out, names, b"notified ", peer, note, known)?;
    write_byte(out, b' ')?;
    write_reason(out, reason)?;
    write_byte(out, b'\n')
}

/// The line of an effect in the log of the incarnation that it reaches.
#[tactic(auto, unfolding(crate::specs::Blocks::effect_log))]
pub(crate) fn write_effect_log(
    out: &mut Vec<u8>,
    names: &Names,
    effect: &Effect,
    known: Known<'_>,
) -> Result<(), NoMemory>
    requires { IsKnown known (signal_brought effect.now) }
    ensures { OnOk result (out.new.items ≡ out.old.items ++ effect_log (digest_in known.entry) names.now effect.now) }
{
    match effect {
        Effect::Closed(_) => write_word(out, b"closed\n"),
        Effect::Arrived(_, peer, note) => {
            write_item_line(out, names, b"arrived ", peer, note, known)
        }
        Effect::Found(_, peer, note, _) => {
            write_item_line(out, names, b"found ", peer, note, known)
        }
        Effect::Notified(_, peer, note, _, reason) => {
            write_notified(out, names, peer, note, known, *reason)
        }
        _ => Ok(()),
    }
}

/// The sender and the content of an item, `?` where there is none.
#[tactic(auto, unfolding(crate::specs::Blocks::item_text))]
fn write_sender_and_signal(
    out: &mut Vec<u8>,
    names: &Names,
    item: Option<&Effect>,
    known: Known<'_>,
) -> Result<(), NoMemory>
    requires { IsKnown known (signal_of (option_copied item)) }
    ensures { OnOk result (out.new.items
        ≡ out.old.items ++ item_text (digest_in known.entry) names.now (option_copied item.entry)) }
{
    match item {
        Some(Effect::Arrived(_, peer, note))
        | Some(Effect::Found(_, peer, note, _))
        | Some(Effect::Notified(_, peer, note, _, _)) => {
            write_peer_signal(out, names, peer, note, known)
        }
        _ => write_byte(out, b'?'),
    }
}

fn write_took(
    out: &mut Vec<u8>,
    names: &Names,
    item: Option<&Effect>,
    known: Known<'_>,
) -> Result<(), NoMemory>
    requires { IsKnown known (signal_of (option_copied item)) }
    ensures { OnOk result (out.new.items ≡ out.old.items
        ++ (codes "took " ++ item_text (digest_in known.entry) names.now (option_copied item.entry) ++ codes "\n")) }
{
    write_word(out, b"took ")?;
    write_sender_and_signal(out, names, item, known)?;
    write_byte(out, b'\n')
}

/// The line that a head makes in the log of its maker's endpoint.
#[tactic(auto, unfolding(crate::specs::Blocks::head_log))]
pub(crate) fn write_head_log(
    out: &mut Vec<u8>,
    journal: &Journal,
    digests: &Digests,
    head: &Head,
    known: Known<'_>,
) -> Result<(), NoMemory>
    requires known { IsKnown known (signal_in head.now) }
    requires by { digest_in known ≡ digest_by digests.now.by }
    requires fits { Fits digests.now journal.now.log.steps }
    ensures { OnOk result (out.new.items ≡ out.old.items
        ++ head_log (digest_by digests.now.by) journal.now.log.names journal.now.log.steps head.now) }
{
    let names = journal.names();
    match head {
        Head::Send(peer, note, answer) => {
            write_sending(out, names, b"sent ", peer, note, known, *answer)?;
            write_byte(out, b'\n')
        }
        Head::Take(_, at) => {
            write_took(out, names, journal.effect_at(*at), digests.of_item(*at))
        }
        Head::TakeNone(_) => write_word(out, b"none\n"),
        Head::Hunt(path, note) => {
            write_hunt(out, names, path, note, known)?;
            write_byte(out, b'\n')
        }
        Head::Attach(peer, note) => { write_item_line(out, names, b"attach ", peer, note, known) }
        Head::Detach(_, answer) => {
            write_word(out, b"detach ")?;
            write_detached(out, *answer)?;
            write_byte(out, b'\n')
        }
        _ => Ok(()),
    }
}
