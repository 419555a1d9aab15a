//! What a step answers its actor.

ghost use Rattle.std.specs.Prelude.{◌≡◌, ◌++◌, codes, OnOk};
ghost use Rattle.std.specs.Option.{option_copied};
ghost use Rattle.sha2.specs.Sha256.{sha256};
ghost use Rattle.journal_text.specs.Values.{signal_text};
ghost use Rattle.run_outcomes.specs.Answers.{answer_text, endpoint_text, is_answer, item_text};
ghost use Rattle.run_outcomes.specs.Answers.{opener_text, peer_text};

use crate::openers::{Opener, opener_of};
use crate::values::{
    detached_word, reason_word, refusal_word, sent_word, write_number, write_signal, write_text,
};
use journal::{Effect, Head, Journal};
use linx_base::{Inc, NoMemory, Peer, SigNote};

/// Whether a step of this head answers its actor.
pub(crate) fn is_answer(head: &Head) -> bool
    ensures { result ≡ is_answer head.now }
{
    match head {
        Head::Waits(_) | Head::Wire(..) | Head::Tick(..) => false,
        _ => true,
    }
}

fn write_opener(out: &mut Vec<u8>, opener: Option<&Opener>) -> Result<(), NoMemory>
    ensures { OnOk result (out.new.items
        ≡ out.old.items ++ opener_text (option_copied opener.entry)) }
{
    match opener {
        Some(opener) => {
            write_text(out, "A")?;
            write_number(out, u64::from(opener.actor))?;
            write_text(out, ".")?;
            write_number(out, opener.nth)
        }
        None => write_text(out, "?"),
    }
}

fn write_endpoint(out: &mut Vec<u8>, table: &[Opener], inc: Inc) -> Result<(), NoMemory>
    ensures { OnOk result (out.new.items ≡ out.old.items ++ endpoint_text table.now inc) }
{
    write_opener(out, opener_of(table, inc))
}

fn write_peer(out: &mut Vec<u8>, table: &[Opener], peer: &Peer) -> Result<(), NoMemory>
    ensures { OnOk result (out.new.items ≡ out.old.items ++ peer_text table.now peer.now) }
{
    match peer {
        Peer::Here(inc) => write_endpoint(out, table, *inc),
        Peer::There { link, inc, .. } => {
            write_text(out, "P")?;
            write_number(out, u64::from(link.0))?;
            write_text(out, ":")?;
            write_endpoint(out, table, *inc)
        }
    }
}

/// A word, a peer and a signal.
fn write_item(
    out: &mut Vec<u8>,
    table: &[Opener],
    word: &str,
    peer: &Peer,
    note: &SigNote,
) -> Result<(), NoMemory>
    ensures { OnOk result (out.new.items ≡ out.old.items
        ++ (word.now ++ peer_text table.now peer.now ++ codes " " ++ signal_text sha256 note.now)) }
{
    write_text(out, word)?;
    write_peer(out, table, peer)?;
    write_text(out, " ")?;
    write_signal(out, note)
}

/// The item that was taken.
fn write_taken(out: &mut Vec<u8>, table: &[Opener], item: Option<&Effect>) -> Result<(), NoMemory>
    ensures { OnOk result (out.new.items
        ≡ out.old.items ++ item_text table.now (option_copied item.entry)) }
{
    match item {
        Some(Effect::Arrived(_, peer, note)) => write_item(out, table, "arrived ", peer, note),
        Some(Effect::Found(_, peer, note, _)) => write_item(out, table, "found ", peer, note),
        Some(Effect::Notified(_, peer, note, _, reason)) => {
            write_item(out, table, "notified ", peer, note)?;
            write_text(out, " ")?;
            write_text(out, reason_word(*reason))
        }
        _ => write_text(out, "?"),
    }
}

/// A word and a peer.
fn write_peer_of(
    out: &mut Vec<u8>,
    table: &[Opener],
    word: &str,
    peer: &Peer,
) -> Result<(), NoMemory>
    ensures { OnOk result (out.new.items
        ≡ out.old.items ++ (word.now ++ peer_text table.now peer.now)) }
{
    write_text(out, word)?;
    write_peer(out, table, peer)
}

/// Two words.
fn write_both(out: &mut Vec<u8>, word: &str, answer: &str) -> Result<(), NoMemory>
    ensures { OnOk result (out.new.items ≡ out.old.items ++ (word.now ++ answer.now)) }
{
    write_text(out, word)?;
    write_text(out, answer)
}

/// What a step of this head answers.
pub(crate) fn write_answer(
    out: &mut Vec<u8>,
    table: &[Opener],
    journal: &Journal,
    head: &Head,
) -> Result<(), NoMemory>
    ensures { OnOk result (out.new.items
        ≡ out.old.items ++ answer_text table.now journal.now.log.steps head.now) }
{
    match head {
        Head::Open(_) => write_text(out, "open"),
        Head::Close => write_text(out, "close"),
        Head::Send(peer, _, answer) => {
            write_peer_of(out, table, "send ", peer)?;
            write_both(out, " ", sent_word(*answer))
        }
        Head::Take(_, at) => {
            write_text(out, "took ")?;
            write_taken(out, table, journal.effect_at(*at))
        }
        Head::TakeNone(_) => write_text(out, "none"),
        Head::Hunt(..) => write_text(out, "hunt"),
        Head::Attach(peer, _) => write_peer_of(out, table, "attach ", peer),
        Head::Detach(_, answer) => write_both(out, "detach ", detached_word(*answer)),
        Head::Cut(_) => write_text(out, "cut"),
        Head::Mend(_) => write_text(out, "mend"),
        Head::Settle(_) => write_text(out, "settle"),
        Head::Restart(_) => write_text(out, "restart"),
        Head::Refused(reason) => write_both(out, "refused ", refusal_word(*reason)),
        Head::Ended => write_text(out, "ended"),
        Head::Waits(_) | Head::Wire(..) | Head::Tick(..) => Ok(()),
    }
}
