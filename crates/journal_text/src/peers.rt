//! How nodes, links, peers and signals are spelled. A node or link that the names lack is `?`.
ghost use Rattle.std.specs.Prelude.{◌≡◌, ◌++◌, OnOk};
ghost use Rattle.std.specs.Option.{option_copied};
ghost use Rattle.journal_text.specs.Values.{halves_text, nth_name, name_or_mark, node_text};
ghost use Rattle.journal_text.specs.Values.{link_text, peer_text, signal_text, peer_signal_text};
ghost use Rattle.journal_text.specs.Known.{IsOf, digest_in};

use crate::data::write_data;
use crate::digests::Known;
use crate::digits::{write_byte, write_bytes, write_number};
use linx_base::{LinkNo, Name, NameList, Names, NoMemory, NodeNo, Peer, SigNote};

/// Both halves of a number of 64 bits, with a dot between them.
#[tactic(auto, unfolding(crate::specs::Values::halves_text))]
pub(crate) fn write_halves(out: &mut Vec<u8>, number: u64) -> Result<(), NoMemory>
    ensures { OnOk result (out.new.items ≡ out.old.items ++ halves_text number) }
{
    write_number(out, number >> 32)?;
    write_byte(out, b'.')?;
    write_number(out, number & 0xffff_ffff)?;
    Ok(())
}

/// The name of this number, from 1.
fn nth_name(names: &NameList, number: u32) -> Option<&Name>
    ensures { option_copied result ≡ nth_name names.now number }
{
    match number {
        0 => None,
        _ => names.get((number - 1) as usize),
    }
}

/// A name, or `?` where there is none.
pub(crate) fn write_name_or_mark(out: &mut Vec<u8>, name: Option<&Name>) -> Result<(), NoMemory>
    ensures { OnOk result (out.new.items
        ≡ out.old.items ++ name_or_mark (option_copied name.entry)) }
{
    match name {
        Some(name) => write_bytes(out, name.bytes()),
        None => write_byte(out, b'?'),
    }
}

/// A node by its name.
#[tactic(auto, unfolding(crate::specs::Values::node_text))]
pub(crate) fn write_node(out: &mut Vec<u8>, names: &Names, node: NodeNo) -> Result<(), NoMemory>
    ensures { OnOk result (out.new.items ≡ out.old.items ++ node_text names.now node.0) }
{
    write_name_or_mark(out, nth_name(&names.nodes, node.0))
}

/// A link by its name.
#[tactic(auto, unfolding(crate::specs::Values::link_text))]
pub(crate) fn write_link(out: &mut Vec<u8>, names: &Names, link: LinkNo) -> Result<(), NoMemory>
    ensures { OnOk result (out.new.items ≡ out.old.items ++ link_text names.now link.0) }
{
    write_name_or_mark(out, nth_name(&names.links, link.0))
}

/// A peer: an incarnation, or one over a link in a session of it.
#[tactic(auto, unfolding(crate::specs::Values::peer_text))]
pub(crate) fn write_peer(out: &mut Vec<u8>, names: &Names, peer: &Peer) -> Result<(), NoMemory>
    ensures { OnOk result (out.new.items ≡ out.old.items ++ peer_text names.now peer.now) }
{
    match peer {
        Peer::Here(inc) => write_halves(out, inc.0),
        Peer::There { link, session, inc } => {
            write_link(out, names, *link)?;
            write_byte(out, b':')?;
            write_halves(out, session.0)?;
            write_byte(out, b':')?;
            write_halves(out, inc.0)
        }
    }
}

/// A signal: its number and its data.
#[tactic(auto, unfolding(crate::specs::Values::signal_text))]
pub(crate) fn write_signal(
    out: &mut Vec<u8>,
    note: &SigNote,
    known: Known<'_>,
) -> Result<(), NoMemory>
    requires { IsOf known note.now.bytes }
    ensures { OnOk result (out.new.items ≡ out.old.items ++ signal_text (digest_in known.entry) note.now) }
{
    write_number(out, note.number() as u64)?;
    write_byte(out, b' ')?;
    write_data(out, note.data(), known)
}

/// A peer and a signal, with a space between them.
#[tactic(auto, unfolding(crate::specs::Values::peer_signal_text))]
pub(crate) fn write_peer_signal(
    out: &mut Vec<u8>,
    names: &Names,
    peer: &Peer,
    note: &SigNote,
    known: Known<'_>,
) -> Result<(), NoMemory>
    requires { IsOf known note.now.bytes }
    ensures { OnOk result (out.new.items
        ≡ out.old.items ++ peer_signal_text (digest_in known.entry) names.now peer.now note.now) }
{
    write_peer(out, names, peer)?;
    write_byte(out, b' ')?;
    write_signal(out, note, known)
}
