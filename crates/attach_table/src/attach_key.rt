ghost use Rattle.std.specs.Prelude.{◌≡◌};
ghost use Rattle.keyed_list.specs.Keys.{is_under};
ghost use Rattle.linx_base.specs.Peers.{same_peer};
ghost use Rattle.linx_base.specs.Pending.{is_attach, is_of_session};
ghost use Rattle.linx_base.specs.declared.pending.PendingAttach.{PendingAttach as Attach};
ghost use Rattle.attach_table.specs.Keys.{peer_key, session_key, keys_of};

use keyed_list::Keyed;
use linx_base::{AttRef, Inc, LinkNo, Peer, PendingAttach, Session};

/// By what an attach is found: its peer, the session that this was reached in, the holder, and the
/// holder with the reference.
#[derive(PartialEq, Eq, PartialOrd, Ord, Drop)]
pub enum AttachKey {
    Here(Inc),
    There {
        link: LinkNo,
        session: Session,
        inc: Inc,
    },
    Within {
        link: LinkNo,
        session: Session,
    },
    Holder(Inc),
    Reference {
        at: Inc,
        reference: AttRef,
    },
}

/// The key of the attaches to a peer.
pub(crate) fn peer_key(peer: Peer) -> AttachKey
    ensures key { result ≡ peer_key peer }
    ensures finds { (attach : Attach) → is_under ⟦<AttachKey as Ord>⟧.cmp keys_of result attach
        ≡ same_peer peer attach.peer }
{
    match peer {
        Peer::Here(inc) => AttachKey::Here(inc),
        Peer::There { link, session, inc } => AttachKey::There { link, session, inc },
    }
}

/// The key of the attaches to the peers of a session.
pub(crate) fn within_key(link: LinkNo, session: Session) -> AttachKey
    ensures { (attach : Attach) → is_under ⟦<AttachKey as Ord>⟧.cmp keys_of result attach
        ≡ is_of_session link session attach.peer }
{
    AttachKey::Within { link, session }
}

/// The key of the attaches of a holder with this reference.
pub(crate) fn reference_key(at: Inc, reference: AttRef) -> AttachKey
    ensures { (attach : Attach) → is_under ⟦<AttachKey as Ord>⟧.cmp keys_of result attach
        ≡ is_attach at reference attach }
{
    AttachKey::Reference { at, reference }
}

/// The key of the attaches to the peers of a peer's session, `None` exactly where it is of none.
fn session_key(peer: Peer) -> Option<AttachKey>
    ensures { result ≡ session_key peer }
{
    match peer {
        Peer::Here(_) => None,
        Peer::There { link, session, .. } => Some(AttachKey::Within { link, session }),
    }
}

impl Keyed<AttachKey> for PendingAttach {
    ghost keys = { keys_of };

    fn key(&self, at: u8) -> Option<AttachKey> {
        match at {
            0 => Some(peer_key(self.peer)),
            1 => Some(AttachKey::Holder(self.at)),
            2 => Some(AttachKey::Reference {
                at: self.at,
                reference: self.reference,
            }),
            3 => session_key(self.peer),
            _ => None,
        }
    }
}
