ghost use Rattle.std.specs.Prelude.{◌≡◌, ◌<◌, [], ◌∷◌, ◌++◌, not, filter, length, OnOk, OnErr};
ghost use Rattle.std.specs.Prelude.{IfErr};
ghost use Rattle.std.specs.List.{list_any};
ghost use Rattle.linx_base.specs.Content.{data_limit};
ghost use Rattle.linx_base.specs.Peers.{same_inc, same_peer};
ghost use Rattle.linx_base.specs.Pending.{is_attach, is_of_session};
ghost use Rattle.attach_table.specs.Attaches.{HaveRoom};

use crate::attach_key::{AttachKey, peer_key, reference_key, within_key};
use keyed_list::{KeyedList, Under};
use linx_base::{AttRef, Inc, LinkNo, NoMemory, Peer, PendingAttach, Session, Signal};
use std::alloc::Global;
use std::marker::Model;

/// A walk over attaches of a table, in order of attaching.
pub type AttachesUnder<'a> = Under<'a, PendingAttach, AttachKey>;

/// The attaches of a node that are owed a notification, which contracts see as their list in order
/// of attaching. Each signal has room for the byte of a reason.
#[derive(Drop)]
pub struct AttachTable {
    attaches: KeyedList<PendingAttach, AttachKey>,
}

impl Model for AttachTable {
    ghost use Rattle.std.specs.Prelude.{List};
    ghost use Rattle.linx_base.specs.declared.pending.PendingAttach.{PendingAttach};
    ghost use Rattle.attach_table.specs.Attaches.{HaveRoom};

    ghost Value = { List PendingAttach };

    ghost view = { λ t. t.attaches };

    ghost invariant = { λ t. HaveRoom t.attaches };
}

impl AttachTable {
    /// The table with no attaches. It takes no memory.
    pub fn new(alloc: Global) -> AttachTable
        ensures { result ≡ [] }
    {
        AttachTable {
            attaches: KeyedList::new(alloc),
        }
    }

    /// Adds an attach at the end. A refusal gives its signal back and changes nothing.
    pub fn attach(&mut self, attach: PendingAttach) -> Result<(), (NoMemory, Signal)>
        requires { length attach.signal.bytes < data_limit }
        ensures ok { OnOk result (self.new ≡ self.old ++ attach ∷ []) }
        ensures err { OnErr result (self.new ≡ self.old) }
        ensures given_back { IfErr result (λ back. back.1 ≡ attach.signal) }
    {
        match self.attaches.push(attach) {
            Ok(()) => Ok(()),
            Err((refusal, attach)) => Err((refusal, attach.signal)),
        }
    }

    /// The attaches to a peer, in order.
    pub fn attaches_to(&self, peer: Peer) -> AttachesUnder<'_>
        ensures attaches { result ≡ filter (λ attach. same_peer peer attach.peer) self.now }
        ensures room { HaveRoom result }
    {
        self.attaches.under(peer_key(peer))
    }

    /// The attaches to the peers of a session, in order.
    pub fn attaches_within(&self, link: LinkNo, session: Session) -> AttachesUnder<'_>
        ensures attaches { result
            ≡ filter (λ attach. is_of_session link session attach.peer) self.now }
        ensures room { HaveRoom result }
    {
        self.attaches.under(within_key(link, session))
    }

    /// Frees the attaches of a holder with this reference, and says whether there was one. It takes
    /// no memory.
    pub fn detach(&mut self, at: Inc, reference: AttRef) -> bool
        ensures any { result ≡ list_any (is_attach at reference) self.old }
        ensures others { self.new ≡ filter (λ attach. not (is_attach at reference attach))
            self.old }
    {
        let any = self.attaches.has(reference_key(at, reference));
        self.attaches.drop_all(reference_key(at, reference));
        any
    }

    /// Frees the attaches to a peer. It takes no memory.
    pub fn drop_to(&mut self, peer: Peer)
        ensures { self.new ≡ filter (λ attach. not (same_peer peer attach.peer)) self.old }
    {
        self.attaches.drop_all(peer_key(peer));
    }

    /// Frees the attaches to the peers of a session. It takes no memory.
    pub fn drop_within(&mut self, link: LinkNo, session: Session)
        ensures { self.new ≡ filter (λ attach. not (is_of_session link session attach.peer))
            self.old }
    {
        self.attaches.drop_all(within_key(link, session));
    }

    /// Frees the attaches of a holder. It takes no memory.
    pub fn drop_of(&mut self, at: Inc)
        ensures { self.new ≡ filter (λ attach. not (same_inc at attach.at)) self.old }
    {
        self.attaches.drop_all(AttachKey::Holder(at));
    }
}
