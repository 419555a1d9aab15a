ghost use Rattle.std.specs.Prelude.{◌≡◌, ◌<◌, [], ◌∷◌, ◌++◌, filter, not, slice_get, OnOk, OnErr};
ghost use Rattle.keyed_list.specs.Keys.{is_under};
ghost use Rattle.linx_base.specs.FirstMatch.{first_match};
ghost use Rattle.linx_base.specs.Peers.{same_peer};
ghost use Rattle.linx_base.specs.declared.pending.MetPeer.{MetPeer as Met};
ghost use Rattle.linx_base.specs.Pending.{is_of_session};
ghost use Rattle.journal.specs.Living.{is_met, is_named_over, met_peer};
ghost use Rattle.node_kernel.specs.Tables.{met_key, met_keys};

use keyed_list::{Keyed, KeyedList, NameKey};
use linx_base::{Inc, LinkNo, MetPeer, Name, NoMemory, Peer, Session};
use std::alloc::Global;
use std::marker::Model;

/// By what a peer that was met is found.
#[derive(PartialEq, Eq, PartialOrd, Ord, Drop)]
enum MetKey {
    Here(Inc),
    There(LinkNo, Session, Inc),
    Session(LinkNo, Session),
    Named(LinkNo, NameKey),
}

/// The key of a peer.
fn peer_key(peer: Peer) -> MetKey
    ensures key { result ≡ met_key peer }
    ensures finds { (m : Met) → is_under ⟦<MetKey as Ord>⟧.cmp met_keys result m
        ≡ same_peer peer m.peer }
{
    match peer {
        Peer::Here(inc) => MetKey::Here(inc),
        Peer::There { link, session, inc } => MetKey::There(link, session, inc),
    }
}

/// The key of a session.
fn session_key(link: LinkNo, session: Session) -> MetKey
    ensures { (m : Met) → is_under ⟦<MetKey as Ord>⟧.cmp met_keys result m
        ≡ is_of_session link session m.peer }
{
    MetKey::Session(link, session)
}

/// The key of a name behind a link.
fn name_key(link: LinkNo, name: NameKey) -> MetKey
    ensures { (m : Met) → is_under ⟦<MetKey as Ord>⟧.cmp met_keys result m
        ≡ is_named_over link name m }
{
    MetKey::Named(link, name)
}

/// The keys behind the first.
fn key_over(met: &MetPeer, at: u8) -> Option<MetKey>
    requires { 0 < at }
    ensures { result ≡ slice_get (met_keys met.now) at }
{
    match met.peer {
        Peer::Here(_) => None,
        Peer::There { link, session, .. } => match at {
            1 => Some(MetKey::Session(link, session)),
            2 => Some(MetKey::Named(link, NameKey::of(&met.name))),
            _ => None,
        },
    }
}

impl Keyed<MetKey> for MetPeer {
    ghost keys = { met_keys };

    fn key(&self, at: u8) -> Option<MetKey> {
        if at == 0 {
            return Some(peer_key(self.peer));
        }
        key_over(self, at)
    }
}

/// The living peers that a node met, which contracts see as their list in order of meeting.
#[derive(Drop)]
pub(crate) struct MetPeers {
    peers: KeyedList<MetPeer, MetKey>,
}

impl Model for MetPeers {
    ghost use Rattle.std.specs.Prelude.{List};
    ghost use Rattle.linx_base.specs.declared.pending.MetPeer.{MetPeer};

    ghost Value = { List MetPeer };

    ghost view = { λ t. t.peers };
}

impl MetPeers {
    /// Nobody. It takes no memory.
    pub(crate) fn new(alloc: Global) -> MetPeers
        ensures { result ≡ [] }
    {
        MetPeers {
            peers: KeyedList::new(alloc),
        }
    }

    /// Adds a peer. A refusal frees it and changes nothing.
    pub(crate) fn add(&mut self, met: MetPeer) -> Result<(), NoMemory>
        ensures ok { OnOk result (self.new ≡ self.old ++ met ∷ []) }
        ensures err { OnErr result (self.new ≡ self.old) }
    {
        match self.peers.push(met) {
            Ok(()) => Ok(()),
            Err((refusal, _met)) => Err(refusal),
        }
    }

    /// Whether a peer was met and lives.
    pub(crate) fn has(&self, peer: Peer) -> bool
        ensures { result ≡ is_met self.now peer }
    {
        self.peers.has(peer_key(peer))
    }

    /// The first peer of a name that was met over a link. `None` exactly where there is none.
    pub(crate) fn first(&self, link: LinkNo, name: &Name) -> Option<Peer>
        ensures { result ≡ met_peer (first_match (is_named_over link name.now) self.now) }
    {
        let met = self.peers.nth(name_key(link, NameKey::of(name)), 0)?;
        Some(met.peer)
    }

    /// Takes a peer out. It takes no memory.
    pub(crate) fn drop_peer(&mut self, peer: Peer)
        ensures { self.new ≡ filter (λ m. not (same_peer peer m.peer)) self.old }
    {
        self.peers.drop_all(peer_key(peer));
    }

    /// Takes the peers of a session out. It takes no memory.
    pub(crate) fn drop_session(&mut self, link: LinkNo, session: Session)
        ensures { self.new ≡ filter (λ m. not (is_of_session link session m.peer)) self.old }
    {
        self.peers.drop_all(session_key(link, session));
    }
}
