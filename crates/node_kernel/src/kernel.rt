ghost use Rattle.std.specs.Prelude.{◌≡◌, ◌<◌, [], ◌∷◌, length, filter, map, is_some};
ghost use Rattle.std.specs.Prelude.{IfOk, IfErr, OnOk, OnErr, IsTrue};
ghost use Rattle.std.specs.Option.{option_copied};
ghost use Rattle.linx_base.specs.Content.{data_limit};
ghost use Rattle.linx_base.specs.Pending.{name_over};
ghost use Rattle.linx_base.specs.declared.identity.Peer.TheVariants.{Here, There};
ghost use Rattle.linx_base.specs.declared.name.Path.TheVariants.{Over};
ghost use Rattle.sigsel.specs.Selection.{first_selected, without_first};
ghost use Rattle.journal.specs.declared.effect.Effect.TheVariants.{Arrived};
ghost use Rattle.journal.specs.Effects.{opening, closing, closings, hunted, attached, meeting};
ghost use Rattle.journal.specs.Effects.{parting, losing};

use crate::answers::{OpenError, OpenedAs, Sent};
use crate::calls::{answer, arrive, local_path, notify_dead, owe, path_over, pend, send_here};
use crate::met::MetPeers;
use crate::roster::Roster;
use crate::rules::{closing, closings, losing, meeting, opening, parting};
use attach_table::AttachTable;
use hunt_table::{HuntTable, HuntsUnder};
use journal::{Detached, Effects};
use linx_base::{
    AttRef, Inc, Item, LinkNo, MetPeer, Name, NoMemory, NodeNo, Path, Peer, PendingAttach,
    PendingHunt, Session, Signal,
};
use sigsel::Sigsel;
use std::alloc::Global;
use std::marker::Model;

/// The kernel of one node.
#[derive(Drop)]
pub struct Kernel {
    roster: Roster,
    hunts: HuntTable,
    attaches: AttachTable,
    met: MetPeers,
}

impl Model for Kernel {
    ghost use Rattle.node_kernel.specs.Nodes.{NodeState};

    ghost Value = { NodeState };

    ghost view = { λ k. record {
      node = k.roster.node;
      openings = k.roster.openings;
      endpoints = k.roster.endpoints;
      hunts = k.hunts;
      attaches = k.attaches;
      met = k.met;
    } };
}

impl Kernel {
    ghost use Rattle.node_kernel.specs.Nodes.{empty_node, is_open, items_at, with_items, is_living};
    ghost use Rattle.node_kernel.specs.Nodes.{endpoint_limit, next_of, first_named, name_at};
    ghost use Rattle.node_kernel.specs.Nodes.{find_at};
    ghost use Rattle.node_kernel.specs.Calls.{after_open, RefusesOpening, after_close, after_send};
    ghost use Rattle.node_kernel.specs.Calls.{IsSentAs, after_arrival, after_hunt, after_attach};
    ghost use Rattle.node_kernel.specs.Calls.{detached, after_detach, after_restart, after_met};
    ghost use Rattle.node_kernel.specs.Calls.{after_gone, after_down};

    /// A node that opened no endpoint yet. It takes no memory.
    pub fn new(alloc: Global, node: NodeNo) -> Kernel
        ensures { result ≡ empty_node node }
    {
        Kernel {
            roster: Roster::new(alloc, node),
            hunts: HuntTable::new(alloc),
            attaches: AttachTable::new(alloc),
            met: MetPeers::new(alloc),
        }
    }

    /// The number of openings so far.
    pub fn openings(&self) -> u32
        ensures { result ≡ self.now.openings }
    {
        self.roster.openings()
    }

    /// How many endpoints are open.
    pub fn open_count(&self) -> usize
        ensures { result ≡ length self.now.endpoints }
    {
        self.roster.endpoints().len()
    }

    /// Whether this incarnation is open on the node.
    pub fn is_open(&self, inc: Inc) -> bool
        ensures { result ≡ is_open self.now.endpoints inc }
    {
        self.roster.has(inc)
    }

    /// The first opened endpoint of a name that is open. `None` exactly where no open endpoint has
    /// it.
    pub fn first(&self, name: &Name) -> Option<Inc>
        ensures { result ≡ first_named self.now.endpoints name.now }
    {
        self.roster.first(name)
    }

    /// The name of an open endpoint, `None` exactly where it isn't open.
    pub fn name_of(&self, inc: Inc) -> Option<&Name>
        ensures { option_copied result ≡ name_at self.now.endpoints inc }
    {
        self.roster.name_of(inc)
    }

    /// The pending hunts whose path goes over the link, in order of hunting.
    pub fn hunts_over(&self, link: LinkNo) -> HuntsUnder<'_>
        ensures { result ≡ filter (λ hunt. is_some (name_over link hunt.path)) self.now.hunts }
    {
        self.hunts.hunts_over(link)
    }

    /// What a hunt of the path would find at once. `None` exactly where it would stay pending.
    pub fn find(&self, path: &Path) -> Option<Peer>
        ensures { result ≡ find_at self.now path.now }
    {
        match path {
            Path::Local(name) => match self.roster.first(name) {
                Some(inc) => Some(Peer::Here(inc)),
                None => None,
            },
            Path::Over { link, name } => self.met.first(*link, name),
        }
    }

    /// Whether a peer is alive.
    pub fn is_living(&self, peer: Peer) -> bool
        ensures { result ≡ is_living self.now peer }
    {
        match peer {
            Peer::Here(inc) => self.roster.has(inc),
            Peer::There { .. } => self.met.has(peer),
        }
    }

    /// Opens an endpoint with the next incarnation, and answers the hunts for its name. `Full`
    /// comes exactly where 4,096 are open.
    pub fn open(&mut self, name: Name, step: u64) -> Result<OpenedAs, OpenError>
        requires { self.old.openings < 4294967295 }
        ensures opened { IfOk result (λ opened. opened.inc ≡ next_of self.old) }
        ensures effects { IfOk result (λ opened. opened.effects
            ≡ opening (next_of self.old) name self.old.hunts) }
        ensures ok { OnOk result (self.new ≡ after_open self.old name step) }
        ensures full { length self.old.endpoints ≡ endpoint_limit
            → result ≡ Err (OpenError.Full name) }
        ensures refused { IfErr result (RefusesOpening self.old.endpoints name) }
        ensures err { OnErr result (self.new ≡ self.old) }
    {
        if self.roster.is_full() {
            return Err(OpenError::Full(name));
        }
        let inc = self.roster.next();
        let Ok(path) = local_path(&name) else {
            return Err(OpenError::NoMemory(name));
        };
        let Ok(effects) = opening(self.roster.allocator(), inc, &path, &self.hunts) else {
            drop(path);
            return Err(OpenError::NoMemory(name));
        };
        match self.roster.open(name, effects.as_slice(), step) {
            Ok(()) => {
                self.hunts.drop_for(&path);
                drop(path);
                Ok(OpenedAs { inc, effects })
            }
            Err(name) => {
                drop(path);
                Err(OpenError::NoMemory(name))
            }
        }
    }

    /// Closes an endpoint, frees its queue, its hunts and its attaches, and notifies those that are
    /// attached to it. One that isn't open has no queue.
    pub fn close(&mut self, at: Inc, step: u64) -> Result<Effects, NoMemory>
        ensures effects { IfOk result (λ effects. effects ≡ closing at self.old.attaches) }
        ensures ok { OnOk result (self.new ≡ after_close self.old at step) }
        ensures err { OnErr result (self.new ≡ self.old) }
    {
        let effects = closing(self.roster.allocator(), at, &self.attaches)?;
        self.roster.close(at, effects.as_slice(), step)?;
        self.hunts.drop_of(at);
        self.attaches.drop_of(at);
        self.attaches.drop_to(Peer::Here(at));
        Ok(effects)
    }

    /// Sends a signal from an endpoint of this node, open or not, to a peer. A refusal gives the
    /// signal back and changes nothing.
    pub fn send(
        &mut self,
        from: Inc,
        to: Peer,
        signal: Signal,
        step: u64,
    ) -> Result<Sent, (NoMemory, Signal)>
        ensures sent { IfOk result (IsSentAs (is_living self.old to) to signal) }
        ensures ok { OnOk result (self.new ≡ after_send self.old from to signal step) }
        ensures err { IfErr result (λ back. (back.1 ≡ signal) × (self.new ≡ self.old)) }
    {
        match to {
            Peer::Here(inc) => send_here(&mut self.roster, from, inc, signal, step),
            Peer::There { .. } => {
                if self.met.has(to) {
                    Ok(Sent::Link(signal))
                } else {
                    Ok(Sent::Dead)
                }
            }
        }
    }

    /// Takes the earliest item at an endpoint that the filter selects, `None` exactly where it
    /// selects none. At one that isn't open no item waits. It takes no memory.
    pub fn receive(&mut self, at: Inc, filter: &Sigsel) -> Option<Item>
        ensures item { result ≡ first_selected filter.now (items_at self.old.endpoints at) }
        ensures others { self.new ≡ record self.old {
          endpoints = with_items self.old.endpoints at
              (without_first filter.now (items_at self.old.endpoints at));
        } }
    {
        self.roster.take(at, filter)
    }

    /// Whether the filter selects an item at an endpoint, which has none where it isn't open. It
    /// takes no memory.
    pub fn holds(&self, at: Inc, filter: &Sigsel) -> bool
        ensures { result ≡ is_some (first_selected filter.now (items_at self.now.endpoints at)) }
    {
        self.roster.holds(at, filter)
    }

    /// Hunts for a path: the signal is queued at the hunter where a peer is found at once, else the
    /// hunt is pending. A hunter that isn't open gets nothing. A refusal gives the signal back and
    /// changes nothing.
    pub fn hunt(
        &mut self,
        at: Inc,
        path: Path,
        signal: Signal,
        number: u64,
    ) -> Result<Effects, (NoMemory, Signal)>
        ensures effects { IfOk result (λ effects. effects
            ≡ hunted (find_at self.old path) (record {
              at = at;
              path = path;
              signal = signal;
              number = number;
            })) }
        ensures ok { OnOk result (self.new ≡ after_hunt self.old
            (record { at = at; path = path; signal = signal; number = number })) }
        ensures err { IfErr result (λ back. (back.1 ≡ signal) × (self.new ≡ self.old)) }
    {
        match self.find(&path) {
            Some(peer) => answer(&mut self.roster, at, peer, signal, number),
            None => pend(
                &mut self.hunts,
                self.roster.allocator(),
                PendingHunt {
                    at,
                    path,
                    signal,
                    number,
                },
            ),
        }
    }

    /// Attaches an endpoint to a peer: the holder is owed a notification with the signal, or gets
    /// it at once where the peer isn't alive. A holder that isn't open gets nothing. A refusal gives
    /// the signal back and changes nothing.
    pub fn attach(
        &mut self,
        at: Inc,
        peer: Peer,
        signal: Signal,
        r: AttRef,
    ) -> Result<Effects, (NoMemory, Signal)>
        requires { length signal.bytes < data_limit }
        ensures effects { IfOk result (λ effects. effects
            ≡ attached (is_living self.old peer) (record {
              at = at;
              peer = peer;
              signal = signal;
              reference = r;
            })) }
        ensures ok { OnOk result (self.new ≡ after_attach self.old
            (record { at = at; peer = peer; signal = signal; reference = r })) }
        ensures err { IfErr result (λ back. (back.1 ≡ signal) × (self.new ≡ self.old)) }
    {
        if self.is_living(peer) {
            let attach = PendingAttach {
                at,
                peer,
                signal,
                reference: r,
            };
            owe(&mut self.attaches, self.roster.allocator(), attach)
        } else {
            notify_dead(&mut self.roster, at, peer, signal, r)
        }
    }

    /// Cancels an attach of an endpoint, or takes its notification out of the queue, of which one
    /// that isn't open has none. It takes no memory.
    pub fn detach(&mut self, at: Inc, r: AttRef) -> Detached
        ensures answer { result ≡ detached self.old at r }
        ensures after { self.new ≡ after_detach self.old at r }
    {
        if self.attaches.detach(at, r) {
            return Detached::Pending;
        }
        if self.roster.drop_notices(at, r) {
            return Detached::Queued;
        }
        Detached::None
    }

    /// Closes all open endpoints. Nobody is notified, and nothing is pending afterwards.
    pub fn restart(&mut self) -> Result<Effects, NoMemory>
        ensures effects { IfOk result (λ effects. effects
            ≡ closings (map (λ e. e.inc) self.old.endpoints)) }
        ensures ok { OnOk result (self.new ≡ after_restart self.old) }
        ensures err { OnErr result (self.new ≡ self.old) }
    {
        let alloc = self.roster.allocator();
        let effects = closings(alloc, &self.roster)?;
        self.roster.clear();
        self.hunts = HuntTable::new(alloc);
        self.attaches = AttachTable::new(alloc);
        self.met = MetPeers::new(alloc);
        Ok(effects)
    }

    /// A signal arrives over a link at an endpoint. Where that isn't open, nobody gets it. A refusal
    /// gives the signal back and changes nothing.
    pub fn arrived(
        &mut self,
        at: Inc,
        from: Peer,
        signal: Signal,
        step: u64,
    ) -> Result<Effects, (NoMemory, Signal)>
        ensures effects { IfOk result (λ effects. effects ≡ Arrived at from signal ∷ []) }
        ensures ok { OnOk result (self.new ≡ after_arrival self.old at from signal step) }
        ensures err { IfErr result (λ back. (back.1 ≡ signal) × (self.new ≡ self.old)) }
    {
        arrive(&mut self.roster, at, from, signal, step)
    }

    /// A peer is met over a link: the hunts for its name there are answered.
    pub fn met(
        &mut self,
        link: LinkNo,
        session: Session,
        inc: Inc,
        name: Name,
        step: u64,
    ) -> Result<Effects, NoMemory>
        ensures effects { IfOk result (λ effects. effects
            ≡ meeting self.old.node link (There link session inc) name self.old.hunts) }
        ensures ok { OnOk result (self.new ≡ after_met self.old link (There link session inc) name
            step) }
        ensures err { OnErr result (self.new ≡ self.old) }
    {
        let peer = Peer::There { link, session, inc };
        let path = path_over(link, &name)?;
        let made = self.meet(link, peer, name, &path, step);
        drop(path);
        made
    }

    /// A peer is met over a link: the hunts for its name there, which make this path, are answered.
    fn meet(
        &mut self,
        link: LinkNo,
        peer: Peer,
        name: Name,
        path: &Path,
        step: u64,
    ) -> Result<Effects, NoMemory>
        requires { path.now ≡ Over link name }
        ensures effects { IfOk result (λ effects. effects
            ≡ meeting self.old.node link peer name self.old.hunts) }
        ensures ok { OnOk result (self.new ≡ after_met self.old link peer name step) }
        ensures err { OnErr result (self.new ≡ self.old) }
    {
        let node = self.roster.node();
        let effects = meeting(
            self.roster.allocator(),
            node,
            peer,
            &name,
            path,
            &self.hunts,
        )?;
        self.roster.bring_all(effects.as_slice(), step)?;
        if let Err(refusal) = self.met.add(MetPeer { peer, name }) {
            self.roster.take_back_all(effects.as_slice());
            return Err(refusal);
        }
        self.hunts.drop_for(path);
        Ok(effects)
    }

    /// A peer over a link is gone: those attached to it are notified.
    pub fn gone(&mut self, peer: Peer, step: u64) -> Result<Effects, NoMemory>
        ensures effects { IfOk result (λ effects. effects
            ≡ parting self.old.node peer self.old.attaches) }
        ensures ok { OnOk result (self.new ≡ after_gone self.old peer step) }
        ensures err { OnErr result (self.new ≡ self.old) }
    {
        let node = self.roster.node();
        let effects = parting(self.roster.allocator(), node, peer, &self.attaches)?;
        self.roster.bring_all(effects.as_slice(), step)?;
        self.attaches.drop_to(peer);
        self.met.drop_peer(peer);
        Ok(effects)
    }

    /// A session of a link is lost with its peers: those attached to them are notified.
    pub fn down(&mut self, link: LinkNo, session: Session, step: u64) -> Result<Effects, NoMemory>
        ensures effects { IfOk result (λ effects. effects
            ≡ losing self.old.node link session self.old.attaches) }
        ensures ok { OnOk result (self.new ≡ after_down self.old link session step) }
        ensures err { OnErr result (self.new ≡ self.old) }
    {
        let node = self.roster.node();
        let effects = losing(self.roster.allocator(), node, link, session, &self.attaches)?;
        self.roster.bring_all(effects.as_slice(), step)?;
        self.attaches.drop_within(link, session);
        self.met.drop_session(link, session);
        Ok(effects)
    }
}
