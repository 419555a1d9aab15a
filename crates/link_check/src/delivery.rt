//! What a packet may bring.
ghost use Rattle.std.specs.Prelude.{◌≡◌, ◌∷◌, [], ◌<◌, length, is_none, is_some, nat_lt, not, slice_get};
ghost use Rattle.std.specs.List.{list_any};
ghost use Rattle.std.specs.Option.{option_copied};
ghost use Rattle.link_tables.specs.Sides.{HasRoom};
ghost use Rattle.link_check.specs.Deliveries.{all_came, comes_next, flow_of, is_note, is_passed};
ghost use Rattle.link_check.specs.Deliveries.{is_session, is_to_come, may_arrive, may_bring};
ghost use Rattle.link_check.specs.Deliveries.{may_go_down, may_go_up, may_meet, may_part};
ghost use Rattle.link_check.specs.Deliveries.{is_due, may_be_first, named_as, next_sent, was_named};
ghost use Rattle.link_check.specs.Deliveries.{was_opened_there};

use journal::Effect;
use link_tables::{Arrivals, Flow, Marks, Sent, SideTable};
use linx_base::{Inc, LinkNo, Name, NodeNo, Peer, Session, SigNote};
use node_kernel::Kernel;
use std::marker::Model;

/// What is known where a packet is handed over: the node that it comes to, by its kernel and its
/// number, the number of the one that it comes from, the link with its two sides, here and there, and
/// what was opened, closed, met and sent, and what arrived.
#[derive(Drop)]
pub(crate) struct Delivery<'a> {
    pub(crate) node: &'a Kernel,
    pub(crate) at: NodeNo,
    pub(crate) other: NodeNo,
    pub(crate) link: LinkNo,
    pub(crate) here: &'a SideTable,
    pub(crate) there: &'a SideTable,
    pub(crate) marks: &'a Marks,
    pub(crate) sent: &'a Sent,
    pub(crate) arrivals: &'a Arrivals,
}

impl<'a> Model for Delivery<'a> {
    ghost use Rattle.link_check.specs.Deliveries.{Known};

    ghost Value = { Known };

    ghost view = { λ d. record {
      node = d.node.now;
      at = d.at;
      other = d.other;
      link = d.link;
      here = d.here.now;
      there = d.there.now;
      marks = d.marks.now;
      sent = d.sent.now;
      arrived = d.arrivals.now;
    } };
}

/// Whether this session is up.
pub(crate) fn is_session(up: Option<Session>, session: Session) -> bool
    ensures { result ≡ is_session up session }
{
    match up {
        Some(is) => is.0 == session.0,
        None => false,
    }
}

/// Whether a pair is below the session that the other side has now.
fn is_passed(pair: Option<Session>, now: Session) -> bool
    ensures { result ≡ is_passed pair now }
{
    match pair {
        Some(paired) => paired.0 < now.0,
        None => false,
    }
}

/// Whether a note is this one.
fn is_note(next: Option<&SigNote>, note: &SigNote) -> bool
    ensures { result ≡ is_note (option_copied next.entry) note.now }
{
    match next {
        Some(sent) => sent.number() == note.number() && sent.data().same(note.data()),
        None => false,
    }
}

/// Whether this is the name, if there is one, or else no name.
fn named_as(opened: Option<&Name>, name: &Name) -> bool
    ensures { result ≡ named_as (option_copied opened.entry) name.now }
{
    match opened {
        Some(opened) => opened.same(name),
        None => name.bytes().first().is_none(),
    }
}

impl<'a> Delivery<'a> {
    /// Whether the node across has opened this incarnation, closed by now or not.
    fn was_opened_there(&self, inc: Inc) -> bool
        ensures { result ≡ was_opened_there self.now inc }
    {
        inc.node().0 == self.other.0 && self.marks.was_opened(inc)
    }

    /// Whether a side that is down may go up in this session, with that one.
    fn may_go_up(&self, session: Session, other: Session) -> bool
        requires { HasRoom self.now.here }
        ensures { result ≡ may_go_up self.now session other }
    {
        self.here.up().is_none() && (session.0 == self.here.session().0 && self.there.had(other))
    }

    /// Whether it may go down from this session by a packet.
    fn may_go_down(&self, session: Session) -> bool
        requires { HasRoom self.now.there }
        ensures { result ≡ may_go_down self.now session }
    {
        is_session(self.here.up(), session) && is_passed(self.here.pair(), self.there.session())
    }

    /// Whether the next signal of a peer to an endpoint is this one.
    fn comes_next(&self, session: Session, from: Inc, at: Inc, note: &SigNote) -> bool
        ensures { result ≡ comes_next self.now.here.pair self.now session from at note.now }
    {
        match self.here.pair() {
            Some(pair) => is_note(self.next_sent(session, pair, from, at), note),
            None => false,
        }
    }

    /// The signal of a peer to an endpoint behind those that arrived.
    fn next_sent(&self, session: Session, pair: Session, from: Inc, at: Inc) -> Option<&SigNote>
        ensures { option_copied result ≡ next_sent self.now session pair from at }
    {
        let came = self.arrivals.count(Flow {
            at,
            link: self.link,
            session,
            peer: from,
        });
        self.sent.nth(
            Flow {
                at: from,
                link: self.link,
                session: pair,
                peer: at,
            },
            came as usize,
        )
    }

    /// Whether a signal may arrive.
    fn may_arrive(&self, session: Session, from: Inc, at: Inc, note: &SigNote) -> bool
        ensures { result ≡ may_arrive self.now session from at note.now }
    {
        let peer = Peer::There {
            link: self.link,
            session,
            inc: from,
        };
        self.node.is_open(at)
            && (self.node.is_living(peer)
                && (self.was_opened_there(from) && self.comes_next(session, from, at, note)))
    }

    /// Whether an incarnation was opened with this name.
    fn was_named(&self, inc: Inc, name: &Name) -> bool
        ensures { result ≡ was_named self.now inc name.now }
    {
        named_as(self.marks.opened_as(inc), name)
    }

    /// Whether a peer may be met.
    fn may_meet(&self, session: Session, inc: Inc, name: &Name) -> bool
        ensures { result ≡ may_meet self.now session inc name.now }
    {
        is_session(self.here.up(), session)
            && (self.was_opened_there(inc)
                && (self.was_named(inc, name)
                    && !self.marks.was_met(self.at, self.link, session, inc)))
    }

    /// Whether a signal of a flow has still to come to an endpoint that is open.
    pub(crate) fn is_to_come(&self, session: Session, flow: Flow) -> bool
        ensures { result ≡ is_to_come self.now session flow }
    {
        self.next_sent(session, flow.session, flow.at, flow.peer)
            .is_some()
            && self.node.is_open(flow.peer)
    }

    /// Whether all that a peer sent in a session came to the endpoints that are open.
    fn all_came_of(&self, session: Session, pair: Session, inc: Inc) -> bool
        ensures { result ≡ not (is_due self.now session pair inc) }
    {
        let mut left = self.sent.flows_from(inc, self.link, pair);
        while let Some(flow) = left.next_entry() {
            let due = self.is_to_come(session, *flow);
            if due {
                return false;
            }
        }
        true
    }

    /// Whether all that a peer sent came.
    fn all_came(&self, session: Session, inc: Inc) -> bool
        ensures { result ≡ all_came self.now.here.pair self.now session inc }
    {
        match self.here.pair() {
            Some(pair) => self.all_came_of(session, pair, inc),
            None => false,
        }
    }

    /// Whether a peer may be parted from.
    fn may_part(&self, session: Session, inc: Inc) -> bool
        ensures { result ≡ may_part self.now session inc }
    {
        let peer = Peer::There {
            link: self.link,
            session,
            inc,
        };
        self.node.is_living(peer) && (self.marks.was_closed(inc) && self.all_came(session, inc))
    }

    /// Whether what begins with this effect may come.
    fn may_be_first(&self, first: &Effect) -> bool
        requires here { HasRoom self.now.here }
        requires there { HasRoom self.now.there }
        ensures { result ≡ may_be_first self.now first.now }
    {
        match first {
            Effect::Up(_, _, session, other) => self.may_go_up(*session, *other),
            Effect::Down(_, _, session) => self.may_go_down(*session),
            Effect::Arrived(at, peer, note) => match peer {
                Peer::There { session, inc, .. } => self.may_arrive(*session, *inc, *at, note),
                Peer::Here(_) => false,
            },
            Effect::Met(_, peer, name) => match peer {
                Peer::There { session, inc, .. } => self.may_meet(*session, *inc, name),
                Peer::Here(_) => false,
            },
            Effect::Gone(_, peer) => match peer {
                Peer::There { session, inc, .. } => self.may_part(*session, *inc),
                Peer::Here(_) => false,
            },
            _ => false,
        }
    }

    /// Whether what a packet brings, which its first effect tells, may come.
    pub(crate) fn may_bring(&self, effects: &[Effect]) -> bool
        requires here { HasRoom self.now.here }
        requires there { HasRoom self.now.there }
        ensures { result ≡ may_bring self.now effects.now }
    {
        match effects.first() {
            Some(first) => self.may_be_first(first),
            None => true,
        }
    }
}
