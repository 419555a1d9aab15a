//! What was sent over links so far, and in which flows.
ghost use Rattle.std.specs.Prelude.{◌≡◌, ◌++◌, [], ◌∷◌, slice_get, length, ◌≤◌, IfOk, OnErr, OnOk};
ghost use Rattle.std.specs.Prelude.{false, filter, true};
ghost use Rattle.std.specs.List.{list_any};
ghost use Rattle.std.specs.Option.{option_copied, option_map};
ghost use Rattle.link_tables.specs.Sent.{flow_keys, flow_to, flows_of, is_from, is_in, notes_of};
ghost use Rattle.link_tables.specs.Sent.{same_flow, sent_keys, sent_over, sent_past, with_sent};
ghost use Rattle.keyed_list.specs.Keys.{is_under};
ghost use Rattle.link_tables.specs.declared.sent.Flow.{Flow as Way};

use journal::{Head, SentTo};
use keyed_list::{Keyed, KeyedList, Under};
use linx_base::{Inc, LinkNo, NoMemory, Peer, Session, SigNote, TryCopy};
use std::alloc::Global;
use std::marker::Model;

/// An endpoint, and a peer over a link in a session of the endpoint's node.
#[derive(Clone, Copy, Debug, PartialEq, Eq, PartialOrd, Ord, Hash)]
pub struct Flow {
    pub at: Inc,
    pub link: LinkNo,
    pub session: Session,
    pub peer: Inc,
}

/// By what a flow is found: as itself, by the endpoint that it is from with its session, and by its
/// session of a link.
#[derive(PartialEq, Eq, PartialOrd, Ord, Drop)]
pub enum FlowKey {
    Itself(Flow),
    From(Inc, LinkNo, Session),
    In(LinkNo, Session),
}

/// A signal that an endpoint sent to a peer over a link.
#[derive(Drop)]
pub struct SentOver {
    flow: Flow,
    note: SigNote,
}

/// A walk over flows, in the order of their first signals.
pub type FlowsUnder<'a> = Under<'a, Flow, FlowKey>;

impl Keyed<Flow> for SentOver {
    ghost keys = { sent_keys };

    fn key(&self, at: u8) -> Option<Flow> {
        match at {
            0 => Some(self.flow),
            _ => None,
        }
    }
}

impl Keyed<FlowKey> for Flow {
    ghost keys = { flow_keys };

    fn key(&self, at: u8) -> Option<FlowKey> {
        match at {
            0 => Some(FlowKey::Itself(*self)),
            1 => Some(FlowKey::From(self.at, self.link, self.session)),
            2 => Some(FlowKey::In(self.link, self.session)),
            _ => None,
        }
    }
}

/// The key of a flow.
fn own_key(flow: Flow) -> FlowKey
    ensures { (way : Way) → is_under ⟦<FlowKey as Ord>⟧.cmp flow_keys result way
        ≡ same_flow flow way }
{
    FlowKey::Itself(flow)
}

/// The key of the flows from an endpoint in a session of a link.
fn from_key(at: Inc, link: LinkNo, session: Session) -> FlowKey
    ensures { (way : Way) → is_under ⟦<FlowKey as Ord>⟧.cmp flow_keys result way
        ≡ is_from at link session way }
{
    FlowKey::From(at, link, session)
}

/// The key of those in a session of a link.
fn in_key(link: LinkNo, session: Session) -> FlowKey
    ensures { (way : Way) → is_under ⟦<FlowKey as Ord>⟧.cmp flow_keys result way
        ≡ is_in link session way }
{
    FlowKey::In(link, session)
}

/// The flow from an endpoint to a peer over a link; none of a peer on the own node.
pub(crate) fn flow_to(at: Inc, peer: Peer) -> Option<Flow>
    ensures { result ≡ flow_to at peer }
{
    match peer {
        Peer::Here(_) => None,
        Peer::There { link, session, inc } => Some(Flow {
            at,
            link,
            session,
            peer: inc,
        }),
    }
}

/// What an endpoint sends by a head over a link.
fn sent_over(at: Inc, head: &Head) -> Result<Option<SentOver>, NoMemory>
    ensures { IfOk result (λ sent. sent ≡ sent_over at head.now) }
{
    match head {
        Head::Send(_, _, SentTo::Dead) => Ok(None),
        Head::Send(to, note, _) => match flow_to(at, *to) {
            Some(flow) => Ok(Some(SentOver {
                flow,
                note: note.copy()?,
            })),
            None => Ok(None),
        },
        _ => Ok(None),
    }
}

/// The note of what was sent, if it is something.
fn note_in(sent: Option<&SentOver>) -> Option<&SigNote>
    ensures { option_copied result ≡ option_map (λ s. s.note) (option_copied sent.entry) }
{
    match sent {
        Some(sent) => Some(&sent.note),
        None => None,
    }
}

/// Adds the first signal of a flow, and the flow. A refusal changes nothing.
fn push_first(
    sent: &mut KeyedList<SentOver, Flow>,
    flows: &mut KeyedList<Flow, FlowKey>,
    first: SentOver,
) -> Result<(), NoMemory>
    requires known { flows.old ≡ flows_of sent.old }
    requires fresh { list_any (same_flow first.flow) (flows_of sent.old) ≡ false }
    ensures known { flows.new ≡ flows_of sent.new }
    ensures ok { OnOk result (sent.new ≡ sent.old ++ first ∷ []) }
    ensures err { OnErr result (sent.new ≡ sent.old) }
{
    if let Err((refusal, _)) = flows.push(first.flow) {
        return Err(refusal);
    }
    match sent.push(first) {
        Ok(()) => Ok(()),
        Err((refusal, _)) => {
            flows.take_last();
            Err(refusal)
        }
    }
}

/// Adds one more signal of a flow. A refusal changes nothing.
fn push_next(sent: &mut KeyedList<SentOver, Flow>, next: SentOver) -> Result<(), NoMemory>
    requires known { list_any (same_flow next.flow) (flows_of sent.old) ≡ true }
    ensures known { flows_of sent.new ≡ flows_of sent.old }
    ensures ok { OnOk result (sent.new ≡ sent.old ++ next ∷ []) }
    ensures err { OnErr result (sent.new ≡ sent.old) }
{
    match sent.push(next) {
        Ok(()) => Ok(()),
        Err((refusal, _)) => Err(refusal),
    }
}

/// The signals that were sent over links, in order.
#[derive(Drop)]
pub struct Sent {
    sent: KeyedList<SentOver, Flow>,
    flows: KeyedList<Flow, FlowKey>,
}

impl Model for Sent {
    ghost use Rattle.std.specs.Prelude.{◌≡◌, List};
    ghost use Rattle.link_tables.specs.Sent.{flows_of};
    ghost use Rattle.link_tables.specs.declared.sent.SentOver.{SentOver};

    ghost Value = { List SentOver };

    ghost view = { λ t. t.sent };

    ghost invariant = { λ t. t.flows ≡ flows_of t.sent };
}

impl Sent {
    /// Nothing so far. It takes no memory.
    pub fn new(alloc: Global) -> Sent
        ensures { result ≡ [] }
    {
        Sent {
            sent: KeyedList::new(alloc),
            flows: KeyedList::new(alloc),
        }
    }

    /// The k-th signal of a flow, from 0. None where there are fewer.
    pub fn nth(&self, flow: Flow, k: usize) -> Option<&SigNote>
        ensures { option_copied result ≡ slice_get (notes_of flow self.now) k }
    {
        note_in(self.sent.nth(flow, k))
    }

    /// The flows from an endpoint in a session of a link, each once, in the order of their first
    /// signals.
    pub fn flows_from(&self, at: Inc, link: LinkNo, session: Session) -> FlowsUnder<'_>
        ensures { result ≡ filter (is_from at link session) (flows_of self.now) }
    {
        self.flows.under(from_key(at, link, session))
    }

    /// The flows in a session of a link, each once, in the order of their first signals.
    pub fn flows_in(&self, link: LinkNo, session: Session) -> FlowsUnder<'_>
        ensures { result ≡ filter (is_in link session) (flows_of self.now) }
    {
        self.flows.under(in_key(link, session))
    }

    /// Adds a signal. A refusal changes nothing.
    fn push(&mut self, sent: SentOver) -> Result<(), NoMemory>
        ensures { OnOk result (self.new ≡ self.old ++ sent ∷ []) }
    {
        if self.flows.has(own_key(sent.flow)) {
            push_next(&mut self.sent, sent)
        } else {
            push_first(&mut self.sent, &mut self.flows, sent)
        }
    }

    /// Adds what was sent, if it is something.
    fn add(&mut self, sent: Option<SentOver>) -> Result<(), NoMemory>
        ensures { OnOk result (self.new ≡ with_sent self.old sent) }
    {
        match sent {
            None => Ok(()),
            Some(sent) => self.push(sent),
        }
    }

    /// Notes what a head sends over a link, of which this is the maker's endpoint, if it has one.
    /// After a refusal the table is thrown away.
    pub fn pass(&mut self, me: Option<Inc>, head: &Head) -> Result<(), NoMemory>
        ensures { OnOk result (self.new ≡ sent_past me head.now self.old) }
    {
        match me {
            Some(at) => {
                let sent = sent_over(at, head)?;
                self.add(sent)
            }
            None => Ok(()),
        }
    }
}
