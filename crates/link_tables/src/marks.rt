//! What was opened, closed and met so far.
ghost use Rattle.std.specs.Prelude.{◌≡◌, ◌++◌, [], slice_get, length, ◌≤◌, IfOk, OnOk, filter};
ghost use Rattle.std.specs.List.{list_any};
ghost use Rattle.keyed_list.specs.Keys.{is_under};
ghost use Rattle.linx_base.specs.declared.identity.Peer.TheVariants.{There as Across};
ghost use Rattle.link_tables.specs.Marks.{is_closing_of, is_meeting_of, is_opening_of, mark_keys};
ghost use Rattle.link_tables.specs.Marks.{mark_of, marks_in, meeting_mark, name_after, opened_as};
ghost use Rattle.link_tables.specs.Marks.{is_meeting_in, met_by, own_key, session_key, with_mark};
ghost use Rattle.std.specs.Option.{option_copied};
ghost use Rattle.journal.specs.History.{name_in};
ghost use Rattle.link_tables.specs.declared.marks.Mark.{Mark as Marked};

use journal::{Effect, Head, Step};
use keyed_list::{Keyed, KeyedList, Under};
use linx_base::{Inc, LinkNo, Name, NoMemory, NodeNo, Peer, Session, TryCopy};
use std::alloc::Global;
use std::marker::Model;

/// By what a mark is found.
#[derive(PartialEq, Eq, PartialOrd, Ord, Drop)]
pub enum MarkKey {
    Opened(Inc),
    Closed(Inc),
    Met(NodeNo, LinkNo, Session, Inc),
    MetIn(NodeNo, LinkNo, Session),
}

/// A walk over marks, in order.
pub type MarksUnder<'a> = Under<'a, Mark, MarkKey>;

/// What an effect marks: an endpoint was opened, with the name that its head gives it, or closed; a
/// node met a peer.
#[derive(Drop)]
pub enum Mark {
    Opened(Inc, Option<Name>),
    Closed(Inc),
    Met(NodeNo, LinkNo, Session, Inc),
}

/// The key of the opening of an incarnation.
fn opened_key(inc: Inc) -> MarkKey
    ensures { (mark : Marked) → is_under ⟦<MarkKey as Ord>⟧.cmp mark_keys result mark
        ≡ is_opening_of inc mark }
{
    MarkKey::Opened(inc)
}

/// The key of its closing.
fn closed_key(inc: Inc) -> MarkKey
    ensures { (mark : Marked) → is_under ⟦<MarkKey as Ord>⟧.cmp mark_keys result mark
        ≡ is_closing_of inc mark }
{
    MarkKey::Closed(inc)
}

/// The key of a meeting of a node.
fn met_key(node: NodeNo, link: LinkNo, session: Session, inc: Inc) -> MarkKey
    ensures { (mark : Marked) → is_under ⟦<MarkKey as Ord>⟧.cmp mark_keys result mark
        ≡ is_meeting_of node.0 (Across link session inc) mark }
{
    MarkKey::Met(node, link, session, inc)
}

/// The key of the meetings of a node in a session of a link.
fn met_in_key(node: NodeNo, link: LinkNo, session: Session) -> MarkKey
    ensures { (mark : Marked) → is_under ⟦<MarkKey as Ord>⟧.cmp mark_keys result mark
        ≡ is_meeting_in node link session mark }
{
    MarkKey::MetIn(node, link, session)
}

impl Mark {
    /// The key that says whom it speaks of.
    fn own_key(&self) -> MarkKey
        ensures { result ≡ own_key self.now }
    {
        match self {
            Mark::Opened(inc, _) => MarkKey::Opened(*inc),
            Mark::Closed(inc) => MarkKey::Closed(*inc),
            Mark::Met(node, link, session, inc) => MarkKey::Met(*node, *link, *session, *inc),
        }
    }

    /// The key of a meeting that says in which session it was.
    fn session_key(&self) -> Option<MarkKey>
        ensures { result ≡ session_key self.now }
    {
        match self {
            Mark::Met(node, link, session, _) => Some(MarkKey::MetIn(*node, *link, *session)),
            _ => None,
        }
    }

    /// The peer that was met, and its incarnation. None of another mark.
    pub fn met(&self) -> Option<(Peer, Inc)>
        ensures { result ≡ met_by self.now }
    {
        match self {
            Mark::Met(_, link, session, inc) => {
                let peer = Peer::There {
                    link: *link,
                    session: *session,
                    inc: *inc,
                };
                Some((peer, *inc))
            }
            _ => None,
        }
    }
}

impl Keyed<MarkKey> for Mark {
    ghost keys = { mark_keys };

    fn key(&self, at: u8) -> Option<MarkKey> {
        match at {
            0 => Some(self.own_key()),
            1 => self.session_key(),
            _ => None,
        }
    }
}

/// The name that a head gives to what it opens.
fn name_in(head: &Head) -> Result<Option<Name>, NoMemory>
    ensures { IfOk result (λ name. name ≡ name_in head.now) }
{
    match head {
        Head::Open(name) => Ok(Some(name.copy()?)),
        _ => Ok(None),
    }
}

/// The mark of a meeting; none of a peer on the own node.
fn meeting_mark(node: NodeNo, peer: Peer) -> Option<Mark>
    ensures { result ≡ meeting_mark node peer }
{
    match peer {
        Peer::Here(_) => None,
        Peer::There { link, session, inc } => Some(Mark::Met(node, link, session, inc)),
    }
}

/// The name of an incarnation after a mark, which it had before or not.
fn name_after<'a>(inc: Inc, before: Option<&'a Name>, mark: &'a Mark) -> Option<&'a Name>
    ensures { option_copied result ≡ name_after inc (option_copied before.entry) mark.now }
{
    match mark {
        Mark::Opened(opened, Some(name)) => {
            if inc.0 == opened.0 {
                Some(name)
            } else {
                before
            }
        }
        Mark::Opened(opened, None) => { if inc.0 == opened.0 { None } else { before } }
        _ => before,
    }
}

/// What an effect marks.
fn mark_of(head: &Head, effect: &Effect) -> Result<Option<Mark>, NoMemory>
    ensures { IfOk result (λ mark. mark ≡ mark_of head.now effect.now) }
{
    match effect {
        Effect::Opened(inc) => Ok(Some(Mark::Opened(*inc, name_in(head)?))),
        Effect::Closed(inc) => Ok(Some(Mark::Closed(*inc))),
        Effect::Met(node, peer, _) => Ok(meeting_mark(*node, *peer)),
        _ => Ok(None),
    }
}

/// What was opened, closed and met, in order.
#[derive(Drop)]
pub struct Marks {
    marks: KeyedList<Mark, MarkKey>,
}

impl Model for Marks {
    ghost use Rattle.std.specs.Prelude.{List};
    ghost use Rattle.link_tables.specs.declared.marks.Mark.{Mark};

    ghost Value = { List Mark };

    ghost view = { λ t. t.marks };
}

impl Marks {
    /// Nothing so far. It takes no memory.
    pub fn new(alloc: Global) -> Marks
        ensures { result ≡ [] }
    {
        Marks {
            marks: KeyedList::new(alloc),
        }
    }

    /// Whether an incarnation was opened, closed by now or not.
    pub fn was_opened(&self, inc: Inc) -> bool
        ensures { result ≡ list_any (is_opening_of inc) self.now }
    {
        self.marks.has(opened_key(inc))
    }

    /// Whether an incarnation was closed.
    pub fn was_closed(&self, inc: Inc) -> bool
        ensures { result ≡ list_any (is_closing_of inc) self.now }
    {
        self.marks.has(closed_key(inc))
    }

    /// The name that an incarnation was opened with, closed by now or not. None where it wasn't
    /// opened.
    pub fn opened_as(&self, inc: Inc) -> Option<&Name>
        ensures { option_copied result ≡ opened_as inc self.now }
    {
        let mut name = None;
        let mut left = self.marks.under(opened_key(inc));
        while let Some(mark) = left.next_entry() {
            name = name_after(inc, name, mark);
        }
        name
    }

    /// Whether a node has met a peer over a link, alive by now or not.
    pub fn was_met(&self, node: NodeNo, link: LinkNo, session: Session, inc: Inc) -> bool
        ensures { result ≡ list_any (is_meeting_of node.0 (Across link session inc)) self.now }
    {
        self.marks.has(met_key(node, link, session, inc))
    }

    /// The meetings of a node in a session of a link, in order.
    pub fn met_in(&self, node: NodeNo, link: LinkNo, session: Session) -> MarksUnder<'_>
        ensures { result ≡ filter (is_meeting_in node link session) self.now }
    {
        self.marks.under(met_in_key(node, link, session))
    }

    /// Adds what an effect marks.
    fn add(&mut self, mark: Option<Mark>) -> Result<(), NoMemory>
        ensures { OnOk result (self.new ≡ with_mark self.old mark) }
    {
        match mark {
            None => Ok(()),
            Some(mark) => match self.marks.push(mark) {
                Ok(()) => Ok(()),
                Err((refusal, _)) => Err(refusal),
            },
        }
    }

    /// Marks what a step opens, closes and meets. After a refusal the marks are thrown away.
    #[tactic(auto, using(crate::proofs::Marked::one_marked))]
    pub fn pass(&mut self, step: &Step) -> Result<(), NoMemory>
        ensures { OnOk result (self.new ≡ self.old ++ marks_in step.now.head step.now.effects) }
    {
        for effect in step.effects.as_slice() {
            let mark = mark_of(&step.head, effect)?;
            self.add(mark)?;
        }
        Ok(())
    }
}
