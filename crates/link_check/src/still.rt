//! Whether a link is still.
ghost use Rattle.std.specs.Prelude.{◌≡◌, is_none, is_some, filter, length};
ghost use Rattle.std.specs.List.{list_any};
ghost use Rattle.std.specs.Option.{option_copied};
ghost use Rattle.linx_base.specs.Pending.{name_over};
ghost use Rattle.link_check.specs.Deliveries.{is_session};
ghost use Rattle.link_check.specs.Stillness.{any_findable, any_left_over, any_under_way};
ghost use Rattle.link_check.specs.Stillness.{is_findable, is_left_over, is_open_name, is_still};
ghost use Rattle.link_check.specs.Stillness.{is_settled, is_still_half, is_still_whole, is_stirred};
ghost use Rattle.link_check.specs.Stillness.{is_under_way, is_unsettled};

use crate::delivery::{Delivery, is_session};
use crate::rest::Stir;
use link_tables::{Flow, Mark};
use linx_base::{LinkNo, Name, Path, Peer, PendingHunt, Session};
use node_kernel::Kernel;
use std::marker::Model;

/// What is known at the two ends of a link, and whether it is cut.
#[derive(Drop)]
pub(crate) struct Line<'a> {
    pub(crate) first: Delivery<'a>,
    pub(crate) second: Delivery<'a>,
    pub(crate) cut: bool,
}

impl<'a> Model for Line<'a> {
    ghost use Rattle.link_check.specs.Stillness.{Ends};

    ghost Value = { Ends };

    ghost view = { λ l. record { first = l.first; second = l.second; cut = l.cut } };
}

/// The name that a path has over a link.
fn name_over(link: LinkNo, path: &Path) -> Option<&Name>
    ensures { option_copied result ≡ name_over link path.now }
{
    match path {
        Path::Local(_) => None,
        Path::Over { link: over, name } => { if over.0 == link.0 { Some(name) } else { None } }
    }
}

/// Whether a name, if it is one, is open on a node.
fn is_open_name(kernel: &Kernel, name: Option<&Name>) -> bool
    ensures { result ≡ is_open_name kernel.now.endpoints (option_copied name.entry) }
{
    match name {
        Some(name) => kernel.first(name).is_some(),
        None => false,
    }
}

impl<'a> Delivery<'a> {
    /// Whether a signal of a flow has still to come, from an open endpoint across to an open one here.
    fn is_under_way(&self, across: &Delivery<'_>, session: Session, flow: Flow) -> bool
        ensures { result ≡ is_under_way self.now across.now session flow }
    {
        self.is_to_come(session, flow) && across.node.is_open(flow.at)
    }

    /// Whether one has, of a flow of the session across.
    fn any_under_way(&self, across: &Delivery<'_>, session: Session, other: Session) -> bool
        ensures { result ≡ any_under_way self.now across.now session other }
    {
        let mut left = self.sent.flows_in(self.link, other);
        while let Some(flow) = left.next_entry() {
            let under_way = self.is_under_way(across, session, *flow);
            if under_way {
                return true;
            }
        }
        false
    }

    /// Whether a peer that was met is alive here, and isn't open across.
    fn is_left_over(&self, across: &Delivery<'_>, mark: &Mark) -> bool
        ensures { result ≡ is_left_over self.now across.now mark.now }
    {
        match mark.met() {
            Some((peer, inc)) => self.node.is_living(peer) && !across.node.is_open(inc),
            None => false,
        }
    }

    /// Whether one is.
    fn any_left_over(&self, across: &Delivery<'_>, session: Session) -> bool
        ensures { result ≡ any_left_over self.now across.now session }
    {
        let mut left = self.marks.met_in(self.at, self.link, session);
        while let Some(mark) = left.next_entry() {
            let left_over = self.is_left_over(across, mark);
            if left_over {
                return true;
            }
        }
        false
    }

    /// Whether a hunt from here is for a name that is open across.
    fn is_findable(&self, across: &Delivery<'_>, hunt: &PendingHunt) -> bool
        ensures { result ≡ is_findable self.now across.now hunt.now }
    {
        is_open_name(across.node, name_over(self.link, &hunt.path))
    }

    /// Whether one is.
    fn any_findable(&self, across: &Delivery<'_>) -> bool
        ensures { result ≡ any_findable self.now across.now }
    {
        let mut left = self.node.hunts_over(self.link);
        while let Some(hunt) = left.next_entry() {
            let findable = self.is_findable(across, hunt);
            if findable {
                return true;
            }
        }
        false
    }

    /// Whether something that was stirred isn't settled in one direction.
    fn is_stirred(
        &self,
        across: &Delivery<'_>,
        session: Session,
        other: Session,
        stir: &Stir,
    ) -> bool
        ensures { result ≡ is_stirred self.now across.now session other stir.now }
    {
        match stir {
            Stir::Sent(from, to) => {
                let flow = Flow {
                    at: *from,
                    link: self.link,
                    session: other,
                    peer: *to,
                };
                self.is_under_way(across, session, flow)
            }
            Stir::Doubted(inc) => {
                let peer = Peer::There {
                    link: self.link,
                    session,
                    inc: *inc,
                };
                self.node.is_living(peer) && !across.node.is_open(*inc)
            }
            Stir::Hunted(name) => across.node.first(name).is_some() && self.any_findable(across),
            Stir::Offered(inc) => across.node.is_open(*inc) && self.any_findable(across),
        }
    }

    /// Whether one direction is still.
    fn is_still_half(&self, across: &Delivery<'_>, session: Session, other: Session) -> bool
        ensures { result ≡ is_still_half self.now across.now session other }
    {
        is_session(self.here.pair(), other)
            && (!self.any_under_way(across, session, other)
                && (!self.any_left_over(across, session) && !self.any_findable(across)))
    }
}

impl<'a> Line<'a> {
    /// Whether both directions are.
    fn is_still_whole(&self) -> bool
        ensures { result ≡ is_still_whole self.now.first self.now.second self.now.first.here.up
            self.now.second.here.up }
    {
        match self.first.here.up() {
            Some(here) => match self.second.here.up() {
                Some(there) => {
                    self.first.is_still_half(&self.second, here, there)
                        && self.second.is_still_half(&self.first, there, here)
                }
                None => false,
            },
            None => false,
        }
    }

    /// Whether something that was stirred isn't settled.
    fn is_unsettled(&self, stir: &Stir) -> bool
        ensures { result ≡ is_unsettled self.now stir.now }
    {
        match self.first.here.up() {
            Some(here) => match self.second.here.up() {
                Some(there) => {
                    self.first.is_stirred(&self.second, here, there, stir)
                        || self.second.is_stirred(&self.first, there, here, stir)
                }
                None => false,
            },
            None => false,
        }
    }

    /// Whether all that was stirred is settled.
    pub(crate) fn is_settled(&self, stirs: &[Stir]) -> bool
        ensures { result ≡ is_settled self.now stirs.now }
    {
        for stir in stirs {
            if self.is_unsettled(stir) {
                return false;
            }
        }
        true
    }

    /// Whether the link is still.
    pub(crate) fn is_still(&self) -> bool
        ensures { result ≡ is_still self.now }
    {
        if self.cut {
            self.first.here.up().is_none() && self.second.here.up().is_none()
        } else {
            self.is_still_whole()
        }
    }
}
