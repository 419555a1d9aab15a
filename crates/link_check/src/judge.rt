//! Whether a step keeps the laws of links.
ghost use Rattle.std.specs.Prelude.{◌≡◌, length, true};
ghost use Rattle.link_laws.specs.Laws.{delivers};
ghost use Rattle.link_check.specs.Links.{is_of_link};
ghost use Rattle.link_check.specs.Told.{IsReady, IsThere, all_still, are_none, is_still_at};
ghost use Rattle.link_check.specs.Told.{keeps_cuts, keeps_rest};
ghost use Rattle.link_check.specs.Told.{may_lose, may_lose_by, may_pass, may_pass_if, may_tick};
ghost use Rattle.link_check.specs.Books.{TakesStep};
ghost use Rattle.link_tables.specs.Sides.{HasRoom};

use crate::book::Book;
use crate::cut::loses_if_cut;
use crate::delivery::{Delivery, is_session};
use crate::shape::is_of_link;
use crate::tick::session_to_lose;
use journal::{Effect, Head, Step};
use link_tables::SideTable;
use linx_base::{LinkNo, Verdict};
use node_kernel::Kernel;

/// Whether a verdict hands a packet over.
fn delivers(verdict: Verdict) -> bool
    ensures { result ≡ delivers verdict }
{
    match verdict {
        Verdict::Deliver => true,
        Verdict::Lose => false,
        Verdict::Repeat => true,
        Verdict::Swap(_) => false,
    }
}

/// Whether there are no effects.
fn are_none(effects: &[Effect]) -> bool
    ensures { result ≡ are_none effects.now }
{
    effects.first().is_none()
}

/// Whether what a packet brings, which is handed over or not, may come.
fn may_pass_if(handed: bool, delivery: &Delivery<'_>, effects: &[Effect]) -> bool
    requires here { HasRoom delivery.now.here }
    requires there { HasRoom delivery.now.there }
    ensures { result ≡ may_pass_if handed delivery.now effects.now }
{
    if handed {
        delivery.may_bring(effects)
    } else {
        are_none(effects)
    }
}

/// Whether what begins with an effect is a loss that may come.
fn may_lose_by(side: &SideTable, first: &Effect) -> bool
    ensures { result ≡ may_lose_by side.now first.now }
{
    match first {
        Effect::Down(_, _, session) => is_session(session_to_lose(side), *session),
        _ => false,
    }
}

/// Whether what a tick of a side brings may come.
fn may_lose(side: &SideTable, effects: &[Effect]) -> bool
    ensures { result ≡ may_lose side.now effects.now }
{
    match effects.first() {
        Some(first) => may_lose_by(side, first),
        None => true,
    }
}

impl Book {
    /// Whether a link is still, by what was stirred since it was last seen so, or else by all that is
    /// known at its ends.
    fn is_still_at(&self, kernels: &[Kernel], link: LinkNo) -> bool
        requires ready { IsReady self.now kernels.now }
        requires there { IsThere self.now link }
        ensures { result ≡ is_still_at self.now kernels.now link }
    {
        match self.stirred(link) {
            Some(stirs) => stirs.is_empty() || self.ends(kernels, link).is_settled(stirs),
            None => self.ends(kernels, link).is_still(),
        }
    }

    /// Whether every link is still.
    fn all_still(&self, kernels: &[Kernel]) -> bool
        requires ready { IsReady self.now kernels.now }
        ensures { result ≡ all_still self.now kernels.now (length self.now.links) }
    {
        let mut all = true;
        for place in 0..self.link_count() {
            let link = LinkNo(place as u32 + 1);
            let still = self.is_still_at(kernels, link);
            all = all && still;
        }
        all
    }

    /// Whether what a head says of a link is said of one that there is.
    pub fn is_of_link(&self, head: &Head) -> bool
        ensures { result ≡ is_of_link (length self.now.links) head.now }
    {
        is_of_link(self.link_count(), head)
    }

    /// Whether a receive that finds none may do so, where the nodes have these kernels.
    pub fn keeps_rest(&self, kernels: &[Kernel], head: &Head) -> bool
        requires ready { IsReady self.now kernels.now }
        ensures { result ≡ keeps_rest self.now kernels.now head.now }
    {
        match head {
            Head::TakeNone(_) => self.all_still(kernels),
            _ => true,
        }
    }

    /// Whether what the packet of a step brings may come, where the nodes have these kernels.
    pub fn may_pass(&self, kernels: &[Kernel], step: &Step) -> bool
        requires ready { IsReady self.now kernels.now }
        requires of_link { is_of_link (length self.now.links) step.now.head ≡ true }
        ensures { result ≡ may_pass self.now kernels.now step.now.head step.now.effects }
    {
        match &step.head {
            Head::Wire(link, from, verdict) => {
                let delivery = self.known(kernels, *link, from.other());
                may_pass_if(delivers(*verdict), &delivery, step.effects.as_slice())
            }
            _ => true,
        }
    }

    /// Whether a packet meets a verdict that its link allows.
    pub fn keeps_cuts(&self, head: &Head) -> bool
        requires takes { TakesStep self.now }
        requires of_link { is_of_link (length self.now.links) head.now ≡ true }
        ensures { result ≡ keeps_cuts self.now head.now }
    {
        match head {
            Head::Wire(link, _, verdict) => loses_if_cut(self.is_cut(*link), *verdict),
            _ => true,
        }
    }

    /// Whether what the tick of a step brings may come.
    pub fn may_tick(&self, step: &Step) -> bool
        requires takes { TakesStep self.now }
        requires of_link { is_of_link (length self.now.links) step.now.head ≡ true }
        ensures { result ≡ may_tick self.now step.now.head step.now.effects }
    {
        match &step.head {
            Head::Tick(link, side) => { may_lose(self.side(*link, *side), step.effects.as_slice()) }
            _ => true,
        }
    }
}
