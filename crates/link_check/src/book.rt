//! What is kept of all links, step by step.
ghost use Rattle.std.specs.Prelude.{◌≡◌, ◌<◌, ◌≤◌, [], length, replicate, slice_get};
ghost use Rattle.std.specs.Prelude.{IfOk, OnOk, Some, option_map, option_to_list};
ghost use Rattle.link_laws.specs.Laws.{down_if};
ghost use Rattle.link_check.specs.Books.{ArePast, HaveRoom, IsBookLeft, IsFresh, IsPast, TakesStep};
ghost use Rattle.link_check.specs.Books.{end_no};
ghost use Rattle.link_check.specs.Downs.{downs_in, session_on};
ghost use Rattle.link_check.specs.Lines.{fresh_line, side_in};
ghost use Rattle.link_check.specs.Told.{IsReady, IsThere, ends_in, ends_of, kernel_in, known_at, line_in};

use crate::delivery::Delivery;
use crate::line_table::LineTable;
use crate::rest::Stir;
use crate::still::Line;
use journal::{Effect, Step};
use link_tables::{Arrivals, Marks, Sent, SideTable};
use linx_base::{Inc, LinkDecl, LinkNo, NoMemory, NodeNo, Session, Side};
use node_kernel::Kernel;
use std::alloc::Global;
use std::marker::Model;

/// The links of a run, what is kept of each, and what was opened, closed, met and sent so far, and
/// what arrived.
#[derive(Drop)]
pub struct Book {
    links: Vec<LinkDecl>,
    lines: Vec<LineTable>,
    marks: Marks,
    sent: Sent,
    arrivals: Arrivals,
}

impl Model for Book {
    ghost use Rattle.link_check.specs.Books.{BookSoFar};

    ghost Value = { BookSoFar };

    ghost view = { λ b. record {
      links = b.links.items;
      lines = b.lines.items;
      marks = b.marks;
      sent = b.sent;
      arrived = b.arrivals;
    } };
}

/// The node at a side of a link.
fn end_of(ends: &LinkDecl, side: Side) -> NodeNo
    ensures { result ≡ end_no ends.now side }
{
    match side {
        Side::First => ends.first,
        Side::Second => ends.second,
    }
}

/// So many links before the first step.
fn fresh_lines(alloc: Global, count: usize) -> Result<Vec<LineTable>, NoMemory>
    ensures { IfOk result (λ lines. lines.items ≡ replicate count fresh_line) }
{
    let mut lines = Vec::new(alloc);
    for _place in 0..count {
        lines.push(LineTable::new(alloc))?;
    }
    Ok(lines)
}

/// The nodes of a link, by its place.
fn ends_at(links: &[LinkDecl], place: usize) -> &LinkDecl
    requires { place < length links.now }
    ensures { slice_get links.now place ≡ Some result.now }
{
    &links[place]
}

/// The kernel of a node.
fn kernel_of(kernels: &[Kernel], node: NodeNo) -> &Kernel
    requires above { 0 < node.0 }
    requires within { node.0 ≤ length kernels.now }
    ensures { result.now ≡ kernel_in kernels.now node }
{
    let place = (node.0 - 1) as usize;
    &kernels[place]
}

/// Each of these passes a step, whose maker has this endpoint.
fn pass_all(
    lines: &mut [LineTable],
    links: &[LinkDecl],
    me: Option<Inc>,
    step: &Step,
) -> Result<(), NoMemory>
    requires counted { length lines.old ≡ length links.now }
    requires few { length lines.old < 4294967295 }
    requires room { HaveRoom lines.old }
    ensures { OnOk result (ArePast links.now me step.now lines.old lines.new) }
{
    for place in 0..lines.len() {
        let link = LinkNo(place as u32 + 1);
        let ends = ends_at(links, place);
        lines[place].pass(link, ends, me, step)?;
    }
    Ok(())
}

impl Book {
    /// The book of these links before the first step.
    pub fn new(alloc: Global, links: &[LinkDecl]) -> Result<Book, NoMemory>
        ensures { IfOk result (IsBookLeft [] links.now) }
    {
        Book::fresh(alloc, links)
    }

    /// The same, part by part.
    fn fresh(alloc: Global, links: &[LinkDecl]) -> Result<Book, NoMemory>
        ensures { IfOk result (IsFresh links.now) }
    {
        Ok(Book {
            links: Vec::from_slice(alloc, links)?,
            lines: fresh_lines(alloc, links.len())?,
            marks: Marks::new(alloc),
            sent: Sent::new(alloc),
            arrivals: Arrivals::new(alloc),
        })
    }

    /// Passes a step, whose maker has this endpoint.
    pub fn pass(&mut self, me: Option<Inc>, step: &Step) -> Result<(), NoMemory>
        requires takes { TakesStep self.old }
        ensures { OnOk result (IsPast me step.now self.old self.new) }
    {
        pass_all(&mut self.lines, &self.links, me, step)?;
        self.marks.pass(step)?;
        self.sent.pass(me, &step.head)?;
        self.arrivals.pass(step)?;
        Ok(())
    }

    /// How many links there are.
    pub fn link_count(&self) -> usize
        ensures { result ≡ length self.now.links }
    {
        self.links.len()
    }

    /// A link, by its number.
    fn link_of(&self, link: LinkNo) -> &LinkDecl
        requires there { IsThere self.now link }
        ensures { result.now ≡ ends_in self.now link }
    {
        let place = (link.0 - 1) as usize;
        &self.links[place]
    }

    /// The node at a side of a link.
    pub fn node_at(&self, link: LinkNo, side: Side) -> NodeNo
        requires there { IsThere self.now link }
        ensures { result ≡ end_no (ends_in self.now link) side }
    {
        end_of(self.link_of(link), side)
    }

    /// What is kept of a link.
    fn line_of(&self, link: LinkNo) -> &LineTable
        requires takes { TakesStep self.now }
        requires there { IsThere self.now link }
        ensures { result.now ≡ line_in self.now link }
    {
        let place = (link.0 - 1) as usize;
        &self.lines[place]
    }

    /// Whether a link is cut.
    pub(crate) fn is_cut(&self, link: LinkNo) -> bool
        requires takes { TakesStep self.now }
        requires there { IsThere self.now link }
        ensures { result ≡ (line_in self.now link).cut }
    {
        self.line_of(link).is_cut()
    }

    /// What was stirred on a link since it was last seen still, where it is known.
    pub(crate) fn stirred(&self, link: LinkNo) -> Option<&[Stir]>
        requires takes { TakesStep self.now }
        requires there { IsThere self.now link }
        ensures { option_map (λ stirs. stirs.now) result ≡ (line_in self.now link).stirred }
    {
        self.line_of(link).stirred()
    }

    /// A side of a link.
    pub(crate) fn side(&self, link: LinkNo, side: Side) -> &SideTable
        requires takes { TakesStep self.now }
        requires there { IsThere self.now link }
        ensures { result.now ≡ side_in (line_in self.now link) side }
    {
        self.line_of(link).side(side)
    }

    /// The session of a node on a link, if it is up there.
    fn session_on(&self, link: LinkNo, node: NodeNo) -> Option<Session>
        requires takes { TakesStep self.now }
        requires there { IsThere self.now link }
        ensures { result ≡ session_on self.now link node.0 }
    {
        let ends = self.link_of(link);
        let line = self.line_of(link);
        if ends.first.0 == node.0 {
            line.side(Side::First).up()
        } else if ends.second.0 == node.0 {
            line.side(Side::Second).up()
        } else {
            None
        }
    }

    /// The end of the session of a node on a link, if it is up there.
    fn down_on(&self, link: LinkNo, node: NodeNo) -> Option<Effect>
        requires takes { TakesStep self.now }
        requires there { IsThere self.now link }
        ensures { option_to_list result ≡ down_if node.0 link.0 (session_on self.now link node.0) }
    {
        match self.session_on(link, node) {
            Some(session) => Some(Effect::Down(node, link, session)),
            None => None,
        }
    }

    /// The ends of the sessions of a node that are up, by the numbers of their links.
    pub fn downs_of(&self, alloc: Global, node: NodeNo) -> Result<Vec<Effect>, NoMemory>
        requires takes { TakesStep self.now }
        ensures { IfOk result (λ downs. downs.items
            ≡ downs_in self.now node.0 (length self.now.links)) }
    {
        let mut downs = Vec::new(alloc);
        for place in 0..self.link_count() {
            if let Some(down) = self.down_on(LinkNo(place as u32 + 1), node) {
                downs.push(down)?;
            }
        }
        Ok(downs)
    }

    /// What is known where a packet of a link comes to a side, where the nodes have these kernels.
    pub(crate) fn known<'a>(&'a self, kernels: &'a [Kernel], link: LinkNo, to: Side) -> Delivery<'a>
        requires ready { IsReady self.now kernels.now }
        requires there { IsThere self.now link }
        ensures { result ≡ known_at self.now kernels.now link to }
    {
        let ends = self.link_of(link);
        let at = end_of(ends, to);
        let node = kernel_of(kernels, at);
        let here = self.side(link, to);
        let there = self.side(link, to.other());
        Delivery {
            node,
            at,
            other: end_of(ends, to.other()),
            link,
            here,
            there,
            marks: &self.marks,
            sent: &self.sent,
            arrivals: &self.arrivals,
        }
    }

    /// What is known at the two ends of a link, where the nodes have these kernels.
    pub(crate) fn ends<'a>(&'a self, kernels: &'a [Kernel], link: LinkNo) -> Line<'a>
        requires ready { IsReady self.now kernels.now }
        requires there { IsThere self.now link }
        ensures { result ≡ ends_of self.now kernels.now link }
    {
        Line {
            first: self.known(kernels, link, Side::First),
            second: self.known(kernels, link, Side::Second),
            cut: self.is_cut(link),
        }
    }
}
