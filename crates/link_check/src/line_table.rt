//! What is kept of a link.
ghost use Rattle.std.specs.Prelude.{◌≡◌, OnOk, option_map};
ghost use Rattle.link_tables.specs.Sides.{HasRoom};
ghost use Rattle.link_check.specs.Lines.{fresh_line, line_after, line_past, line_past_if, side_in};
ghost use Rattle.link_check.specs.Lines.{touches};

use crate::rest::{Rest, Stir};
use journal::{Head, Step};
use link_tables::{SideTable, cut_after};
use linx_base::{Inc, LinkDecl, LinkNo, NoMemory, Side};
use std::alloc::Global;
use std::marker::Model;

/// The two sides of a link, whether it is cut, and what was stirred on it since it was last seen
/// still.
#[derive(Drop)]
pub(crate) struct LineTable {
    first: SideTable,
    second: SideTable,
    cut: bool,
    rest: Rest,
}

impl Model for LineTable {
    ghost use Rattle.link_check.specs.Lines.{LineSoFar};

    ghost Value = { LineSoFar };

    ghost view = { λ t. record {
      first = t.first;
      second = t.second;
      cut = t.cut;
      stirred = t.rest;
    } };
}

/// Whether a step of this head changes the sides of a link, or whether it is cut.
fn touches(link: LinkNo, head: &Head) -> bool
    ensures { result ≡ touches link.0 head.now }
{
    match head {
        Head::Wire(l, ..) => l.0 == link.0,
        Head::Tick(l, _) => l.0 == link.0,
        Head::Cut(l) => l.0 == link.0,
        Head::Mend(l) => l.0 == link.0,
        Head::Restart(_) => true,
        _ => false,
    }
}

impl LineTable {
    /// A link before the first step.
    pub(crate) fn new(alloc: Global) -> LineTable
        ensures { result ≡ fresh_line }
    {
        LineTable {
            first: SideTable::new(alloc),
            second: SideTable::new(alloc),
            cut: false,
            rest: Rest::new(alloc),
        }
    }

    /// A side of the link.
    pub(crate) fn side(&self, side: Side) -> &SideTable
        ensures { result.now ≡ side_in self.now side }
    {
        match side {
            Side::First => &self.first,
            Side::Second => &self.second,
        }
    }

    /// Whether the link is cut.
    pub(crate) fn is_cut(&self) -> bool
        ensures { result ≡ self.now.cut }
    {
        self.cut
    }

    /// What was stirred on the link since it was last seen still, where it is known.
    pub(crate) fn stirred(&self) -> Option<&[Stir]>
        ensures { option_map (λ stirs. stirs.now) result ≡ self.now.stirred }
    {
        self.rest.stirred()
    }

    /// Both sides pass a step.
    fn pass_sides(&mut self, link: LinkNo, ends: &LinkDecl, step: &Step) -> Result<(), NoMemory>
        requires first { HasRoom self.old.first }
        requires second { HasRoom self.old.second }
        ensures { OnOk result (self.new ≡ line_past link.0 ends.now step.now self.old) }
    {
        self.first.pass(ends.first, link, Side::First, step)?;
        self.second.pass(ends.second, link, Side::Second, step)?;
        self.cut = cut_after(link, self.cut, &step.head);
        Ok(())
    }

    /// Both sides pass a step, if it is of the link.
    fn pass_if(&mut self, link: LinkNo, ends: &LinkDecl, step: &Step) -> Result<(), NoMemory>
        requires first { HasRoom self.old.first }
        requires second { HasRoom self.old.second }
        ensures { OnOk result (self.new ≡ line_past_if link.0 ends.now step.now self.old) }
    {
        if touches(link, &step.head) {
            self.pass_sides(link, ends, step)
        } else {
            Ok(())
        }
    }

    /// Passes a step, whose maker has this endpoint.
    pub(crate) fn pass(
        &mut self,
        link: LinkNo,
        ends: &LinkDecl,
        me: Option<Inc>,
        step: &Step,
    ) -> Result<(), NoMemory>
        requires first { HasRoom self.old.first }
        requires second { HasRoom self.old.second }
        ensures { OnOk result (self.new ≡ line_after link.0 ends.now me step.now self.old) }
    {
        self.rest.pass(link, ends, me, step)?;
        self.pass_if(link, ends, step)
    }
}
