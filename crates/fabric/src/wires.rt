//! The steps of a link: a packet that meets a verdict, a tick, and what an actor does to the link
//! as a whole.

ghost use Rattle.std.specs.Prelude.{◌≡◌, ◌<◌, true, false, IfOk, IfErr, OnErr, OnOk, None};
ghost use Rattle.journal.specs.declared.head.Head.TheVariants as heads;
ghost use Rattle.link_laws.specs.Ends.{IsLinkOf};
ghost use Rattle.fabric.specs.Actings.{HasMade, LeavesAll, MayMake, OnlyRuns, asking};
ghost use Rattle.fabric.specs.Bringings.{IsThere, comes_by, coming_kept};
ghost use Rattle.fabric.specs.Lines.{event_of_mark};
ghost use Rattle.fabric.specs.Run.{IsStepOf};

use crate::bringing::{At, make_delivery, make_tick, pass_by};
use crate::fabric::Fabric;
use crate::line::Mark;
use crate::makings::make_quiet;
use crate::standing::wait_no_more;
use crate::stop::{StepStop, no_memory};
use journal::{By, Event, Head};
use linx_base::{LinkNo, NoMemory, Side, Verdict};
use node_kernel::StepAnswer;

/// What a verdict makes of a packet at the node across the link.
#[derive(Clone, Copy)]
pub(crate) enum Coming {
    /// It comes there, and is gone from the flight.
    Gone,
    /// It comes there, and stays in flight.
    Stays,
    /// It doesn't come there.
    Never,
}

/// What a verdict makes of a packet.
fn comes_by(verdict: Verdict) -> Coming
    ensures { result ≡ comes_by verdict }
{
    match verdict {
        Verdict::Deliver => Coming::Gone,
        Verdict::Repeat => Coming::Stays,
        Verdict::Lose | Verdict::Swap(_) => Coming::Never,
    }
}

impl Fabric {
    /// An actor cuts, mends or settles a link.
    pub(crate) fn mark(
        &mut self,
        actor: u32,
        mark: Mark,
        link: LinkNo,
    ) -> Result<StepAnswer, StepStop>
        requires asked { MayMake self.old (By.Actor actor) (asking (event_of_mark mark link) None) }
        ensures ok { IfOk result (HasMade self.old self.new actor
            (asking (event_of_mark mark link) None)) }
        ensures fixed { OnlyRuns self.old self.new }
        ensures err { IfErr result (LeavesAll self.old self.new None) }
    {
        let by = By::Actor(actor);
        match make_quiet(self.alloc, &mut self.journal, by, mark.head(link)) {
            Ok(()) => {
                self.lines[(link.0 - 1) as usize].mark(mark);
                self.standings[(actor - 1) as usize].wait(None);
                Ok(StepAnswer::Done)
            }
            Err(NoMemory) => Err(no_memory(None)),
        }
    }

    /// Where a side of a link is: its node and its session.
    fn at(&self, link: LinkNo, side: Side) -> At
        requires of_shape { IsLinkOf self.now.shape link }
        ensures { IsThere self.now link side result }
    {
        At {
            node: self.trunks.node_of(link, side),
            link,
            side,
            session: self.trunks.session(link, side),
        }
    }

    /// A packet in flight from a side meets a verdict. The step is answered that it is done.
    pub(crate) fn wire(
        &mut self,
        by: By,
        link: LinkNo,
        from: Side,
        verdict: Verdict,
    ) -> Result<(), NoMemory>
        requires asked { MayMake self.old by (asking (Event.Wire link from verdict) None) }
        ensures ok { OnOk result (IsStepOf self.old self.new by (heads.Wire link from verdict)
            StepAnswer.Done) }
        ensures fixed { OnlyRuns self.old self.new }
        ensures err { OnErr result (self.new ≡ self.old) }
    {
        match comes_by(verdict) {
            Coming::Gone => self.deliver(by, link, from, verdict, false),
            Coming::Stays => self.deliver(by, link, from, verdict, true),
            Coming::Never => self.pass(by, link, from, verdict),
        }
    }

    /// A packet comes to the node across the link, and stays in flight or is gone.
    fn deliver(
        &mut self,
        by: By,
        link: LinkNo,
        from: Side,
        verdict: Verdict,
        keep: bool,
    ) -> Result<(), NoMemory>
        requires asked { MayMake self.old by (asking (Event.Wire link from verdict) None) }
        requires comes { comes_by verdict ≡ coming_kept keep }
        ensures ok { OnOk result (IsStepOf self.old self.new by (heads.Wire link from verdict)
            StepAnswer.Done) }
        ensures fixed { OnlyRuns self.old self.new }
        ensures err { OnErr result (self.new ≡ self.old) }
    {
        let at = self.at(link, from.other());
        let made = make_delivery(
            self.alloc,
            &mut self.journal,
            &mut self.trunks,
            &mut self.kernels[at.node.0 as usize - 1],
            by,
            Head::Wire(link, from, verdict),
            at,
            keep,
        );
        match made {
            Ok(()) => {
                self.lines[(link.0 - 1) as usize].count(from);
                wait_no_more(&mut self.standings, by);
                Ok(())
            }
            Err(NoMemory) => Err(NoMemory),
        }
    }

    /// A packet is lost, or exchanged with another one.
    fn pass(&mut self, by: By, link: LinkNo, from: Side, verdict: Verdict) -> Result<(), NoMemory>
        requires asked { MayMake self.old by (asking (Event.Wire link from verdict) None) }
        requires passes { comes_by verdict ≡ Coming.Never }
        ensures ok { OnOk result (IsStepOf self.old self.new by (heads.Wire link from verdict)
            StepAnswer.Done) }
        ensures fixed { OnlyRuns self.old self.new }
        ensures err { OnErr result (self.new ≡ self.old) }
    {
        let head = Head::Wire(link, from, verdict);
        match make_quiet(self.alloc, &mut self.journal, by, head) {
            Ok(()) => {
                pass_by(&mut self.trunks, link, from, verdict);
                self.lines[(link.0 - 1) as usize].count(from);
                wait_no_more(&mut self.standings, by);
                Ok(())
            }
            Err(NoMemory) => Err(NoMemory),
        }
    }

    /// A side of a link is ticked. The step is answered that it is done.
    pub(crate) fn tick(&mut self, by: By, link: LinkNo, side: Side) -> Result<(), NoMemory>
        requires asked { MayMake self.old by (asking (Event.Tick link side) None) }
        ensures ok { OnOk result (IsStepOf self.old self.new by (heads.Tick link side)
            StepAnswer.Done) }
        ensures fixed { OnlyRuns self.old self.new }
        ensures err { OnErr result (self.new ≡ self.old) }
    {
        let at = self.at(link, side);
        let made = make_tick(
            self.alloc,
            &mut self.journal,
            &mut self.trunks,
            &mut self.kernels[at.node.0 as usize - 1],
            by,
            at,
        );
        match made {
            Ok(()) => {
                self.lines[(link.0 - 1) as usize].tick();
                wait_no_more(&mut self.standings, by);
                Ok(())
            }
            Err(NoMemory) => Err(NoMemory),
        }
    }
}
