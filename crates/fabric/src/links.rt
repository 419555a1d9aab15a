//! What a fabric says of its links.

ghost use Rattle.std.specs.Prelude.{◌≡◌, ◌||◌, ◌+◌, true, false, length};
ghost use Rattle.carrier.specs.Events.{flight_from};
ghost use Rattle.journal.specs.declared.head.Head.TheVariants as heads;
ghost use Rattle.link_laws.specs.Ends.{IsLinkOf};
ghost use Rattle.link_laws.specs.Sessions.{is_cut};
ghost use Rattle.run_trunks.specs.States.{trunks_of};
ghost use Rattle.fabric.specs.Links.{flies_from, are_plans_ended, no_link_stirs, is_up_at};
ghost use Rattle.fabric.specs.Links.{line_left, stirs, tick_steps, wire_steps};

use crate::fabric::Fabric;
use crate::line::Line;
use linx_base::{LinkNo, Side};

impl Fabric {
    /// The number of links.
    fn link_count(&self) -> u32
        ensures count { result ≡ length self.now.shape.links }
    {
        self.lines.len() as u32
    }

    /// Whether no link stirs.
    pub(crate) fn no_link_stirs(&self) -> bool
        ensures { result ≡ no_link_stirs self.now.shape self.now.log.steps
            (trunks_of self.now.trunks) }
    {
        for place in 0..self.link_count() {
            if self.stirs(LinkNo(place + 1)) {
                return false;
            }
        }
        true
    }

    /// What is noted of a link.
    fn line(&self, link: LinkNo) -> &Line
        requires of_shape { IsLinkOf self.now.shape link }
        ensures { result.now ≡ line_left self.now.log.steps link.0 }
    {
        &self.lines[(link.0 - 1) as usize]
    }

    /// Whether a link stirs: where it is cut, while a packet is in flight or a side is up; else
    /// while a packet is in flight or an end of it has work.
    pub fn stirs(&self, link: LinkNo) -> bool
        requires of_shape { IsLinkOf self.now.shape link }
        ensures { result ≡ stirs self.now.log.steps (trunks_of self.now.trunks) link.0 }
    {
        if self.is_cut(link) {
            return self.flies(link, Side::First)
                || self.flies(link, Side::Second)
                || self.is_up(link, Side::First)
                || self.is_up(link, Side::Second);
        }
        !self.trunks.is_quiet(link)
    }

    /// Whether a packet from a side is in flight.
    fn flies(&self, link: LinkNo, from: Side) -> bool
        requires of_shape { IsLinkOf self.now.shape link }
        ensures { result ≡ flies_from from (trunks_of self.now.trunks link.0) }
    {
        self.in_flight(link, from) > 0
    }

    /// Whether a link is cut.
    pub fn is_cut(&self, link: LinkNo) -> bool
        requires of_shape { IsLinkOf self.now.shape link }
        ensures { result ≡ is_cut self.now.log.steps link.0 }
    {
        self.line(link).cut
    }

    /// Whether a link's plans are ended.
    pub fn are_plans_ended(&self, link: LinkNo) -> bool
        requires of_shape { IsLinkOf self.now.shape link }
        ensures { result ≡ are_plans_ended self.now.log.steps link.0 }
    {
        self.line(link).plans_ended
    }

    /// Whether a side of a link is up.
    pub fn is_up(&self, link: LinkNo, side: Side) -> bool
        requires of_shape { IsLinkOf self.now.shape link }
        ensures { result ≡ is_up_at side (trunks_of self.now.trunks link.0) }
    {
        self.trunks.is_up(link, side)
    }

    /// How many packets from a side are in flight.
    pub fn in_flight(&self, link: LinkNo, from: Side) -> usize
        requires of_shape { IsLinkOf self.now.shape link }
        ensures { result ≡ length (flight_from from (trunks_of self.now.trunks link.0).link) }
    {
        self.trunks.in_flight(link, from)
    }

    /// How many packets from a side met their verdicts while the link wasn't cut.
    pub fn wire_steps(&self, link: LinkNo, from: Side) -> u64
        requires of_shape { IsLinkOf self.now.shape link }
        ensures { result ≡ wire_steps self.now.log.steps link.0 from }
    {
        let line = self.line(link);
        match from {
            Side::First => line.from_first,
            Side::Second => line.from_second,
        }
    }

    /// How many ticks the two sides of a link made together.
    pub fn tick_steps(&self, link: LinkNo) -> u64
        requires of_shape { IsLinkOf self.now.shape link }
        ensures { result ≡ tick_steps self.now.log.steps link.0 }
    {
        self.line(link).ticks
    }
}
