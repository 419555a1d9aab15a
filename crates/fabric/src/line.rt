//! What a fabric notes of a link beside its trunk.
ghost use Rattle.std.specs.Prelude.{◌≡◌, ◌<◌, false};
ghost use Rattle.fabric.specs.Lines.{counted, fresh_line, head_of_mark, marked, ticked_more};

use journal::Head;
use linx_base::{LinkNo, Side};

/// What a fabric notes of a link: whether it is cut, whether its plans are ended, how many packets
/// from each side met their verdicts while it wasn't cut, and how many ticks the two sides made
/// together.
#[derive(Drop)]
pub(crate) struct Line {
    pub(crate) cut: bool,
    pub(crate) plans_ended: bool,
    pub(crate) from_first: u64,
    pub(crate) from_second: u64,
    pub(crate) ticks: u64,
}

/// What an actor does to a link as a whole.
#[derive(Clone, Copy)]
pub(crate) enum Mark {
    Cut,
    Mend,
    /// Ends the link's plans.
    Settle,
}

impl Mark {
    /// The head of its step.
    pub(crate) fn head(self, link: LinkNo) -> Head
        ensures { result ≡ head_of_mark self link }
    {
        match self {
            Mark::Cut => Head::Cut(link),
            Mark::Mend => Head::Mend(link),
            Mark::Settle => Head::Settle(link),
        }
    }
}

impl Line {
    /// A link before the first step.
    pub(crate) fn new() -> Line
        ensures { result ≡ fresh_line }
    {
        Line {
            cut: false,
            plans_ended: false,
            from_first: 0,
            from_second: 0,
            ticks: 0,
        }
    }

    /// An actor has marked the link.
    pub(crate) fn mark(&mut self, mark: Mark)
        ensures { self.new ≡ marked mark self.old }
    {
        match mark {
            Mark::Cut => self.cut = true,
            Mark::Mend => self.cut = false,
            Mark::Settle => self.plans_ended = true,
        }
    }

    /// One packet more from a side has met its verdict, which counts where the link isn't cut.
    pub(crate) fn count(&mut self, from: Side)
        requires first { self.old.from_first < 200000 }
        requires second { self.old.from_second < 200000 }
        ensures { self.new ≡ counted from self.old }
    {
        if self.cut {
            return;
        }
        match from {
            Side::First => self.from_first += 1,
            Side::Second => self.from_second += 1,
        }
    }

    /// One of the two sides was ticked once more.
    pub(crate) fn tick(&mut self)
        requires { self.old.ticks < 200000 }
        ensures { self.new ≡ ticked_more self.old }
    {
        self.ticks += 1;
    }
}
