ghost use Rattle.std.specs.Prelude.{◌≡◌, ◌+◌, ◌<◌, ◌↔◌};
ghost use Rattle.linx_base.specs.Both.{still};
ghost use Rattle.ethcm_session.specs.Loss.{lost_at};

use std::marker::Model;

/// The tick at which a link is lost, counted from the start and from each packet heard.
const LOST_AT: u32 = 3;

/// What a tick finds.
#[derive(Clone, Copy, Debug, PartialEq, Eq, Hash)]
pub enum Alive {
    Yes,
    Lost,
}

/// The watch of one link end, with a way back. Contracts see the number of ticks since its start,
/// since the peer was heard, or since it reported a loss, whichever came last: as it was when an
/// event began, and as it is now.
#[derive(Drop)]
pub struct Watch {
    ticks: u32,
    old_ticks: u32,
}

impl Model for Watch {
    ghost use Rattle.std.specs.Prelude.{ℕ, ◌<◌};
    ghost use Rattle.linx_base.specs.Both.{Both};
    ghost use Rattle.ethcm_session.specs.Loss.{lost_at};

    ghost Value = { Both ℕ };

    ghost view = { λ w. record { was = w.old_ticks; is = w.ticks } };

    ghost invariant = { λ w. (w.ticks < lost_at) × (w.old_ticks < lost_at) };
}

impl Watch {
    /// A watch that begins.
    pub fn new() -> Watch
        ensures { result ≡ still 0 }
    {
        Watch {
            ticks: 0,
            old_ticks: 0,
        }
    }

    /// The peer was heard, or a session begins: the watch begins anew.
    pub fn heard(&mut self)
        ensures is { self.new.is ≡ 0 }
        ensures was { self.new.was ≡ self.old.was }
    {
        self.ticks = 0;
    }

    /// One tick more: `Lost` exactly at the third. After that the watch begins anew.
    pub fn tick(&mut self) -> Alive
        ensures lost { (result ≡ Alive.Lost) ↔ (self.old.is + 1 ≡ lost_at) }
        ensures alive { (result ≡ Alive.Yes) ↔ (self.old.is + 1 < lost_at) }
        ensures counted { result ≡ Alive.Yes → self.new.is ≡ self.old.is + 1 }
        ensures anew { result ≡ Alive.Lost → self.new.is ≡ 0 }
        ensures was { self.new.was ≡ self.old.was }
    {
        if self.ticks + 1 < LOST_AT {
            self.ticks += 1;
            return Alive::Yes;
        }
        self.heard();
        Alive::Lost
    }

    /// The ticks since the watch last began, below three.
    pub fn ticks(&self) -> u32
        ensures ticks { result ≡ self.now.is }
        ensures bounded { self.now.is < lost_at }
    {
        self.ticks
    }

    /// What is now stays.
    pub fn keep(&mut self)
        ensures { self.new ≡ still self.old.is }
    {
        self.old_ticks = self.ticks;
    }

    /// What was is again.
    pub fn undo(&mut self)
        ensures { self.new ≡ still self.old.was }
    {
        self.ticks = self.old_ticks;
    }
}
