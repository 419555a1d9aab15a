//! Rare things that a run may have: what one looks for in other orders.

ghost use Rattle.std.specs.Prelude.{◌≡◌, ◌||◌};
ghost use Rattle.std.specs.List.{list_any};
ghost use Rattle.run_outcomes.specs.Rare.{happens, has, is_in_effect, is_in_head, is_in_step};
ghost use Rattle.run_outcomes.specs.Rare.{rares_of, word_of};

use journal::{Effect, Head, Journal, SentTo, Step};
use linx_base::Reason;

fn either(one: bool, other: bool) -> bool
    ensures { result ≡ (one || other) }
{
    one || other
}

/// A rare thing.
#[derive(Clone, Copy, Debug, PartialEq, Eq, Hash)]
pub enum Rare {
    /// A step was refused.
    Refused,
    /// A receive found nothing, with all else at rest.
    FoundNone,
    /// A send or an attach found its peer dead.
    Dead,
    /// A peer closed that was attached to.
    Closed,
    /// A peer was lost with its link.
    Lost,
    /// A session of a link went down.
    Down,
}

fn is_in_head(rare: Rare, head: &Head) -> bool
    ensures { result ≡ is_in_head rare head.now }
{
    match (rare, head) {
        (Rare::Refused, Head::Refused(_)) => true,
        (Rare::FoundNone, Head::TakeNone(_)) => true,
        (Rare::Dead, Head::Send(_, _, SentTo::Dead)) => true,
        _ => false,
    }
}

fn is_in_effect(rare: Rare, effect: &Effect) -> bool
    ensures { result ≡ is_in_effect rare effect.now }
{
    match (rare, effect) {
        (Rare::Dead, Effect::Notified(_, _, _, _, Reason::Dead)) => true,
        (Rare::Closed, Effect::Notified(_, _, _, _, Reason::Closed)) => true,
        (Rare::Lost, Effect::Notified(_, _, _, _, Reason::Lost)) => true,
        (Rare::Down, Effect::Down(..)) => true,
        _ => false,
    }
}

fn is_in_effects(rare: Rare, effects: &[Effect]) -> bool
    ensures { result ≡ list_any (is_in_effect rare) effects.now }
{
    effects.iter().any(|effect| is_in_effect(rare, effect))
}

fn is_in_step(rare: Rare, step: &Step) -> bool
    ensures { result ≡ is_in_step rare step.now }
{
    either(
        is_in_head(rare, &step.head),
        is_in_effects(rare, step.effects.as_slice()),
    )
}

impl Rare {
    /// Its word.
    pub fn word(self) -> &'static str
        ensures { result.now ≡ word_of self }
    {
        match self {
            Rare::Refused => "refused",
            Rare::FoundNone => "none",
            Rare::Dead => "dead",
            Rare::Closed => "closed",
            Rare::Lost => "lost",
            Rare::Down => "down",
        }
    }

    /// Whether a run has it.
    pub(crate) fn happens(self, journal: &Journal) -> bool
        ensures { result ≡ happens self journal.now.log.steps }
    {
        let mut found = false;
        for done in 0..journal.len() {
            let step = journal.step_after(done);
            found = either(is_in_step(self, step), found);
        }
        found
    }
}

/// Which of the rare things a run has.
#[derive(Clone, Copy, Debug, PartialEq, Eq, Hash)]
pub struct Rares {
    pub refused: bool,
    pub found_none: bool,
    pub dead: bool,
    pub closed: bool,
    pub lost: bool,
    pub down: bool,
}

impl Rares {
    /// Those of a run.
    pub(crate) fn of(journal: &Journal) -> Rares
        ensures { result ≡ rares_of journal.now.log.steps }
    {
        Rares {
            refused: Rare::Refused.happens(journal),
            found_none: Rare::FoundNone.happens(journal),
            dead: Rare::Dead.happens(journal),
            closed: Rare::Closed.happens(journal),
            lost: Rare::Lost.happens(journal),
            down: Rare::Down.happens(journal),
        }
    }

    /// Whether this one is among them.
    pub fn have(&self, rare: Rare) -> bool
        ensures { result ≡ has self.now rare }
    {
        match rare {
            Rare::Refused => self.refused,
            Rare::FoundNone => self.found_none,
            Rare::Dead => self.dead,
            Rare::Closed => self.closed,
            Rare::Lost => self.lost,
            Rare::Down => self.down,
        }
    }
}
