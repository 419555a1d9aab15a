//! What is counted over the steps of a journal.
ghost use Rattle.std.specs.Prelude.{◌≡◌};
ghost use Rattle.std.specs.List.{count_by};
ghost use Rattle.report.specs.Summary.{is_of_kind, head_adds, step_adds, count_over, word_of};

use journal::{Effect, Head, Journal, Step};

/// A kind of effect.
#[derive(Clone, Copy)]
pub(crate) enum Happening {
    Opened,
    Arrived,
    Found,
    Notified,
}

/// What a line of the summary counts.
#[derive(Clone, Copy)]
pub(crate) enum Counted {
    /// The effects of a kind.
    Effects(Happening),
    /// The sends.
    Sent,
    /// The data bytes of the sends.
    Bytes,
    /// The receives that took an item.
    Taken,
    /// The receives that found none.
    FoundNone,
}

/// The word of a count.
pub(crate) fn word(counted: Counted) -> &'static str
    ensures { result.now ≡ word_of counted }
{
    match counted {
        Counted::Effects(Happening::Opened) => "endpoints",
        Counted::Effects(Happening::Arrived) => "arrived",
        Counted::Effects(Happening::Found) => "found",
        Counted::Effects(Happening::Notified) => "notified",
        Counted::Sent => "sent",
        Counted::Bytes => "bytes",
        Counted::Taken => "taken",
        Counted::FoundNone => "none",
    }
}

fn is_kind(kind: Happening, effect: &Effect) -> bool
    ensures { result ≡ is_of_kind kind effect.now }
{
    match (kind, effect) {
        (Happening::Opened, Effect::Opened(_)) => true,
        (Happening::Arrived, Effect::Arrived(_, _, _)) => true,
        (Happening::Found, Effect::Found(_, _, _, _)) => true,
        (Happening::Notified, Effect::Notified(_, _, _, _, _)) => true,
        _ => false,
    }
}

/// How many effects are of the kind.
fn count_effects(kind: Happening, effects: &[Effect]) -> u64
    ensures { result ≡ count_by (is_of_kind kind) effects.now }
{
    let mut count = 0;
    for effect in effects {
        if is_kind(kind, effect) {
            count += 1;
        }
    }
    count
}

/// What a head adds to a count.
fn head_adds(counted: Counted, head: &Head) -> u64
    ensures { result ≡ head_adds counted head.now }
{
    match (counted, head) {
        (Counted::Sent, Head::Send(_, _, _)) => 1,
        (Counted::Bytes, Head::Send(_, note, _)) => note.data().len() as u64,
        (Counted::Taken, Head::Take(_, _)) => 1,
        (Counted::FoundNone, Head::TakeNone(_)) => 1,
        _ => 0,
    }
}

/// What a step adds to a count.
fn step_adds(counted: Counted, step: &Step) -> u64
    ensures { result ≡ step_adds counted step.now }
{
    match counted {
        Counted::Effects(kind) => count_effects(kind, step.effects.as_slice()),
        _ => head_adds(counted, &step.head),
    }
}

/// A count over all steps. So many as a u128 counts don't fit in memory.
pub(crate) fn count(journal: &Journal, counted: Counted) -> u128
    ensures { result ≡ count_over counted journal.now.log.steps }
{
    let mut total = 0;
    for done in 0..journal.len() {
        total += u128::from(step_adds(counted, journal.step_after(done)));
    }
    total
}
