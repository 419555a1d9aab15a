//! What of a chart is seen: all of it, some of its steps, or what is of some makers; and which of it
//! has a row of its own.
ghost use Rattle.std.specs.Prelude.{◌≡◌, IfOk};
ghost use Rattle.chart.specs.Carried.{same_maker};
ghost use Rattle.chart_drawing.specs.Views.{whole, steps_seen, is_in, is_above, on_life, comes_to};
ghost use Rattle.chart_drawing.specs.Views.{is_of_maker, is_of_makers, is_asked_for, is_seen};
ghost use Rattle.chart_drawing.specs.Views.{is_part, reaches, ties_in};

use chart::{Column, Mark, Tie};
use journal::By;
use linx_base::{ItemAt, NoMemory, Sequence};
use std::alloc::Global;

/// The steps from one position to another.
#[derive(Clone, Copy)]
pub struct Steps {
    pub first: u64,
    pub last: u64,
}

/// What of a chart is seen: whether without the lines of the journal, whether a run of steps of links
/// without effects is one row, which steps, where they aren't all, and whose, where they aren't
/// everyone's: those of these makers, and what came to their endpoints or was sent to them.
pub struct View {
    pub plain: bool,
    pub fold: bool,
    pub steps: Option<Steps>,
    pub of: Option<Sequence<By>>,
}

// By hand, so that a crate above that lets a view go makes one call, and doesn't prove how all that is
// in it goes.
impl Drop for View {
    fn drop(self) {
        let View {
            plain: _,
            fold: _,
            steps: _,
            of: _,
        } = self;
    }
}

impl View {
    /// All of a chart.
    pub fn whole() -> View
        ensures { result ≡ whole }
    {
        View {
            plain: false,
            fold: false,
            steps: None,
            of: None,
        }
    }
}

/// The steps that are seen.
pub(crate) fn steps_seen(steps: Option<Steps>) -> Steps
    ensures { result ≡ steps_seen steps }
{
    match steps {
        Some(steps) => steps,
        None => Steps {
            first: 0,
            last: u64::MAX,
        },
    }
}

/// Whether a line is of one of these steps.
fn is_in(steps: Steps, line: ItemAt) -> bool
    ensures { result ≡ is_in steps line }
{
    steps.first <= line.step && line.step <= steps.last
}

/// Whether a line stands above them.
pub(crate) fn is_above(steps: Steps, line: ItemAt) -> bool
    ensures { result ≡ is_above steps line }
{
    line.step < steps.first
}

/// Whether a column is the line of an actor.
pub(crate) fn on_life(actor: u32, column: Column) -> bool
    ensures { result ≡ on_life actor column }
{
    match column {
        Column::Life(number) => number == actor,
        _ => false,
    }
}

fn same_maker(one: By, other: By) -> bool
    ensures { result ≡ same_maker one other }
{
    match (one, other) {
        (By::Actor(a), By::Actor(b)) => a == b,
        (By::Pump(l), By::Pump(m)) => l.0 == m.0,
        _ => false,
    }
}

/// Whether a mark stands on the line of a maker, or is of a send to an endpoint of its.
fn comes_to(maker: By, mark: &Mark) -> bool
    ensures { result ≡ comes_to maker mark.now }
{
    match maker {
        By::Actor(actor) => on_life(actor, mark.column) || on_life(actor, mark.to),
        By::Pump(_) => false,
    }
}

fn is_of_maker(maker: By, mark: &Mark) -> bool
    ensures { result ≡ is_of_maker maker mark.now }
{
    same_maker(mark.by, maker) || comes_to(maker, mark)
}

/// Whether a mark is of one of these makers.
pub(crate) fn is_of_makers(makers: &[By], mark: &Mark) -> bool
    ensures { result ≡ is_of_makers makers.now mark.now }
{
    makers.iter().any(|maker| is_of_maker(*maker, mark))
}

/// Whether a mark is of those that are asked for, if any are.
fn is_asked_for(view: &View, mark: &Mark) -> bool
    ensures { result ≡ is_asked_for view.now.of mark.now }
{
    match &view.of {
        Some(makers) => is_of_makers(makers.as_slice(), mark),
        None => true,
    }
}

/// Whether a mark is seen.
pub(crate) fn is_seen(view: &View, mark: &Mark) -> bool
    ensures { result ≡ is_seen view.now mark.now }
{
    is_in(steps_seen(view.steps), mark.line) && is_asked_for(view, mark)
}

/// Whether steps or makers are left out.
pub(crate) fn is_part(view: &View) -> bool
    ensures { result ≡ is_part view.now }
{
    view.steps.is_some() || view.of.is_some()
}

/// Whether a tie reaches into a window.
fn reaches(steps: Steps, tie: &Tie) -> bool
    ensures { result ≡ reaches steps tie.now }
{
    tie.from.step <= steps.last && steps.first <= tie.to.step
}

/// The ties that reach into a window.
pub(crate) fn ties_in(alloc: Global, steps: Steps, ties: &[Tie]) -> Result<Vec<Tie>, NoMemory>
    ensures { IfOk result (λ kept. kept.items ≡ ties_in steps ties.now) }
{
    let mut kept = Vec::from_slice(alloc, ties)?;
    kept.retain(|t| reaches(steps, t));
    Ok(kept)
}
