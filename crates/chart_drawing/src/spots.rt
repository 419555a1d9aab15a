//! Spots, found by their lines.
ghost use Rattle.std.specs.Prelude.{◌≡◌, true};
ghost use Rattle.std.specs.Option.{option_copied};
ghost use Rattle.linx_base.specs.Peers.{same_position};
ghost use Rattle.chart_drawing.specs.Spots.{spot_at, IsInOrder};

use crate::spot::Spot;
use linx_base::ItemAt;
use std::marker::Model;

/// Whether both are the same line.
fn same_line(one: ItemAt, other: ItemAt) -> bool
    ensures { result ≡ same_position one other }
{
    one.step == other.step && one.place == other.place
}

/// The spot of a line.
fn spot_among(spots: &[Spot], line: ItemAt) -> Option<&Spot>
    ensures { option_copied result ≡ spot_at spots.now line }
{
    spots.iter().find(|spot| same_line(spot.mark.line, line))
}

/// Whether the steps of all lines come in order.
fn are_in_order(spots: &[Spot]) -> bool
    ensures { result ≡ true → IsInOrder spots.now }
{
    for place in 1..spots.len() {
        if spots[place].mark.line.step < spots[place - 1].mark.line.step {
            return false;
        }
    }
    true
}

/// What stands from the step of a line on.
fn from_step(spots: &[Spot], line: ItemAt) -> &[Spot]
    requires { IsInOrder spots.now }
    ensures same { spot_at result.now line ≡ spot_at spots.now line }
    ensures order { IsInOrder result.now }
{
    let first = spots.partition_point(|s| s.mark.line.step < line.step);
    &spots[first..]
}

/// What stands up to the step of a line.
fn to_step(spots: &[Spot], line: ItemAt) -> &[Spot]
    requires { IsInOrder spots.now }
    ensures { spot_at result.now line ≡ spot_at spots.now line }
{
    let end = spots.partition_point(|s| s.mark.line.step <= line.step);
    &spots[..end]
}

/// The spot of a line among those of its step.
fn spot_in_step(spots: &[Spot], line: ItemAt) -> Option<&Spot>
    requires { IsInOrder spots.now }
    ensures { option_copied result ≡ spot_at spots.now line }
{
    spot_among(to_step(from_step(spots, line), line), line)
}

/// Spots. Where the steps of their lines come in order, one is found by its line without a look at all.
/// Contracts see the list of the spots.
#[derive(Drop)]
pub(crate) struct Spots {
    all: Vec<Spot>,
    in_order: bool,
}

impl Model for Spots {
    ghost use Rattle.std.specs.Prelude.{◌≡◌, true, List};
    ghost use Rattle.chart_drawing.specs.declared.spot.Spot.{Spot};
    ghost use Rattle.chart_drawing.specs.Spots.{IsInOrder};

    ghost Value = { List Spot };

    ghost view = { λ s. s.all.items };

    ghost invariant = { λ s. s.in_order ≡ true → IsInOrder s.all.items };
}

impl Spots {
    ghost use Rattle.std.specs.Prelude.{◌≡◌};
    ghost use Rattle.std.specs.Option.{option_copied};
    ghost use Rattle.chart_drawing.specs.Spots.{spot_at};

    /// These spots.
    pub(crate) fn of(all: Vec<Spot>) -> Spots
        ensures { result ≡ all.items }
    {
        let in_order = are_in_order(&all);
        Spots { all, in_order }
    }

    /// All of them.
    pub(crate) fn as_slice(&self) -> &[Spot]
        ensures { result.now ≡ self.now }
    {
        self.all.as_slice()
    }

    /// The spot of a line.
    pub(crate) fn at(&self, line: ItemAt) -> Option<&Spot>
        ensures { option_copied result ≡ spot_at self.now line }
    {
        if self.in_order {
            spot_in_step(&self.all, line)
        } else {
            spot_among(&self.all, line)
        }
    }
}
