//! The rows of a map: how many steps a row is, and which.
ghost use Rattle.std.specs.Prelude.{◌≡◌, ◌≤◌, ◌+◌, length};
ghost use Rattle.chart_map.specs.Grid.{rows_of, grid_of, row_begins};

use journal::Journal;

/// The most rows of a map.
const ROWS_MOST: u64 = 240;

/// How many steps a row is, and how many rows there are.
#[derive(Clone, Copy)]
pub(crate) struct Grid {
    pub(crate) steps: u64,
    pub(crate) in_row: u64,
    pub(crate) rows: u32,
}

/// How many rows so many steps have.
#[tactic(auto, using(crate::proofs::Next::quotient_small))]
fn rows_of(steps: u64, in_row: u64) -> u32
    requires { 1 ≤ in_row }
    ensures rows { result ≡ rows_of steps in_row }
    ensures few { result ≤ 240 }
{
    if steps == 0 {
        return 0;
    }
    ((steps - 1) / in_row + 1).min(ROWS_MOST) as u32
}

/// The rows of a journal.
#[tactic(auto, using(crate::proofs::Next::quotient_small))]
pub(crate) fn grid_of(journal: &Journal) -> Grid
    ensures grid { result ≡ grid_of journal.now.log.steps }
    ensures few { result.rows ≤ 240 }
    ensures some { 1 ≤ result.in_row }
{
    let steps = journal.len();
    let in_row = steps.saturating_sub(1) / ROWS_MOST + 1;
    Grid {
        steps,
        in_row,
        rows: rows_of(steps, in_row),
    }
}

impl Grid {
    ghost use Rattle.std.specs.Prelude.{◌≡◌, ◌≤◌};
    ghost use Rattle.chart_map.specs.Grid.{row_begins, row_ends, first_position, row_of};

    /// How many steps stand before a row.
    pub(crate) fn begins(self, row: u32) -> u64
        ensures begins { result ≡ row_begins self row }
        ensures within { result ≤ self.steps }
    {
        self.in_row.saturating_mul(u64::from(row)).min(self.steps)
    }

    /// How many steps stand before the next row.
    pub(crate) fn ends(self, row: u32) -> u64
        ensures ends { result ≡ row_ends self row }
        ensures within { result ≤ self.steps }
        ensures order { row_begins self row ≤ result }
    {
        self.begins(row).saturating_add(self.in_row).min(self.steps)
    }

    /// The position of the first step of a row.
    pub(crate) fn first_position(self, row: u32) -> u64
        ensures { result ≡ first_position self row }
    {
        self.begins(row).saturating_add(1).min(self.steps)
    }

    /// The row of the step at a position.
    pub(crate) fn row_of(self, position: u64) -> u32
        requires { 1 ≤ self.in_row }
        ensures row { result ≡ row_of self position }
        ensures few { result ≤ 239 }
    {
        (position.saturating_sub(1) / self.in_row).min(239) as u32
    }
}
