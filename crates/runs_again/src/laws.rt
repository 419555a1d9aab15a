//! What follows from the definitions of runs in an order and of the lines `order` alone. These
//! functions do nothing; their contracts are the laws.

ghost use Rattle.runs_again.specs.Laws.{RunsComeAgain, TurnsAreOne, TurnsAreSpelled};

use orders::order_decides;

/// The turns that an order lists of a journal, and those that lines are written of, are one list.
pub fn turns_are_one()
    ensures { TurnsAreOne }
{}

/// A script with the lines of a run of it behind is this script, with the turns of the run first.
pub fn turns_are_spelled()
    ensures { TurnsAreSpelled }
{}

/// And so each whole run comes again by that text: in the order that it spells, with rounds behind
/// it, there is a whole run, each has the journal of the first, and none is stopped by a full
/// journal.
pub fn runs_come_again()
    ensures { RunsComeAgain }
{
    order_decides();
}
