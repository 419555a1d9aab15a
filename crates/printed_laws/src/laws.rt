//! Which texts pass as that of a legal run. These functions do nothing; their contracts are the
//! laws.
ghost use Rattle.printed_laws.specs.Laws.{LegalRunsPass, PassingAreRuns, PrintedStaysLegal};
ghost use Rattle.printed_laws.specs.Laws.{StandInsTellNothing};

use image_laws::accepted_are_noticed;
use journal_read::{printed_is_read, texts_are_read};

/// A legal journal is still legal when it has been printed and read, with what its attaches tell of
/// their notifications.
pub fn printed_stays_legal()
    ensures { PrintedStaysLegal }
{}

/// What stands in for long data is nobody's notification: it ends with no byte of a reason. So a
/// notification that stays a stand-in, since its attach doesn't tell it, is illegal.
pub fn stand_ins_tell_nothing()
    ensures { StandInsTellNothing }
{}

/// So the text of a legal run passes: it is read as steps, and these are legal with what their
/// attaches tell.
pub fn legal_runs_pass()
    ensures { LegalRunsPass }
{
    printed_is_read();
    printed_stays_legal();
}

/// And a text that passes is that of a legal run, as far as it tells.
pub fn passing_are_runs()
    ensures { PassingAreRuns }
{
    texts_are_read();
    accepted_are_noticed();
}
