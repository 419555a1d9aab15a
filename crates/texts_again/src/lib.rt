//! That a run comes again by its printed text: what is read of the text tells the turns of the run,
//! so that the lines `order` of these, behind the script, make the run again as those of its journal
//! do. These functions do nothing; their contracts are the laws, which stand on those of
//! `runs_again` and `journal_read`.
#![tactic(auto)]

ghost use Rattle.texts_again.specs.Laws.{TextsMakeRunsAgain, TextsTellTurns};

use journal_read::printed_is_read;
use runs_again::runs_come_again;

/// What is read of the text of a run tells the turns of the run.
pub fn texts_tell_turns()
    ensures { TextsTellTurns }
{
    printed_is_read();
}

/// So the lines of what is read of the text of a whole run make it again.
pub fn texts_make_runs_again()
    ensures { TextsMakeRunsAgain }
{
    runs_come_again();
    texts_tell_turns();
}
