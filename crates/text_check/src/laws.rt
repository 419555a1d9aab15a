//! What follows from the definition of a legal text alone. These functions do nothing; their
//! contracts are the laws.

ghost use Rattle.text_check.specs.Laws.{LegalTextsArePrinted, TextsOfLegalRunsPass};

use journal_read::printed_is_read;
use log_laws::{logs_are_found, text_is_printed_again};
use printed_laws::{passing_are_runs, printed_stays_legal};

/// The text of a legal run of a script, by this program or another, is a legal text.
pub fn texts_of_legal_runs_pass()
    ensures { TextsOfLegalRunsPass }
{
    printed_is_read();
    printed_stays_legal();
    logs_are_found();
}

/// And a legal text is that of a legal run, as far as a text tells, printed byte for byte.
pub fn legal_texts_are_printed()
    ensures { LegalTextsArePrinted }
{
    passing_are_runs();
    text_is_printed_again();
}
