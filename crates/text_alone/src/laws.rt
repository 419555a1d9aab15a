//! What is read of the text of a run.
ghost use Rattle.text_alone.specs.Laws.{RunsAreReadAlone};

use journal_read::{printed_is_read, texts_are_read};

/// The text of a run, legal or not, is read by itself, as the steps that are read of it with the
/// names of its script, but for numbers.
pub fn runs_are_read_alone()
    ensures { RunsAreReadAlone }
{
    printed_is_read();
    texts_are_read();
}
