//! What a text is whose logs are found.
ghost use Rattle.log_laws.specs.Laws.{LogsAreFound, TextIsPrintedAgain};

/// The logs of a run's text are those of what is read of it.
pub fn logs_are_found()
    ensures { LogsAreFound }
{}

/// A text whose logs are found is what was read of it, printed again.
pub fn text_is_printed_again()
    ensures { TextIsPrintedAgain }
{}
