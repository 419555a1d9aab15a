//! What is read, and what it is read from.
ghost use Rattle.journal_read.specs.Agreement.{ReadingsAgree};
ghost use Rattle.journal_read.specs.Printed.{PrintedIsRead};
ghost use Rattle.journal_read.specs.Spelled.{StepsAreRead, TextsAreRead};

/// Steps are read from the lines that spell them, and from no others.
pub fn steps_are_read()
    ensures { StepsAreRead }
{}

/// And from the texts that spell them, and from no others.
pub fn texts_are_read()
    ensures { TextsAreRead }
{}

/// What is read of the text of a run, legal or not, are its steps, with what stands for long data
/// in their place.
pub fn printed_is_read()
    ensures { PrintedIsRead }
{}

/// A text that is read with the names of its script and with those that it spells is read as the
/// same steps but for numbers.
pub fn readings_agree()
    ensures { ReadingsAgree }
{}
