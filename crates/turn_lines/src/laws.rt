//! What follows from the spelling alone. This function does nothing; its contract is the law.

ghost use Rattle.turn_lines.specs.Reading.{TurnsReadBack};

/// The lines that list the turns of a journal are read as these turns, also behind the text of a
/// script.
pub fn turns_read_back()
    ensures { TurnsReadBack }
{}
