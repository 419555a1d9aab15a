//! What follows from the definition of a text's run alone. These functions do nothing; their
//! contracts are the laws, which stand on those of orders and of the reader.

ghost use Rattle.text_replay.specs.Laws.{FilledAreNone, OthersAreNone};

use journal_read::printed_is_read;
use orders::order_decides;

/// A text with another line than the run that its makers make is that of no whole run.
pub fn others_are_none()
    ensures { OthersAreNone }
{
    printed_is_read();
    order_decides();
}

/// And so is one whose makers fill the journal before all is over.
pub fn filled_are_none()
    ensures { FilledAreNone }
{
    printed_is_read();
    order_decides();
}
