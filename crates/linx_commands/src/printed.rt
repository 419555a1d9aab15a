//! `order`: the order of a printed text.

ghost use Rattle.std.specs.Prelude.{◌≡◌, true, IfErr, IfOk};
ghost use Rattle.turn_lines.specs.Text.{order_text};
ghost use Rattle.turn_lines.specs.Turns.{turn_makers};
ghost use Rattle.linx_commands.specs.Causes.{is_of_writing};
ghost use Rattle.linx_commands.specs.Printed.{IsOrderEnd, IsTextDone, IsTextOf, IsUnreadText};
ghost use Rattle.linx_commands.specs.Streams.{Writes};
ghost use Rattle.linx_commands.specs.Works.{Ends};

use crate::outcome::{Outcome, Status, TextFault};
use crate::serving::{unstarted, write_text};
use journal::Journal;
use journal_read::Unread;
use linx_base::NoMemory;
use linx_outside::Sink;
use std::alloc::Global;
use text_alone::read_alone;
use turn_lines::order_lines;

/// The most bytes that a printed text may have.
pub(crate) const TEXT_MOST: usize = 268_435_456;

/// The journal that a printed text spells, with the names that it spells.
fn read_text(alloc: Global, bytes: &[u8]) -> Result<Journal, Status>
    ensures spelled { IfOk result (λ journal. IsTextOf bytes.now journal.log) }
    ensures unread { IfErr result (λ status. IsUnreadText bytes.now status) }
{
    if bytes.len() > TEXT_MOST {
        return Err(Status::Text(TextFault::Long));
    }
    match read_alone(alloc, bytes) {
        Ok(journal) => Ok(journal),
        Err(Unread::Bad { line }) => Err(Status::Text(TextFault::Bad { line })),
        Err(Unread::Full { line }) => Err(Status::Text(TextFault::Full { line })),
        Err(Unread::NoMemory) => Err(Status::NoMemory),
    }
}

/// The lines `order` that list the turns of a journal go to the sink.
fn write_order<K: Sink>(alloc: Global, journal: &Journal, out: &mut K) -> Status
    ensures kinds { is_of_writing result ≡ true }
    ensures sink { Writes K.held K.faults K.last_count K.can_take out.old out.new
        result (order_text (turn_makers journal.now.log.steps)) }
{
    match order_lines(alloc, journal) {
        Ok(text) => write_text(text.as_slice(), out),
        Err(NoMemory) => Status::NoMemory,
    }
}

/// The order of a printed text goes to the sink.
pub(crate) fn order<K: Sink>(alloc: Global, bytes: &[u8], out: &mut K) -> Outcome
    ensures { Ends (IsTextDone (IsOrderEnd bytes.now))
        (λ written. Writes K.held K.faults K.last_count K.can_take out.old out.new
        result.status written)
        result.status result.journal.log }
{
    match read_text(alloc, bytes) {
        Ok(journal) => unstarted(alloc, write_order(alloc, &journal, out)),
        Err(status) => unstarted(alloc, status),
    }
}
