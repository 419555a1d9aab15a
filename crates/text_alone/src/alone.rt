//! A printed text, read by itself.
ghost use Rattle.std.specs.Prelude.{◌≡◌, IfOk};
ghost use Rattle.text_names.specs.Numbering.{names_in};
ghost use Rattle.journal_read.specs.Bounds.{full_in};
ghost use Rattle.journal_read.specs.Reading.{read_in};
ghost use Rattle.journal_read.specs.Results.{Reads, IsWithin};

use journal::Journal;
use journal_read::{Unread, read};
use std::alloc::Global;
use text_names::names_of;

/// The journal that a printed text spells by itself, without a script: with the names that it
/// spells. Where it spells none, `Bad` has its first bad line, from 1.
pub fn read_alone(alloc: Global, text: &[u8]) -> Result<Journal, Unread>
    ensures steps { Reads (λ journal. journal.log.steps) result
        (read_in (names_in text.now) text.now) }
    ensures full { IsWithin result (full_in (names_in text.now) text.now) }
    ensures names { IfOk result (λ journal. journal.log.names ≡ names_in text.now) }
{
    match names_of(alloc, text) {
        Ok(names) => read(alloc, names, text),
        Err(_) => Err(Unread::NoMemory),
    }
}
