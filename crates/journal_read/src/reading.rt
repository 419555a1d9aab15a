//! A printed text, read line by line.
ghost use Rattle.std.specs.Prelude.{◌≡◌, List, map, IfOk};
ghost use Rattle.journal.specs.declared.effect.Step.{Step};
ghost use Rattle.reading_laws.specs.Forms.{AreNames};
ghost use Rattle.journal_read.specs.Bounds.{full_lines, full_in};
ghost use Rattle.journal_read.specs.Reading.{unread, read_lines, read_in};
ghost use Rattle.journal_read.specs.Results.{Reads, IsWithin, IsNotBad};
ghost use Rattle.journal_read.specs.Spelled.{SpellsText};

use crate::pending::Pending;
use crate::unread::Unread;
use journal::Journal;
use linx_base::Names;
use std::alloc::Global;
use std::marker::Model;
use text_words::{ReadError, behind, split_at_byte, take_last, u64_of};

/// How far a text was read: how many steps it announces, once it has, and the steps so far.
#[derive(Drop)]
struct Reading {
    announced: Option<u64>,
    pending: Pending,
}

impl Model for Reading {
    ghost use Rattle.journal_read.specs.Reading.{SoFar};

    ghost Value = { SoFar };

    ghost view = { λ r. record {
      names = r.pending.names;
      announced = r.announced;
      steps = r.pending.steps;
    } };
}

impl Reading {
    ghost use Rattle.std.specs.Prelude.{◌≡◌, IfOk, Some, None, Ok};
    ghost use Rattle.text_words.specs.Gives.{Gives};
    ghost use Rattle.text_words.specs.Words.{after};
    ghost use Rattle.journal_read.specs.Bounds.{is_over_full};
    ghost use Rattle.journal_read.specs.Reading.{unread, heading, take_front, take_bytes};
    ghost use Rattle.journal_read.specs.Reading.{take_line, is_whole};
    ghost use Rattle.journal_read.specs.Results.{Reads, IsWithin};

    fn new(alloc: Global, names: Names) -> Reading
        ensures { result ≡ unread names }
    {
        Reading {
            announced: None,
            pending: Pending::new(alloc, names),
        }
    }

    /// Takes the line that announces so many steps as these digits spell.
    fn announce(&mut self, digits: &[u8]) -> Result<(), ReadError>
        ensures taken { Gives (λ _. self.new) result (take_front self.old (Some digits.now)) }
        ensures names { self.new.names ≡ self.old.names }
    {
        let count = u64_of(digits)?;
        if count == 0 {
            return Err(ReadError::Bad);
        }
        self.announced = Some(count);
        Ok(())
    }

    /// Takes a line before the steps: the one that announces them, or one of a log.
    fn take_front(&mut self, bytes: &[u8]) -> Result<(), ReadError>
        ensures taken { Gives (λ _. self.new) result
            (take_front self.old (after heading bytes.now)) }
        ensures names { self.new.names ≡ self.old.names }
    {
        match behind(bytes, b"journal ") {
            None => Ok(()),
            Some(digits) => self.announce(digits),
        }
    }

    /// Takes a line of a step, where so many steps are announced.
    fn take_steps(&mut self, count: u64, bytes: &[u8]) -> Result<(), ReadError>
        ensures taken { Gives (λ _. self.new) result
            (take_bytes self.old count bytes.now) }
        ensures names { self.new.names ≡ self.old.names }
    {
        self.pending.put_bytes(bytes)?;
        if self.pending.has_at_most(count) {
            Ok(())
        } else {
            Err(ReadError::Bad)
        }
    }

    /// Takes a line behind those that were read.
    #[tactic(auto, unfolding(crate::specs::Reading::take_line))]
    fn take_line(&mut self, bytes: &[u8]) -> Result<(), ReadError>
        ensures taken { Gives (λ _. self.new) result (take_line self.old bytes.now) }
        ensures names { self.new.names ≡ self.old.names }
    {
        match self.announced {
            None => self.take_front(bytes),
            Some(count) => self.take_steps(count, bytes),
        }
    }

    /// Whether the text may end before the line of this number.
    fn is_whole(&self, line: u64) -> bool
        ensures { result ≡ is_whole self.now.announced self.now.steps line }
    {
        match self.announced {
            None => line == 1,
            Some(count) => self.pending.has(count),
        }
    }

    /// Whether the steps so far note more than they may.
    fn is_over_full(&self) -> bool
        ensures { result ≡ is_over_full self.now.steps }
    {
        self.pending.is_over_full()
    }

    /// The journal of the steps. It is refused only for want of memory.
    fn into_journal(self) -> Result<Journal, Unread>
        ensures steps { Reads (λ journal. journal.log.steps) result (Ok self.steps) }
        ensures full { IsWithin result None }
        ensures names { IfOk result (λ journal. journal.log.names ≡ self.names) }
    {
        match self.pending.into_journal() {
            Ok(journal) => Ok(journal),
            Err(_) => Err(Unread::NoMemory),
        }
    }
}

/// Takes the lines of a text, and what stands behind the last one.
#[tactic(auto, unfolding(crate::specs::Reading::ended))]
fn take_lines(reading: &mut Reading, lines: &[&[u8]], rest: &[u8]) -> Result<(), Unread>
    ensures steps { Reads (λ _. reading.new.steps) result
        (read_lines reading.old 1 (map (λ l. l.now) lines.now) rest.now) }
    ensures full { IsWithin result (full_lines reading.old 1 (map (λ l. l.now) lines.now)) }
    ensures names { reading.new.names ≡ reading.old.names }
{
    let mut number: u64 = 1;
    for bytes in lines {
        match reading.take_line(bytes) {
            Ok(()) if reading.is_over_full() => return Err(Unread::Full { line: number }),
            Ok(()) => number += 1,
            Err(ReadError::Bad) => return Err(Unread::Bad { line: number }),
            Err(ReadError::NoMemory) => return Err(Unread::NoMemory),
        }
    }
    match rest {
        [] if reading.is_whole(number) => Ok(()),
        _ => Err(Unread::Bad { line: number }),
    }
}

/// The journal of a text with these lines, and with what stands behind the last one.
fn read_lines(alloc: Global, names: Names, lines: &[&[u8]], rest: &[u8]) -> Result<Journal, Unread>
    ensures steps { Reads (λ journal. journal.log.steps) result
        (read_lines (unread names) 1 (map (λ l. l.now) lines.now) rest.now) }
    ensures full { IsWithin result (full_lines (unread names) 1 (map (λ l. l.now) lines.now)) }
    ensures names { IfOk result (λ journal. journal.log.names ≡ names) }
{
    let mut reading = Reading::new(alloc, names);
    match take_lines(&mut reading, lines, rest) {
        Ok(()) => reading.into_journal(),
        Err(unread) => {
            drop(reading);
            Err(unread)
        }
    }
}

/// The journal of a text.
fn read_text(alloc: Global, names: Names, text: &[u8]) -> Result<Journal, Unread>
    ensures steps { Reads (λ journal. journal.log.steps) result (read_in names text.now) }
    ensures full { IsWithin result (full_in names text.now) }
    ensures names { IfOk result (λ journal. journal.log.names ≡ names) }
{
    let mut lines = split_at_byte(alloc, text, b'\n')?;
    let rest = take_last(&mut lines);
    read_lines(alloc, names, lines.as_slice(), rest)
}

/// The journal that a printed text spells: with these names, and with the steps that the text has
/// behind its line `journal N`. Its logs aren't looked at. Long data are read as what stands for
/// them, and equal ones are kept once. Where the text spells none, `Bad` has its first bad line,
/// from 1; and where its signals are more than those of four full journals, `Full` has the line that
/// is one too many.
pub fn read(alloc: Global, names: Names, text: &[u8]) -> Result<Journal, Unread>
    ensures steps { Reads (λ journal. journal.log.steps) result (read_in names text.now) }
    ensures full { IsWithin result (full_in names text.now) }
    ensures spelled { IfOk result (λ journal. SpellsText names journal.log.steps text.now) }
    ensures none_bad { AreNames names
        → (P : List Step) → SpellsText names P text.now → IsNotBad result }
    ensures names { IfOk result (λ journal. journal.log.names ≡ names) }
{
    read_text(alloc, names, text)
}
