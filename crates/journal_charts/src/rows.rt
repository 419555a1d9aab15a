//! The lines of a text that the rows of its chart are of.
ghost use Rattle.std.specs.Prelude.{◌≡◌, map, IfOk};
ghost use Rattle.journal_charts.specs.Rows.{is_heading, row_words, no_rows, rows_with, rows_in};

use linx_base::{Blob, NoMemory, Sequence};
use std::alloc::Global;
use text_words::{behind, cut, split_at_byte, take_last};

/// The words of the rows so far, once a line has announced the steps.
#[derive(Drop)]
pub(crate) struct Rows {
    pub(crate) begun: bool,
    pub(crate) words: Sequence<Blob>,
}

/// Whether a line announces the steps.
fn is_heading(line: &[u8]) -> bool
    ensures { result ≡ is_heading line.now }
{
    match behind(line, b"journal ") {
        Some(_) => true,
        None => false,
    }
}

/// What of a line stands beside its row: of a step all behind its position.
fn row_words(line: &[u8]) -> &[u8]
    ensures { result.now ≡ row_words line.now }
{
    if let [b'+', ..] = line {
        return line;
    }
    match cut(line, b' ') {
        Some((_, words)) => words,
        None => line,
    }
}

impl Rows {
    ghost use Rattle.std.specs.Prelude.{◌≡◌, OnOk};
    ghost use Rattle.journal_charts.specs.Rows.{no_rows, rows_and};

    fn new(alloc: Global) -> Rows
        ensures { result ≡ no_rows }
    {
        Rows {
            begun: false,
            words: Sequence::new(alloc),
        }
    }

    /// Takes in the next line.
    fn add_line(&mut self, alloc: Global, line: &[u8]) -> Result<(), NoMemory>
        ensures { OnOk result (self.new ≡ rows_and self.old line.now) }
    {
        if !self.begun {
            self.begun = is_heading(line);
            return Ok(());
        }
        self.words.push(Blob::of(alloc, row_words(line))?)?;
        Ok(())
    }
}

/// The rows of lines.
fn rows_with(alloc: Global, lines: &[&[u8]]) -> Result<Rows, NoMemory>
    ensures { IfOk result (λ rows. rows ≡ rows_with no_rows (map (λ l. l.now) lines.now)) }
{
    let mut rows = Rows::new(alloc);
    for line in lines {
        rows.add_line(alloc, line)?;
    }
    Ok(rows)
}

/// The words of the rows of a text.
pub fn rows_in(alloc: Global, text: &[u8]) -> Result<Sequence<Blob>, NoMemory>
    ensures { IfOk result (λ rows. rows ≡ rows_in text.now) }
{
    let mut lines = split_at_byte(alloc, text, b'\n')?;
    let _rest = take_last(&mut lines);
    let rows = rows_with(alloc, &lines)?;
    Ok(rows.words)
}
