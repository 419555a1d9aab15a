//! A file of rows, line by line.

use crate::block::{Block, push_line};
use crate::facts::Fact;
use crate::row::{Row, Wanted};
use anyhow::{Context, Result, bail};
use std::alloc::Global;

impl Wanted {
    /// A line of the last part.
    fn push_of_part(&mut self, line: &str) -> Result<()> {
        match self.facts.last_mut() {
            Some(Fact::Part { lines, .. }) => push_line(lines, line),
            _ => bail!("no part was begun"),
        }
    }
}

impl Row {
    /// A line of a block.
    fn push(&mut self, block: Block, line: &str) -> Result<()> {
        match block {
            Block::Nothing => bail!("a line of no block"),
            Block::Input => push_line(&mut self.given.input, line),
            Block::File => push_line(&mut self.given.content, line),
            Block::Text => push_line(&mut self.wanted.text, line),
            Block::Part => self.wanted.push_of_part(line),
            Block::Kept => push_line(&mut self.wanted.kept, line),
        }
    }
}

/// A line behind the first one of a row: which block is open behind it.
fn further(row: &mut Row, block: Block, line: &str) -> Result<Block> {
    match line.strip_prefix("  ") {
        Some(set_in) => {
            row.push(block, set_in)?;
            Ok(block)
        }
        None => {
            let (what, said) = line.split_once(' ').unwrap_or((line, ""));
            row.say(what, said)
        }
    }
}

/// A line of a file of rows: which block is open behind it.
fn read_line(alloc: Global, rows: &mut Vec<Row>, block: Block, line: &str) -> Result<Block> {
    if line.is_empty() || line.starts_with('#') {
        return Ok(Block::Nothing);
    }
    if let Some(name) = line.strip_prefix("row ") {
        rows.push(Row::named(alloc, name)?)?;
        return Ok(Block::Nothing);
    }
    let row = rows.last_mut().context("no row was begun")?;
    further(row, block, line)
}

/// The rows of a file.
pub fn rows_of(alloc: Global, text: &str) -> Result<Vec<Row>> {
    let mut rows = Vec::new(alloc);
    let mut block = Block::Nothing;
    for (place, line) in text.lines().enumerate() {
        match read_line(alloc, &mut rows, block, line) {
            Ok(next) => block = next,
            Err(fault) => bail!("line {}: {fault}", place.saturating_add(1)),
        }
    }
    Ok(rows)
}
