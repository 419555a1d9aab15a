//! The lines of a block.

use crate::spelling::{number, push_spelled};
use anyhow::{Context, Result};

/// Which block the lines are of that are set in.
#[derive(Clone, Copy, PartialEq, Eq)]
pub(crate) enum Block {
    Nothing,
    Input,
    File,
    Text,
    Part,
    Kept,
}

/// One line of a block, with its line feed unless `\` ends it.
fn push_one(bytes: &mut Vec<u8>, line: &str) -> Result<()> {
    match line.strip_suffix('\\') {
        Some(front) => push_spelled(bytes, front),
        None => {
            push_spelled(bytes, line)?;
            bytes.push(b'\n')?;
            Ok(())
        }
    }
}

/// A line of a block, or so many times one.
pub(crate) fn push_line(bytes: &mut Vec<u8>, line: &str) -> Result<()> {
    let Some(again) = line.strip_prefix("* ") else {
        return push_one(bytes, line);
    };
    let (times, one) = again.split_once(' ').context("`*` has no line")?;
    for _ in 0..number(times)? {
        push_one(bytes, one)?;
    }
    Ok(())
}
