//! What is other than a row says.

use anyhow::Result;
use case_rows::{Text, Wanted, lacks};
use std::alloc::Global;
use std::str;

/// The first line of a text that isn't the one that is wanted.
fn first_other(alloc: Global, text: &[u8], wanted: &[u8]) -> Result<String> {
    let (Ok(text), Ok(wanted)) = (str::from_utf8(text), str::from_utf8(wanted)) else {
        return Ok(String::from_str(alloc, "the text is other bytes")?);
    };
    let mut lines = wanted.lines();
    for (place, line) in text.lines().enumerate() {
        if lines.next() != Some(line) {
            return Ok(format!(in alloc; "the text has another line {place}: {line}")?);
        }
    }
    Ok(String::from_str(alloc, "the text ends elsewhere")?)
}

/// What of a text is other than wanted, where it was cut behind so many bytes.
pub(crate) fn of_text(
    alloc: Global,
    wanted: &Wanted,
    cut: usize,
    text: &[u8],
) -> Result<Option<String>> {
    let whole = wanted.text.as_slice();
    let front = whole.get(..cut).unwrap_or(whole);
    let is_told = match wanted.looked_at {
        Text::Whole => text == front,
        Text::Front => text.starts_with(front),
        Text::Facts => return lacks(alloc, &wanted.facts, text),
    };
    if is_told {
        return Ok(None);
    }
    Ok(Some(first_other(alloc, text, front)?))
}

/// What of a line is.
pub(crate) fn of_line(alloc: Global, wanted: &Wanted, line: &[u8]) -> Result<Option<String>> {
    let told = wanted.line.as_slice();
    if line == told || (wanted.is_line_front && line.starts_with(told)) {
        return Ok(None);
    }
    match str::from_utf8(line) {
        Ok(line) => Ok(Some(format!(in alloc; "another line: {line}")?)),
        Err(_) => Ok(Some(String::from_str(alloc, "another line")?)),
    }
}

/// What of a file is that can be made.
pub(crate) fn of_kept(
    alloc: Global,
    wanted: &Wanted,
    held: Option<&[u8]>,
) -> Result<Option<String>> {
    let is_told = match held {
        Some(held) => wanted.is_made && held == wanted.kept.as_slice(),
        None => !wanted.is_made,
    };
    if is_told {
        return Ok(None);
    }
    Ok(Some(String::from_str(alloc, "another file was made")?))
}
