//! Bytes as they are spelled in a file of rows.
ghost use Rattle.std.specs.Prelude.{◌<◌, IfOk};

use anyhow::{Context, Result, ensure};
use std::alloc::Global;

/// A number of decimal digits.
pub(crate) fn number(word: &str) -> Result<u64> {
    word.parse().ok().context("a number is no number")
}

/// A number of things in memory.
pub(crate) fn size(word: &str) -> Result<usize> {
    word.parse().ok().context("a size is no size")
}

/// The value of a hexadecimal digit.
fn digit(byte: u8) -> Result<u8>
    ensures { IfOk result (λ value. value < 16) }
{
    match byte {
        b'0'..=b'9' => Ok(byte - b'0'),
        b'a'..=b'f' => Ok(byte - b'a' + 10),
        _ => anyhow::bail!("a byte is no two hexadecimal digits"),
    }
}

/// The byte behind `\`, and what stands behind it: `x0a` and more.
fn push_byte(bytes: &mut Vec<u8>, spelled: &str) -> Result<()> {
    let Some([b'x', high, low, behind @ ..]) = Some(spelled.as_bytes()) else {
        anyhow::bail!("`\\` stands before no byte");
    };
    bytes.push(digit(*high)? * 16 + digit(*low)?)?;
    bytes.extend_from_slice(behind)?;
    Ok(())
}

/// Text with bytes as `\x0a`.
fn push_text(bytes: &mut Vec<u8>, spelled: &str) -> Result<()> {
    for (place, piece) in spelled.split('\\').enumerate() {
        if place == 0 {
            bytes.extend_from_slice(piece.as_bytes())?;
        } else {
            push_byte(bytes, piece)?;
        }
    }
    Ok(())
}

/// Text so many times: `3|ab`.
fn push_again(bytes: &mut Vec<u8>, spelled: &str) -> Result<()> {
    let (times, text) = spelled.split_once('|').context("`{` has no `|`")?;
    for _ in 0..number(times)? {
        push_text(bytes, text)?;
    }
    Ok(())
}

/// What stands behind `{`.
fn push_piece(bytes: &mut Vec<u8>, spelled: &str) -> Result<()> {
    let (again, behind) = spelled.split_once('}').context("`{` has no `}`")?;
    push_again(bytes, again)?;
    push_text(bytes, behind)
}

/// Puts what a spelling stands for behind bytes.
pub(crate) fn push_spelled(bytes: &mut Vec<u8>, spelled: &str) -> Result<()> {
    for (place, piece) in spelled.split('{').enumerate() {
        if place == 0 {
            push_text(bytes, piece)?;
        } else {
            push_piece(bytes, piece)?;
        }
    }
    Ok(())
}

/// The word that is spelled so.
fn word_of(alloc: Global, spelled: &str) -> Result<Vec<u8>> {
    let mut word = Vec::new(alloc);
    if spelled != "\"\"" {
        push_spelled(&mut word, spelled)?;
    }
    Ok(word)
}

/// The words of a line.
pub fn words_of(alloc: Global, line: &str) -> Result<Vec<Vec<u8>>> {
    let mut words = Vec::new(alloc);
    for spelled in line.split_whitespace() {
        words.push(word_of(alloc, spelled)?)?;
    }
    ensure!(words.len() <= 64, "a command line has more than 64 words");
    Ok(words)
}
