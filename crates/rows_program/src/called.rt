//! The command line of a row.

use anyhow::Result;
use case_rows::{Given, words_of};
use linx_commands::{Unread, Words};
use std::alloc::Global;
use std::env::{Env, FillError};

/// A command line in memory: the program's name, and the words behind it.
#[derive(Drop)]
struct Called<'a> {
    name: &'a [u8],
    words: &'a [Vec<u8>],
}

impl Called<'_> {
    /// The word at a place; the name's is 0.
    fn word(&self, place: usize) -> Option<&[u8]> {
        match place.checked_sub(1) {
            None => Some(self.name),
            Some(behind) => Some(self.words.get(behind)?.as_slice()),
        }
    }
}

impl Env for Called<'_> {
    fn arg(&self, i: usize, buf: &mut [u8]) -> Result<usize, FillError> {
        match self.word(i) {
            None => Err(FillError::NotPresent),
            Some(word) if word.len() > buf.len() => Err(FillError::TooLong),
            Some(word) => {
                buf[..word.len()].copy_from_slice(word);
                Ok(word.len())
            }
        }
    }

    fn var(&self, _name: &str, _buf: &mut [u8]) -> Result<usize, FillError> {
        Err(FillError::NotPresent)
    }

    fn var_at(&self, _i: usize, _buf: &mut [u8]) -> Result<usize, FillError> {
        Err(FillError::NotPresent)
    }
}

/// The words that a line of a row gives the program.
pub(crate) fn words_given(alloc: Global, given: &Given, line: &str) -> Result<Words> {
    if given.unread {
        return Ok(Words::Unread(Unread::NoMemory));
    }
    let names = words_of(alloc, given.called.as_str())?;
    let words = words_of(alloc, line)?;
    let called = Called {
        name: match names.first() {
            Some(name) => name.as_slice(),
            None => b"linx_sim",
        },
        words: &words,
    };
    Ok(Words::of(&called, alloc))
}
