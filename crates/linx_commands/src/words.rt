//! The words of the command line that are given.

ghost use Rattle.std.specs.Prelude.{◌≡◌, IfErr, IfOk, IsUtf8, string_bytes};
ghost use Rattle.linx_commands.specs.Programs.{status_of_unread};
ghost use Rattle.linx_commands.specs.declared.words.Unread.TheVariants.{NotWords, NoMemory};

use crate::outcome::Status;
use command_words::Misuse;
use std::alloc::Global;
use std::env::{Env, FillError};
use std::str;

/// The most bytes of a word: those of a path.
const WORD_MOST: usize = 4096;

/// Why the words of a command line can't be had.
#[derive(Clone, Copy, Debug, PartialEq, Eq, Hash)]
pub enum Unread {
    /// One of them isn't UTF-8, or has more than 4,096 bytes.
    NotWords,
    /// Memory was refused.
    NoMemory,
}

impl Unread {
    /// How the program ends without words: as one that was given none, or `NoMemory`.
    pub(crate) fn status(self) -> Status
        ensures { result ≡ status_of_unread self }
    {
        match self {
            Unread::NotWords => Status::Usage(Misuse::Wordless),
            Unread::NoMemory => Status::NoMemory,
        }
    }
}

/// The words of a command line behind the program's name.
#[derive(Drop)]
pub enum Words {
    /// These.
    Read(Vec<String>),
    /// They can't be had.
    Unread(Unread),
}

impl Words {
    /// The words that this process was given. The program's name isn't looked at.
    pub fn of<E: Env>(env: &E, alloc: Global) -> Words {
        match words_behind_name(env, alloc) {
            Ok(words) => Words::Read(words),
            Err(why) => Words::Unread(why),
        }
    }
}

fn words_behind_name<E: Env>(env: &E, alloc: Global) -> Result<Vec<String>, Unread> {
    let mut words = Vec::new(alloc);
    for place in 1..usize::MAX {
        match word_at(env, alloc, place)? {
            Some(word) => keep(&mut words, word)?,
            None => break,
        }
    }
    Ok(words)
}

fn keep(words: &mut Vec<String>, word: String) -> Result<(), Unread>
    ensures { IfErr result (λ why. why ≡ NoMemory) }
{
    match words.push(word) {
        Ok(()) => Ok(()),
        Err(_) => Err(Unread::NoMemory),
    }
}

/// The word at a place of the command line; none behind the last.
fn word_at<E: Env>(env: &E, alloc: Global, place: usize) -> Result<Option<String>, Unread> {
    let mut buffer = [0; WORD_MOST];
    match env.arg(place, &mut buffer) {
        Ok(len) => Ok(Some(word_of(alloc, &buffer[..len])?)),
        Err(FillError::NotPresent) => Ok(None),
        Err(FillError::TooLong) => Err(Unread::NotWords),
    }
}

/// The word that these bytes spell; `NotWords` only where they aren't UTF-8.
fn word_of(alloc: Global, bytes: &[u8]) -> Result<String, Unread>
    ensures word { IfOk result (λ word. string_bytes word ≡ bytes.now) }
    ensures not_words { IfErr result (λ why. why ≡ NotWords → ¬ (IsUtf8 bytes.now)) }
{
    let Ok(text) = str::from_utf8(bytes) else {
        return Err(Unread::NotWords);
    };
    match String::from_str(alloc, text) {
        Ok(word) => Ok(word),
        Err(_) => Err(Unread::NoMemory),
    }
}
