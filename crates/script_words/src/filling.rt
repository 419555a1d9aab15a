ghost use Rattle.std.specs.Prelude.{◌≡◌, ◌==◌, true, length, map, option_map, IfOk};
ghost use Rattle.hex.specs.Hex.{decode_of, decode_sized};
ghost use Rattle.script_words.specs.Gives.{Gives};
ghost use Rattle.script_words.specs.Words.{cut_at};
ghost use Rattle.script_words.specs.Filling.{data_of, fits_data, after, some_bytes, one_byte};
ghost use Rattle.script_words.specs.Filling.{repeated_of, filling_of, data_in};

use crate::line_error::{LineError, bad_shape};
use crate::numbers::number_in;
use crate::words::cut;
use hex::FromHexError;
use linx_base::{Blob, NoMemory, TryCopy};
use std::alloc::Global;

/// The data of a signal, which contracts see by `data_of`.
#[derive(Drop)]
pub enum Filling {
    Bytes(Blob),
    /// So many bytes of one value.
    Repeat { count: u32, byte: u8 },
}

/// What follows this text at the word's front.
fn behind<'a>(word: &'a [u8], text: &[u8]) -> Option<&'a [u8]>
    ensures { option_map (λ x. x.now) result ≡ after text.now word.now }
{
    word.strip_prefix(text)
}

/// At least one byte in hexadecimal digits, which stand in the word.
fn hex_bytes(alloc: Global, word: &[u8], digits: &[u8]) -> Result<Filling, LineError>
    ensures { Gives (λ f. f) result (some_bytes word.now (decode_of digits.now)) }
{
    match hex::decode(alloc, digits) {
        Ok(bytes) => {
            if bytes.is_empty() {
                return Err(bad_shape(word));
            }
            Ok(Filling::Bytes(Blob::shared(bytes)?))
        }
        Err(FromHexError::OutOfMemory) => Err(LineError::NoMemory),
        Err(_) => Err(bad_shape(word)),
    }
}

/// One byte in hexadecimal digits, which stand in the word.
fn hex_byte(word: &[u8], digits: &[u8]) -> Result<u8, LineError>
    ensures { Gives (λ b. b) result (one_byte word.now (decode_sized digits.now 1)) }
{
    let mut byte = [0u8; 1];
    match hex::decode_to_slice(digits, &mut byte) {
        Ok(()) => Ok(byte[0]),
        Err(_) => Err(bad_shape(word)),
    }
}

/// `N:HH`, so many bytes of one value, which stands in the word.
fn repeated(word: &[u8], part: &[u8]) -> Result<Filling, LineError>
    ensures { Gives (λ f. f) result (repeated_of word.now (cut_at 58 part.now)) }
{
    match cut(part, b':') {
        None => Err(bad_shape(word)),
        Some((count, byte)) => {
            let count = number_in(word, count, 0, u32::MAX)?;
            let byte = hex_byte(word, byte)?;
            Ok(Filling::Repeat { count, byte })
        }
    }
}

/// The data that a word spells.
#[tactic(auto, unfolding(crate::specs::Filling::filling_of))]
fn spelled(alloc: Global, word: &[u8]) -> Result<Filling, LineError>
    ensures { Gives (λ f. f) result (filling_of word.now) }
{
    match behind(word, b"hex:") {
        Some(digits) => hex_bytes(alloc, word, digits),
        None => match behind(word, b"fill:") {
            Some(rest) => repeated(word, rest),
            None => Err(bad_shape(word)),
        },
    }
}

impl Filling {
    /// No data. It takes no memory.
    pub const EMPTY: Filling = Filling::Repeat { count: 0, byte: 0 };

    /// The number of data bytes.
    pub fn len(&self) -> usize
        ensures { result ≡ length (data_of self.now) }
    {
        match self {
            Filling::Bytes(bytes) => bytes.len(),
            Filling::Repeat { count, .. } => *count as usize,
        }
    }

    /// Whether there are no data.
    pub fn is_empty(&self) -> bool
        ensures { result ≡ (length (data_of self.now) == 0) }
    {
        self.len() == 0
    }

    /// The data that the words spell, none where there are no words.
    pub(crate) fn of(alloc: Global, most: usize, words: &[&[u8]]) -> Result<Filling, LineError>
        ensures gives { Gives (λ f. f) result (data_in most (map (λ w. w.now) words.now)) }
        ensures fits { IfOk result (λ f. fits_data most f ≡ true) }
    {
        match words {
            [] => Ok(Filling::EMPTY),
            [_word, more, ..] => Err(bad_shape(more)),
            [word] => {
                let bytes = spelled(alloc, word)?;
                if bytes.len() > most {
                    return Err(bad_shape(word));
                }
                Ok(bytes)
            }
        }
    }
}

impl TryCopy for Filling {
    fn copy(&self) -> Result<Filling, NoMemory> {
        match self {
            Filling::Bytes(bytes) => Ok(Filling::Bytes(bytes.copy()?)),
            Filling::Repeat { count, byte } => Ok(Filling::Repeat {
                count: *count,
                byte: *byte,
            }),
        }
    }
}
