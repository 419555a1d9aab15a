//! Words as the data of a signal.
ghost use Rattle.std.specs.Prelude.{◌≡◌, ◌<◌, ◌≤◌, length, IfOk, Some, None, Ok};
ghost use Rattle.std.specs.Str.{bytes_eq};
ghost use Rattle.hex.specs.Hex.{encode_lower, decode_of};
ghost use Rattle.linx_base.specs.Content.{data_limit};
ghost use Rattle.text_words.specs.Gives.{Gives};
ghost use Rattle.journal_words.specs.Data.{stand_in, if_spelled, hexadecimal_in, data_by, data_in};
ghost use Rattle.journal_words.specs.Data.{note_in};

use hex::FromHexError;
use linx_base::{Blob, NoMemory, SigNote, Signal};
use std::alloc::Global;
use text_words::{ReadError, cut, is_text, number, u32_of};

/// The bytes of a digest, and the most data bytes that are spelled one by one.
const DIGEST_SIZE: usize = 32;

/// The most digits of bytes.
const SPELLED_DIGITS: usize = 64;

/// The most data bytes of a signal.
const DATA_MOST: u64 = 65_532;

/// The byte that fills up what stands for data. No reason has it.
const FILLER: u8 = 255;

/// Whether the word is the hexadecimal of these bytes in lower case.
fn is_hexadecimal_of(word: &[u8], bytes: &[u8]) -> bool
    requires { length bytes.now ≤ 32 }
    ensures { result ≡ bytes_eq (encode_lower bytes.now) word.now }
{
    let mut text = [0u8; SPELLED_DIGITS];
    let digits = &mut text[..2 * bytes.len()];
    match hex::encode_to_slice(bytes, digits) {
        Ok(()) => &*digits == word,
        Err(_) => unreachable!(),
    }
}

/// The bytes of a word, where their hexadecimal in lower case is the word.
fn if_spelled(word: &[u8], bytes: Vec<u8>) -> Result<Vec<u8>, ReadError>
    requires short { length word.now ≤ 64 }
    requires decoded { decode_of word.now ≡ Ok bytes.items }
    ensures gives { Gives (λ v. v.items) result (if_spelled word.now (Ok bytes.items)) }
    ensures short { IfOk result (λ v. length v.items ≤ 32) }
{
    if is_hexadecimal_of(word, bytes.as_slice()) {
        Ok(bytes)
    } else {
        Err(ReadError::Bad)
    }
}

/// The bytes, at most as many as a digest has, whose hexadecimal in lower case the word is.
#[tactic(auto, unfolding(crate::specs::Data::hexadecimal_in))]
fn hexadecimal(alloc: Global, word: &[u8]) -> Result<Vec<u8>, ReadError>
    ensures gives { Gives (λ v. v.items) result (hexadecimal_in word.now) }
    ensures short { IfOk result (λ v. length v.items ≤ 32) }
{
    if word.len() > SPELLED_DIGITS {
        return Err(ReadError::Bad);
    }
    match hex::decode(alloc, word) {
        Ok(bytes) => if_spelled(word, bytes),
        Err(FromHexError::OutOfMemory) => Err(ReadError::NoMemory),
        Err(_) => Err(ReadError::Bad),
    }
}

/// What stands for data of this size with this digest.
fn stand_in(alloc: Global, digest: &[u8], size: usize) -> Result<Blob, NoMemory>
    requires { length digest.now ≤ size }
    ensures made { IfOk result (λ made. made ≡ stand_in digest.now size) }
    ensures size { IfOk result (λ made. length made ≡ size) }
{
    let mut filled = Vec::with_capacity(alloc, size)?;
    filled.extend_from_slice(digest)?;
    filled.resize(size, FILLER)?;
    Blob::shared(filled)
}

/// The data for which a size and a digest stand.
fn digested(alloc: Global, size: &[u8], digest: &[u8]) -> Result<Blob, ReadError>
    ensures gives { Gives (λ b. b) result (data_by digest.now (Some (size.now, digest.now))) }
    ensures bounded { IfOk result (λ b. length b ≤ data_limit) }
{
    let size = number(size, DATA_MOST)? as usize;
    let digest = hexadecimal(alloc, digest)?;
    if size <= DIGEST_SIZE || digest.len() != DIGEST_SIZE {
        return Err(ReadError::Bad);
    }
    Ok(stand_in(alloc, digest.as_slice(), size)?)
}

/// The data that are spelled one by one.
fn spelled(alloc: Global, word: &[u8]) -> Result<Blob, ReadError>
    ensures gives { Gives (λ b. b) result (data_by word.now None) }
    ensures bounded { IfOk result (λ b. length b ≤ data_limit) }
{
    let bytes = hexadecimal(alloc, word)?;
    if bytes.is_empty() {
        return Err(ReadError::Bad);
    }
    Ok(Blob::shared(bytes)?)
}

/// The data that a word spells.
#[tactic(auto, unfolding(crate::specs::Data::data_in))]
fn data(alloc: Global, word: &[u8]) -> Result<Blob, ReadError>
    ensures gives { Gives (λ b. b) result (data_in word.now) }
    ensures bounded { IfOk result (λ b. length b ≤ data_limit) }
{
    if is_text(word, b"-") {
        return Ok(Blob::shared(Vec::new(alloc))?);
    }
    match cut(word, b':') {
        Some((size, digest)) => digested(alloc, size, digest),
        None => spelled(alloc, word),
    }
}

/// The signal of a number and data.
#[tactic(auto, unfolding(crate::specs::Data::note_in))]
pub(crate) fn note(alloc: Global, number: &[u8], word: &[u8]) -> Result<SigNote, ReadError>
    ensures { Gives (λ n. n) result (note_in number.now word.now) }
{
    let number = u32_of(number)?;
    let bytes = data(alloc, word)?;
    Ok(Signal::of(number, bytes).note()?)
}
