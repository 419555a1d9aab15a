//! Bytes, numbers, hexadecimal and digests, each written through one call of what makes them. What
//! is written goes to the end of a buffer; after a refusal the buffer holds some front of it, which
//! the callers throw away.
ghost use Rattle.std.specs.Prelude.{◌≡◌, ◌<◌, ◌≤◌, [], ◌∷◌, ◌++◌, length, decimal, OnOk};
ghost use Rattle.hex.specs.Hex.{encode_lower};
ghost use Rattle.sha2.specs.Sha256.{sha256};
ghost use Rattle.journal_text.specs.Values.{first_bytes, digest_text};

use linx_base::{Blob, NoMemory};
use sha2::{Digest, Sha256};

/// The most data bytes that are spelled one by one, and the bytes of a digest.
pub(crate) const SPELLED_MOST: usize = 32;

/// The most digits of a number.
const DIGITS_MOST: usize = 20;

/// The digits of so many bytes.
const SPELLED_DIGITS: usize = 64;

/// Appends a literal: a look at the room, and a store for each byte.
#[inline(always)]
pub(crate) fn write_word<const N: usize>(out: &mut Vec<u8>, word: &[u8; N]) -> Result<(), NoMemory>
    ensures { OnOk result (out.new.items ≡ out.old.items ++ word.now) }
{
    out.reserve(N)?;
    for byte in word {
        out.push_reserved(*byte);
    }
    Ok(())
}

/// Appends any bytes.
pub(crate) fn write_bytes(out: &mut Vec<u8>, text: &[u8]) -> Result<(), NoMemory>
    ensures { OnOk result (out.new.items ≡ out.old.items ++ text.now) }
{
    out.extend_from_slice(text)?;
    Ok(())
}

/// One byte.
#[inline(always)]
pub(crate) fn write_byte(out: &mut Vec<u8>, byte: u8) -> Result<(), NoMemory>
    ensures { OnOk result (out.new.items ≡ out.old.items ++ byte ∷ []) }
{
    out.push(byte)?;
    Ok(())
}

/// A number of one digit.
#[tactic(auto, using(std::proofs::lemmas::Fmt::decimal_digit))]
fn write_digit(out: &mut Vec<u8>, digit: u8) -> Result<(), NoMemory>
    requires { digit < 10 }
    ensures { OnOk result (out.new.items ≡ out.old.items ++ decimal digit) }
{
    out.push(b'0' + digit)?;
    Ok(())
}

fn write_digits(out: &mut Vec<u8>, number: u64) -> Result<(), NoMemory>
    ensures { OnOk result (out.new.items ≡ out.old.items ++ decimal number) }
{
    let mut digits = [0u8; DIGITS_MOST];
    let start = itoa::write_digits(number, &mut digits, DIGITS_MOST);
    write_bytes(out, &digits[start..])
}

/// A number in decimal digits.
#[inline(always)]
pub(crate) fn write_number(out: &mut Vec<u8>, number: u64) -> Result<(), NoMemory>
    ensures { OnOk result (out.new.items ≡ out.old.items ++ decimal number) }
{
    if number < 10 {
        write_digit(out, number as u8)
    } else {
        write_digits(out, number)
    }
}

/// Two digits a byte.
pub(crate) fn write_hexadecimal(out: &mut Vec<u8>, bytes: &[u8]) -> Result<(), NoMemory>
    requires { length bytes.now ≤ 32 }
    ensures { OnOk result (out.new.items ≡ out.old.items ++ encode_lower bytes.now) }
{
    let mut text = [0u8; SPELLED_DIGITS];
    let digits = &mut text[..2 * bytes.len()];
    match hex::encode_to_slice(bytes, digits) {
        Ok(()) => write_bytes(out, digits),
        Err(_) => unreachable!(),
    }
}

fn digest_of(bytes: &[u8]) -> [u8; 32]
    ensures { result ≡ sha256 bytes.now }
{
    Sha256::digest(bytes)
}

/// The first 32 of more bytes.
fn first_bytes_of(bytes: &[u8]) -> &[u8]
    requires { 32 < length bytes.now }
    ensures bytes { result.now ≡ first_bytes bytes.now }
    ensures length { length result.now ≤ 32 }
{
    let first = &bytes[..SPELLED_MOST];
    first
}

/// The number of bytes, and their first ones in the place of a digest.
#[tactic(auto, unfolding(crate::specs::Values::digest_text))]
pub(crate) fn write_first_bytes(out: &mut Vec<u8>, bytes: &[u8]) -> Result<(), NoMemory>
    requires { 32 < length bytes.now }
    ensures { OnOk result (out.new.items ≡ out.old.items ++ digest_text first_bytes bytes.now) }
{
    write_number(out, bytes.len() as u64)?;
    write_byte(out, b':')?;
    write_hexadecimal(out, first_bytes_of(bytes))
}

/// The number of bytes, and their digest.
#[tactic(auto, unfolding(crate::specs::Values::digest_text))]
pub(crate) fn write_digest(out: &mut Vec<u8>, bytes: &Blob) -> Result<(), NoMemory>
    ensures { OnOk result (out.new.items ≡ out.old.items ++ digest_text sha256 bytes.now) }
{
    write_number(out, bytes.len() as u64)?;
    write_byte(out, b':')?;
    let digest = digest_of(bytes.bytes());
    write_hexadecimal(out, &digest)
}
