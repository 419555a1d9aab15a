//! Words, numbers and signals as they are spelled, each at the end of a buffer. After a refusal the
//! buffer holds some front of it, which the callers throw away.

ghost use Rattle.std.specs.Prelude.{◌≡◌, ◌≤◌, ◌++◌, length, decimal, OnOk};
ghost use Rattle.hex.specs.Hex.{encode_lower};
ghost use Rattle.sha2.specs.Sha256.{sha256};
ghost use Rattle.journal_text.specs.Values.{data_text, detached_text, digest_text, reason_text};
ghost use Rattle.journal_text.specs.Values.{refusal_text, sent_text, signal_text};

use itoa::Buffer;
use journal::{Detached, Refusal, SentTo};
use linx_base::{NoMemory, Reason, SigNote};
use sha2::{Digest, Sha256};

/// The most data bytes that are spelled one by one.
const SPELLED_MOST: usize = 32;

/// The digits of so many bytes.
const SPELLED_DIGITS: usize = 64;

/// A text.
pub(crate) fn write_text(out: &mut Vec<u8>, text: &str) -> Result<(), NoMemory>
    ensures { OnOk result (out.new.items ≡ out.old.items ++ text.now) }
{
    out.extend_from_slice(text.as_bytes())?;
    Ok(())
}

/// Any bytes.
pub(crate) fn write_bytes(out: &mut Vec<u8>, bytes: &[u8]) -> Result<(), NoMemory>
    ensures { OnOk result (out.new.items ≡ out.old.items ++ bytes.now) }
{
    out.extend_from_slice(bytes)?;
    Ok(())
}

/// A number in decimal digits.
pub(crate) fn write_number(out: &mut Vec<u8>, number: u64) -> Result<(), NoMemory>
    ensures { OnOk result (out.new.items ≡ out.old.items ++ decimal number) }
{
    let mut buffer = Buffer::new();
    out.extend_from_slice(buffer.format(number).as_bytes())?;
    Ok(())
}

/// Two digits a byte.
fn write_hexadecimal(out: &mut Vec<u8>, bytes: &[u8]) -> Result<(), NoMemory>
    requires { length bytes.now ≤ 32 }
    ensures { OnOk result (out.new.items ≡ out.old.items ++ encode_lower bytes.now) }
{
    let mut text = [0u8; SPELLED_DIGITS];
    let digits = &mut text[..2 * bytes.len()];
    match hex::encode_to_slice(bytes, digits) {
        Ok(()) => write_bytes(out, digits),
        Err(_) => unreachable!(),
    }
}

fn digest_of(bytes: &[u8]) -> [u8; 32]
    ensures { result ≡ sha256 bytes.now }
{
    Sha256::digest(bytes)
}

/// The number of bytes, and their digest.
#[tactic(auto, unfolding(journal_text::specs::Values::digest_text))]
fn write_digest(out: &mut Vec<u8>, bytes: &[u8]) -> Result<(), NoMemory>
    ensures { OnOk result (out.new.items ≡ out.old.items ++ digest_text sha256 bytes.now) }
{
    write_number(out, bytes.len() as u64)?;
    write_text(out, ":")?;
    let digest = digest_of(bytes);
    write_hexadecimal(out, &digest)
}

#[tactic(auto, unfolding(journal_text::specs::Values::data_text))]
fn write_data(out: &mut Vec<u8>, bytes: &[u8]) -> Result<(), NoMemory>
    ensures { OnOk result (out.new.items ≡ out.old.items ++ data_text sha256 bytes.now) }
{
    if bytes.is_empty() {
        write_text(out, "-")
    } else if bytes.len() <= SPELLED_MOST {
        write_hexadecimal(out, bytes)
    } else {
        write_digest(out, bytes)
    }
}

/// The number of a signal, and its data.
#[tactic(auto, unfolding(journal_text::specs::Values::signal_text))]
pub(crate) fn write_signal(out: &mut Vec<u8>, note: &SigNote) -> Result<(), NoMemory>
    ensures { OnOk result (out.new.items ≡ out.old.items ++ signal_text sha256 note.now) }
{
    write_number(out, u64::from(note.number()))?;
    write_text(out, " ")?;
    write_data(out, note.data().bytes())
}

/// The word of the reason for which a peer is no more.
pub(crate) fn reason_word(reason: Reason) -> &'static str
    ensures { result.now ≡ reason_text reason }
{
    match reason {
        Reason::Closed => "closed",
        Reason::Lost => "lost",
        Reason::Dead => "dead",
    }
}

/// The word of what became of a signal that was sent.
pub(crate) fn sent_word(answer: SentTo) -> &'static str
    ensures { result.now ≡ sent_text answer }
{
    match answer {
        SentTo::Queued => "queued",
        SentTo::Link => "link",
        SentTo::Dead => "dead",
    }
}

/// The word of what a detach did.
pub(crate) fn detached_word(answer: Detached) -> &'static str
    ensures { result.now ≡ detached_text answer }
{
    match answer {
        Detached::Pending => "pending",
        Detached::Queued => "queued",
        Detached::None => "none",
    }
}

/// The word of a refusal.
pub(crate) fn refusal_word(reason: Refusal) -> &'static str
    ensures { result.now ≡ refusal_text reason }
{
    match reason {
        Refusal::NotOpen { .. } => "not-open",
        Refusal::IsOpen { .. } => "is-open",
        Refusal::NoPeer => "no-peer",
        Refusal::NoSignal => "no-signal",
        Refusal::NoRef => "no-ref",
    }
}
