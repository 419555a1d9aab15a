//! What an attach tells of a notification.
ghost use Rattle.std.specs.Prelude.{◌≡◌, ◌<◌, Some, length, IfOk};
ghost use Rattle.std.specs.Option.{option_copied};
ghost use Rattle.std.specs.Str.{bytes_eq};
ghost use Rattle.sha2.specs.Sha256.{sha256};
ghost use Rattle.linx_base.specs.Content.{data_limit, with_reason};
ghost use Rattle.journal_words.specs.Data.{stand_in};
ghost use Rattle.reading_laws.specs.Printed.{shown_of};
ghost use Rattle.image_laws.specs.Told.{can_tell, told_note};

use linx_base::{Blob, NoMemory, Reason, SigNote, Signal, TryCopy};
use sha2::{Digest, Sha256};
use std::alloc::Global;

/// The most data bytes that a text shows one by one.
const SHOWN_MOST: usize = 32;

/// The byte that fills up what stands for data.
const FILLER: u8 = 255;

fn digest_of(bytes: &[u8]) -> [u8; 32]
    ensures { result ≡ sha256 bytes.now }
{
    Sha256::digest(bytes)
}

/// What stands for these data, of which there are more than 32.
fn stand_in_for(alloc: Global, whole: &[u8]) -> Result<Blob, NoMemory>
    requires { 32 < length whole.now }
    ensures { IfOk result (λ made. made ≡ stand_in (sha256 whole.now) (length whole.now)) }
{
    let digest = digest_of(whole);
    let mut filled = Vec::with_capacity(alloc, whole.len())?;
    filled.extend_from_slice(&digest)?;
    filled.resize(whole.len(), FILLER)?;
    Blob::shared(filled)
}

/// Whether these bytes are what is read of the data.
fn is_shown(alloc: Global, bytes: &Blob, whole: &Blob) -> Result<bool, NoMemory>
    ensures { IfOk result (λ is. is ≡ bytes_eq bytes.now (shown_of whole.now)) }
{
    if whole.len() <= SHOWN_MOST {
        return Ok(bytes.same(whole));
    }
    let shown = stand_in_for(alloc, whole.bytes())?;
    Ok(bytes.same(&shown))
}

/// The attach's signal with the byte of the reason.
fn with_reason(attach: &SigNote, reason: Reason) -> Result<Signal, NoMemory>
    requires { length attach.now.bytes < data_limit }
    ensures { IfOk result (λ told. told ≡ with_reason reason attach.now) }
{
    attach.signal()?.with_reason(reason)
}

/// Whether the data can be those of a notification of the attach, for this reason.
fn can_tell(alloc: Global, reason: Reason, attach: &SigNote, bytes: &Blob) -> Result<bool, NoMemory>
    ensures { IfOk result (λ can. can ≡ can_tell shown_of reason attach.now bytes.now) }
{
    if bytes.len() != attach.data().len() + 1 {
        return Ok(false);
    }
    if attach.data().len() > SHOWN_MOST {
        return Ok(true);
    }
    let told = with_reason(attach, reason)?;
    is_shown(alloc, bytes, told.data())
}

/// The notification's signal: with the attach's data and the byte, where it can have them.
#[tactic(auto, using(crate::proofs::Lengths::one_more))]
fn told_by(
    alloc: Global,
    reason: Reason,
    attach: &SigNote,
    note: &SigNote,
) -> Result<SigNote, NoMemory>
    ensures { IfOk result (λ told. told
        ≡ told_note shown_of reason (Some attach.now) note.now) }
{
    if !can_tell(alloc, reason, attach, note.data())? {
        return note.copy();
    }
    let told = with_reason(attach, reason)?;
    Signal::of(note.number(), told.data().copy()?).note()
}

/// What the attach, if there is one, tells of a notification.
pub(crate) fn told_note(
    alloc: Global,
    reason: Reason,
    attach: Option<&SigNote>,
    note: &SigNote,
) -> Result<SigNote, NoMemory>
    ensures { IfOk result (λ told. told
        ≡ told_note shown_of reason (option_copied attach.entry) note.now) }
{
    match attach {
        Some(attach) => told_by(alloc, reason, attach, note),
        None => note.copy(),
    }
}
