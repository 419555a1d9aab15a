//! Words as sides, verdicts, reasons, answers and refusals.
ghost use Rattle.std.specs.Prelude.{◌≡◌};
ghost use Rattle.text_words.specs.Gives.{Gives};
ghost use Rattle.journal_words.specs.Answers.{side_in, swap_in, verdict_in, reason_in, sent_in};
ghost use Rattle.journal_words.specs.Answers.{detached_in, refusal_in};

use journal::{Detached, Refusal, SentTo};
use linx_base::{Inc, Reason, Side, Verdict};
use text_words::{ReadError, is_text};

/// `>` or `<`: the side from which a packet goes.
#[tactic(auto, unfolding(crate::specs::Answers::side_in))]
pub(crate) fn side_of(word: &[u8]) -> Result<Side, ReadError>
    ensures { Gives (λ s. s) result (side_in word.now) }
{
    if is_text(word, b">") {
        return Ok(Side::First);
    }
    if is_text(word, b"<") {
        return Ok(Side::Second);
    }
    Err(ReadError::Bad)
}

/// `swap` and a digit from 1 to 9.
#[tactic(auto, unfolding(crate::specs::Answers::swap_in))]
fn swap_of(word: &[u8]) -> Result<Verdict, ReadError>
    ensures { Gives (λ v. v) result (swap_in word.now) }
{
    match word {
        [b's', b'w', b'a', b'p', digit @ b'1'..=b'9'] => Ok(Verdict::Swap(*digit - b'0')),
        _ => Err(ReadError::Bad),
    }
}

/// `deliver`, `lose`, `repeat`, or `swap` and a digit from 1 to 9.
#[tactic(auto, unfolding(crate::specs::Answers::verdict_in))]
pub(crate) fn verdict_of(word: &[u8]) -> Result<Verdict, ReadError>
    ensures { Gives (λ v. v) result (verdict_in word.now) }
{
    if is_text(word, b"deliver") {
        return Ok(Verdict::Deliver);
    }
    if is_text(word, b"lose") {
        return Ok(Verdict::Lose);
    }
    if is_text(word, b"repeat") {
        return Ok(Verdict::Repeat);
    }
    swap_of(word)
}

/// `closed`, `lost` or `dead`.
#[tactic(auto, unfolding(crate::specs::Answers::reason_in))]
pub(crate) fn reason_of(word: &[u8]) -> Result<Reason, ReadError>
    ensures { Gives (λ r. r) result (reason_in word.now) }
{
    if is_text(word, b"closed") {
        return Ok(Reason::Closed);
    }
    if is_text(word, b"lost") {
        return Ok(Reason::Lost);
    }
    if is_text(word, b"dead") {
        return Ok(Reason::Dead);
    }
    Err(ReadError::Bad)
}

/// `queued`, `link` or `dead`.
#[tactic(auto, unfolding(crate::specs::Answers::sent_in))]
pub(crate) fn sent_of(word: &[u8]) -> Result<SentTo, ReadError>
    ensures { Gives (λ s. s) result (sent_in word.now) }
{
    if is_text(word, b"queued") {
        return Ok(SentTo::Queued);
    }
    if is_text(word, b"link") {
        return Ok(SentTo::Link);
    }
    if is_text(word, b"dead") {
        return Ok(SentTo::Dead);
    }
    Err(ReadError::Bad)
}

/// `pending`, `queued` or `none`.
#[tactic(auto, unfolding(crate::specs::Answers::detached_in))]
pub(crate) fn detached_of(word: &[u8]) -> Result<Detached, ReadError>
    ensures { Gives (λ d. d) result (detached_in word.now) }
{
    if is_text(word, b"pending") {
        return Ok(Detached::Pending);
    }
    if is_text(word, b"queued") {
        return Ok(Detached::Queued);
    }
    if is_text(word, b"none") {
        return Ok(Detached::None);
    }
    Err(ReadError::Bad)
}

/// Why a step was refused. The step and the endpoint of a refusal aren't printed, and are read as
/// 0.
#[tactic(auto, unfolding(crate::specs::Answers::refusal_in))]
pub(crate) fn refusal_of(word: &[u8]) -> Result<Refusal, ReadError>
    ensures { Gives (λ r. r) result (refusal_in word.now) }
{
    if is_text(word, b"not-open") {
        return Ok(Refusal::NotOpen { at: 0 });
    }
    if is_text(word, b"is-open") {
        return Ok(Refusal::IsOpen { inc: Inc(0) });
    }
    if is_text(word, b"no-peer") {
        return Ok(Refusal::NoPeer);
    }
    if is_text(word, b"no-signal") {
        return Ok(Refusal::NoSignal);
    }
    if is_text(word, b"no-ref") {
        return Ok(Refusal::NoRef);
    }
    Err(ReadError::Bad)
}
