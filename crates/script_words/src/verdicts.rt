//! Words as the verdicts of a direction.

ghost use Rattle.std.specs.Prelude.{◌≡◌, map, IfOk, true};
ghost use Rattle.std.specs.List.{list_all};
ghost use Rattle.linx_base.specs.Verdicts.{fits_verdict};
ghost use Rattle.script_words.specs.Gives.{Gives};
ghost use Rattle.script_words.specs.Verdicts.{side_in, swap_of, verdict_of};
ghost use Rattle.script_words.specs.Verdicts.{verdicts_of, some_verdicts_of};

use crate::line_error::{LineError, bad_shape};
use crate::words::is_text;
use linx_base::{Sequence, Side, Verdict};
use std::alloc::Global;

/// Verdicts in order.
pub type Verdicts = Sequence<Verdict>;

/// The direction of a plan, by the side that sends.
#[tactic(auto, unfolding(crate::specs::Verdicts::side_in))]
pub(crate) fn side(word: &[u8]) -> Result<Side, LineError>
    ensures { Gives (λ s. s) result (side_in word.now) }
{
    if is_text(word, b">") {
        return Ok(Side::First);
    }
    if is_text(word, b"<") {
        return Ok(Side::Second);
    }
    Err(bad_shape(word))
}

/// `S1` to `S9`.
fn swap(word: &[u8]) -> Result<Verdict, LineError>
    ensures gives { Gives (λ v. v) result (swap_of word.now) }
    ensures fits { IfOk result (λ v. fits_verdict v ≡ true) }
{
    match word {
        [b'S', digit @ b'1'..=b'9'] => Ok(Verdict::Swap(*digit - b'0')),
        _ => Err(bad_shape(word)),
    }
}

#[tactic(auto, unfolding(crate::specs::Verdicts::verdict_of))]
fn verdict(word: &[u8]) -> Result<Verdict, LineError>
    ensures gives { Gives (λ v. v) result (verdict_of word.now) }
    ensures fits { IfOk result (λ v. fits_verdict v ≡ true) }
{
    if is_text(word, b"D") {
        return Ok(Verdict::Deliver);
    }
    if is_text(word, b"L") {
        return Ok(Verdict::Lose);
    }
    if is_text(word, b"R") {
        return Ok(Verdict::Repeat);
    }
    swap(word)
}

/// The words as verdicts.
#[tactic(auto, using(crate::proofs::Lists::list_all_push))]
fn verdicts(alloc: Global, words: &[&[u8]]) -> Result<Verdicts, LineError>
    ensures gives { Gives (λ v. v) result (verdicts_of (map (λ w. w.now) words.now)) }
    ensures fit { IfOk result (λ v. list_all fits_verdict v ≡ true) }
{
    let mut verdicts = Verdicts::new(alloc);
    for word in words {
        let planned = verdict(word)?;
        verdicts.push(planned)?;
    }
    Ok(verdicts)
}

/// The words behind that statement as verdicts, one at least.
pub(crate) fn some_verdicts(
    alloc: Global,
    statement: &[u8],
    words: &[&[u8]],
) -> Result<Verdicts, LineError>
    ensures gives { Gives (λ v. v) result
        (some_verdicts_of statement.now (map (λ w. w.now) words.now)) }
    ensures fit { IfOk result (λ v. list_all fits_verdict v ≡ true) }
{
    match words {
        [] => Err(bad_shape(statement)),
        _ => verdicts(alloc, words),
    }
}
