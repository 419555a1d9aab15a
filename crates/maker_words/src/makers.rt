//! The makers that a text lists.
ghost use Rattle.std.specs.Prelude.{◌≡◌, IfOk, is_some};
ghost use Rattle.std.specs.List.{filter_map};
ghost use Rattle.maker_words.specs.Makers.{are_makers, listed, maker_spelled, makers_spelled};

use crate::maker::maker;
use journal::By;
use linx_base::{NoMemory, Sequence};
use std::alloc::{AllocError, Global};

/// Whether a word spells a maker.
fn is_maker(word: &str) -> bool
    ensures { result ≡ is_some (maker_spelled word.now) }
{
    maker(word).is_some()
}

/// Whether a text lists makers: each of its words, between which a comma stands, spells one.
pub fn are_makers(text: &str) -> bool
    ensures { result ≡ are_makers text.now }
{
    text.split(',').all(|word| is_maker(word))
}

/// The makers that are spelled by words of a text.
fn spelled_in(alloc: Global, text: &str) -> Result<Vec<By>, AllocError>
    ensures { IfOk result (λ makers. makers.items ≡ filter_map maker_spelled (listed text.now)) }
{
    text.split(',')
        .filter_map(|word| maker(word))
        .collect(alloc)
}

/// The makers that a text lists, in its order; `None` exactly where `are_makers` says no.
#[tactic(auto, unfolding(crate::specs::Makers::makers_spelled))]
pub fn makers_in(alloc: Global, text: &str) -> Result<Option<Sequence<By>>, NoMemory>
    ensures { IfOk result (λ makers. makers ≡ makers_spelled text.now) }
{
    if !are_makers(text) {
        return Ok(None);
    }
    let makers = spelled_in(alloc, text)?;
    Ok(Some(Sequence::of(makers)))
}
