ghost use Rattle.std.specs.Prelude.{◌≡◌, None, IfOk};
ghost use Rattle.command_words.specs.Nearest.{nearest_from, nearest_of};

use crate::word::{WORDS, Word};
use linx_base::NoMemory;
use std::alloc::Global;
use strsim::levenshtein;

/// A word is near that so few edits make of a text: fewer than this.
const NEAR: usize = 3;

fn nearest_of(alloc: Global, text: &str, words: &[Word]) -> Result<Option<Word>, NoMemory>
    ensures { IfOk result (λ word. word ≡ nearest_from None 3 text.now words.now) }
{
    let mut best = None;
    let mut limit = NEAR;
    for word in words {
        let edits = levenshtein(alloc, text, word.name())?;
        if edits < limit {
            best = Some(*word);
            limit = edits;
        }
    }
    Ok(best)
}

/// The word that is nearest to a text, if one is near: the first of those that the fewest edits
/// make of it.
#[tactic(auto, unfolding(crate::specs::Nearest::nearest_of))]
pub(crate) fn nearest(alloc: Global, text: &str) -> Result<Option<Word>, NoMemory>
    ensures { IfOk result (λ word. word ≡ nearest_of text.now) }
{
    nearest_of(alloc, text, &WORDS)
}
