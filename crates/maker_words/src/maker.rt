//! The maker that a word spells.
ghost use Rattle.std.specs.Prelude.{◌≡◌, option_map};
ghost use Rattle.maker_words.specs.Makers.{behind, maker_number, maker_spelled};

use crate::digits::number;
use journal::By;
use linx_base::LinkNo;

/// What stands behind a first `A`.
fn behind_a(word: &str) -> Option<&str>
    ensures { option_map (λ digits. digits.now) result ≡ behind 65 word.now }
{
    word.strip_prefix('A')
}

/// What stands behind a first `P`.
fn behind_p(word: &str) -> Option<&str>
    ensures { option_map (λ digits. digits.now) result ≡ behind 80 word.now }
{
    word.strip_prefix('P')
}

/// The number of an actor or of a link, which are counted from 1.
fn maker_number(digits: &str) -> Option<u32>
    ensures { result ≡ maker_number digits.now }
{
    match number(digits) {
        Some(number) if 1 <= number => Some(number),
        _ => None,
    }
}

/// The maker that a word spells.
#[tactic(auto, unfolding(crate::specs::Makers::maker_spelled))]
pub(crate) fn maker(word: &str) -> Option<By>
    ensures { result ≡ maker_spelled word.now }
{
    if let Some(digits) = behind_a(word) {
        return Some(By::Actor(maker_number(digits)?));
    }
    if let Some(digits) = behind_p(word) {
        return Some(By::Pump(LinkNo(maker_number(digits)?)));
    }
    None
}
