//! The first words of a line.
ghost use Rattle.std.specs.Prelude.{◌≡◌};
ghost use Rattle.text_names.specs.FirstWords.{first_word, first_words};

use std::marker::Model;
use text_words::cut;

/// The first four words of a line.
#[derive(Drop)]
pub(crate) struct FirstWords<'a> {
    pub(crate) first: &'a [u8],
    pub(crate) second: &'a [u8],
    pub(crate) third: &'a [u8],
    pub(crate) fourth: &'a [u8],
}

impl<'a> Model for FirstWords<'a> {
    ghost use Rattle.text_names.specs.FirstWords.{Words};

    ghost Value = { Words };

    ghost view = { λ w. record {
      first = w.first.now;
      second = w.second.now;
      third = w.third.now;
      fourth = w.fourth.now;
    } };
}

/// What stands before the first space, or all of it.
fn first_word(text: &[u8]) -> &[u8]
    ensures { result.now ≡ first_word text.now }
{
    match cut(text, b' ') {
        Some((word, _)) => word,
        None => text,
    }
}

/// The first four words of a line, if it has so many.
#[tactic(auto, unfolding(crate::specs::FirstWords::first_words))]
pub(crate) fn first_words(line: &[u8]) -> Option<FirstWords<'_>>
    ensures { result ≡ first_words line.now }
{
    let (first, behind) = cut(line, b' ')?;
    let (second, behind) = cut(behind, b' ')?;
    let (third, behind) = cut(behind, b' ')?;
    Some(FirstWords {
        first,
        second,
        third,
        fourth: first_word(behind),
    })
}
