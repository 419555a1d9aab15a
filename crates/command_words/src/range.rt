//! A range of numbers.
ghost use Rattle.std.specs.Prelude.{◌≡◌};
ghost use Rattle.command_words.specs.Ranges.{range_over, ranged};

use maker_words::number;

/// The most numbers of a range.
const RANGE_MOST: u32 = 1_000_000;

/// A number, and so many behind it.
#[derive(Clone, Copy, Debug, PartialEq, Eq, Hash)]
pub struct Range {
    pub first: u32,
    pub more: u32,
}

/// The range from a number to another, if there is one.
pub(crate) fn range_over(first: u32, last: u32) -> Option<Range>
    ensures { result ≡ range_over first last }
{
    if last < first || last - first >= RANGE_MOST {
        None
    } else {
        Some(Range {
            first,
            more: last - first,
        })
    }
}

/// The range that two texts spell.
pub(crate) fn ranged(from: &str, to: &str) -> Option<Range>
    ensures { result ≡ ranged from.now to.now }
{
    let first = number(from)?;
    let last = number(to)?;
    range_over(first, last)
}
