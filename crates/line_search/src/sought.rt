//! What is looked for in a text.

ghost use Rattle.std.specs.Prelude.{◌≡◌, map, option_map, string_bytes, IfOk};
ghost use Rattle.line_search.specs.Search.{shown_by, shown_in};

use crate::search::find;
use linx_base::NoMemory;
use std::alloc::Global;

/// What is looked for in a text.
#[derive(Clone, Copy, Debug, PartialEq, Eq, Hash)]
pub enum Sought {
    /// A line that says the wanted words.
    Line,
    /// That no line says them.
    NoLine,
}

/// What a text shows of what is sought, by the first line of it that says the wanted words.
fn shown_by(sought: Sought, found: Option<&[u8]>) -> Option<&[u8]>
    ensures { option_map (λ line. line.now) result
        ≡ shown_by sought (option_map (λ line. line.now) found.entry) }
{
    match (sought, found) {
        (Sought::Line, found) => found,
        (Sought::NoLine, None) => Some(&[]),
        (Sought::NoLine, Some(_)) => None,
    }
}

/// What a text shows of what is sought: the first line that says the wanted words; or, where no such
/// line is sought and there is none, an empty one. `None` where it doesn't show it.
pub fn seek<'a>(
    alloc: Global,
    text: &'a [u8],
    sought: Sought,
    wanted: &[String],
) -> Result<Option<&'a [u8]>, NoMemory>
    ensures { IfOk result (λ shown. option_map (λ line. line.now) shown
        ≡ shown_in sought (map string_bytes wanted.now) text.now) }
{
    let found = find(alloc, text, wanted)?;
    Ok(shown_by(sought, found))
}
