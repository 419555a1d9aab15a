//! The names of nodes and links that a text spells.
ghost use Rattle.std.specs.Prelude.{◌≡◌, map, IfOk};
ghost use Rattle.text_names.specs.Numbering.{is_heading, step_lines, names_in};

use crate::numbering::numbered_names;
use crate::other_names::other_names;
use crate::told_names::told_names;
use linx_base::{Names, NoMemory};
use std::alloc::Global;
use text_words::{behind, split_at_byte};

/// Whether the line announces the steps of a text.
fn is_heading(line: &[u8]) -> bool
    ensures { result ≡ is_heading line.now }
{
    match behind(line, b"journal ") {
        Some(_) => true,
        None => false,
    }
}

/// The lines behind the first one that announces steps.
fn step_lines<'a, 'b>(lines: &'b [&'a [u8]]) -> &'b [&'a [u8]]
    ensures { map (λ l. l.now) result.now ≡ step_lines (map (λ l. l.now) lines.now) }
{
    let mut rest = lines;
    while let [line, more @ ..] = rest {
        if is_heading(line) {
            return more;
        }
        rest = more;
    }
    rest
}

/// The names of nodes and links that a printed text spells. A node has the number that the title of
/// a log tells, and a link that of its pump; the numbers between and behind these go to the other
/// names, in the order in which the steps have them, and `-` stands at those that are left. Numbers
/// above 64 aren't told, and of the other names of a kind the first 64 are taken.
#[tactic(auto, unfolding(crate::specs::Numbering::names_in))]
pub fn names_of(alloc: Global, text: &[u8]) -> Result<Names, NoMemory>
    ensures { IfOk result (λ names. names ≡ names_in text.now) }
{
    let lines = split_at_byte(alloc, text, b'\n')?;
    let told = told_names(alloc, lines.as_slice())?;
    let others = other_names(alloc, &told, step_lines(lines.as_slice()))?;
    Ok(Names {
        nodes: numbered_names(alloc, told.nodes.as_slice(), others.nodes.as_slice())?,
        links: numbered_names(alloc, told.links.as_slice(), others.links.as_slice())?,
    })
}
