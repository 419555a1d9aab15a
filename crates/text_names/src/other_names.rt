//! The names whose numbers no line tells.
ghost use Rattle.std.specs.Prelude.{◌≡◌, map, OnOk, IfOk};
ghost use Rattle.std.specs.Str.{bytes_eq};
ghost use Rattle.text_names.specs.Naming.{node_named, link_named};
ghost use Rattle.text_names.specs.OtherNames.{has_name, with_other, with_if_named, no_names};
ghost use Rattle.text_names.specs.OtherNames.{other_words, other_line, other_lines};

use crate::first_words::{FirstWords, first_words};
use crate::naming::{link_named, node_named};
use crate::told_names::{Numbered, Told, has_told};
use linx_base::{Name, NameError, NameList, Names, NoMemory};
use std::alloc::Global;

/// The most names of a kind that no line tells a number of.
const OTHERS_MOST: usize = 64;

fn is_same(name: &Name, word: &[u8]) -> bool
    ensures { result ≡ bytes_eq name.now word.now }
{
    name.bytes() == word
}

fn has_name(names: &NameList, word: &[u8]) -> bool
    ensures { result ≡ has_name word.now names.now }
{
    names.as_slice().iter().any(|name| is_same(name, word))
}

/// Adds a name, unless its number is told, or it stands there already, or it is no name, or there
/// are as many as there can be.
#[tactic(auto, unfolding(crate::specs::OtherNames::with_other))]
fn add_other(
    alloc: Global,
    others: &mut NameList,
    told: &[Numbered],
    word: &[u8],
) -> Result<(), NoMemory>
    ensures { OnOk result (others.new ≡ with_other told.now others.old word.now) }
{
    if others.len() >= OTHERS_MOST || has_told(told, word) || has_name(others, word) {
        return Ok(());
    }
    match Name::of(alloc, word) {
        Ok(name) => others.push(name),
        Err(NameError::BadName) => Ok(()),
        Err(NameError::NoMemory) => Err(NoMemory),
    }
}

/// Adds the node that a line of these first words names, if it does.
fn add_node(
    alloc: Global,
    others: &mut NameList,
    told: &[Numbered],
    words: &FirstWords,
) -> Result<(), NoMemory>
    ensures { OnOk result (others.new
        ≡ with_if_named told.now others.old (node_named words.now)) }
{
    match node_named(words) {
        Some(word) => add_other(alloc, others, told, word),
        None => Ok(()),
    }
}

/// Adds the link that a line of these first words names, if it does.
fn add_link(
    alloc: Global,
    others: &mut NameList,
    told: &[Numbered],
    words: &FirstWords,
) -> Result<(), NoMemory>
    ensures { OnOk result (others.new
        ≡ with_if_named told.now others.old (link_named words.now)) }
{
    match link_named(words) {
        Some(word) => add_other(alloc, others, told, word),
        None => Ok(()),
    }
}

/// Adds what a line of these first words names.
fn add_words(
    alloc: Global,
    others: &mut Names,
    told: &Told,
    words: &FirstWords,
) -> Result<(), NoMemory>
    ensures { OnOk result (others.new ≡ other_words told.now others.old words.now) }
{
    let nodes = told.nodes.as_slice();
    let links = told.links.as_slice();
    add_node(alloc, &mut others.nodes, nodes, words)?;
    add_link(alloc, &mut others.links, links, words)
}

/// Adds what a line names.
fn add_line(alloc: Global, others: &mut Names, told: &Told, line: &[u8]) -> Result<(), NoMemory>
    ensures { OnOk result (others.new ≡ other_line told.now others.old line.now) }
{
    match first_words(line) {
        Some(words) => add_words(alloc, others, told, &words),
        None => Ok(()),
    }
}

/// The names in these lines whose numbers aren't told, in the order in which they come.
pub(crate) fn other_names(alloc: Global, told: &Told, lines: &[&[u8]]) -> Result<Names, NoMemory>
    ensures { IfOk result (λ others.
        others ≡ other_lines told.now no_names (map (λ l. l.now) lines.now)) }
{
    let mut others = Names {
        nodes: NameList::new(alloc),
        links: NameList::new(alloc),
    };
    for line in lines {
        add_line(alloc, &mut others, told, line)?;
    }
    Ok(others)
}
