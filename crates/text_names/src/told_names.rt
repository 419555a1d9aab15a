//! The names whose numbers the lines of a text tell.
ghost use Rattle.std.specs.Prelude.{◌≡◌, map, OnOk, IfOk};
ghost use Rattle.std.specs.Str.{bytes_eq};
ghost use Rattle.text_names.specs.Naming.{node_told, link_told};
ghost use Rattle.text_names.specs.ToldNames.{has_number, has_told, with_told, with_if_told};
ghost use Rattle.text_names.specs.ToldNames.{nothing_told, told_lines};

use crate::first_words::{FirstWords, first_words};
use crate::naming::{link_told, node_told};
use linx_base::{Name, NameError, NoMemory, Sequence};
use std::alloc::Global;
use text_words::ReadError;

/// The greatest number that a line can tell of a name.
const NUMBER_MOST: u32 = 64;

/// A name, and the number that a line tells of it.
#[derive(Drop)]
pub struct Numbered {
    pub number: u32,
    pub name: Name,
}

/// The nodes and the links whose numbers are told, each by the first line that tells it.
#[derive(Drop)]
pub struct Told {
    pub nodes: Sequence<Numbered>,
    pub links: Sequence<Numbered>,
}

fn has_number(told: &[Numbered], number: u32) -> bool
    ensures { result ≡ has_number number told.now }
{
    told.iter().any(|t| t.number == number)
}

fn is_name_of(told: &Numbered, word: &[u8]) -> bool
    ensures { result ≡ bytes_eq told.now.name word.now }
{
    told.name.bytes() == word
}

/// Whether a number is told of this name.
pub(crate) fn has_told(told: &[Numbered], word: &[u8]) -> bool
    ensures { result ≡ has_told word.now told.now }
{
    told.iter().any(|t| is_name_of(t, word))
}

/// Notes a number of a name, unless the number is noted already or out of bounds, or it is no name.
#[tactic(auto, unfolding(crate::specs::ToldNames::with_told))]
fn tell(
    alloc: Global,
    told: &mut Sequence<Numbered>,
    number: u32,
    word: &[u8],
) -> Result<(), NoMemory>
    ensures { OnOk result (told.new ≡ with_told told.old number word.now) }
{
    let fits = 1 <= number && number <= NUMBER_MOST;
    if !fits || has_number(told.as_slice(), number) {
        return Ok(());
    }
    match Name::of(alloc, word) {
        Ok(name) => told.push(Numbered { number, name }),
        Err(NameError::BadName) => Ok(()),
        Err(NameError::NoMemory) => Err(NoMemory),
    }
}

/// Notes the number of a node, if a line of these first words tells it.
fn tell_node(
    alloc: Global,
    told: &mut Sequence<Numbered>,
    words: &FirstWords,
) -> Result<(), NoMemory>
    ensures { OnOk result (told.new
        ≡ with_if_told told.old (node_told words.now) words.now.fourth) }
{
    match node_told(words) {
        Ok(number) => tell(alloc, told, number, words.fourth),
        Err(ReadError::Bad) => Ok(()),
        Err(ReadError::NoMemory) => Err(NoMemory),
    }
}

/// Notes the number of a link, if a line of these first words tells it.
fn tell_link(
    alloc: Global,
    told: &mut Sequence<Numbered>,
    words: &FirstWords,
) -> Result<(), NoMemory>
    ensures { OnOk result (told.new
        ≡ with_if_told told.old (link_told words.now) words.now.fourth) }
{
    match link_told(words) {
        Ok(number) => tell(alloc, told, number, words.fourth),
        Err(ReadError::Bad) => Ok(()),
        Err(ReadError::NoMemory) => Err(NoMemory),
    }
}

impl Told {
    ghost use Rattle.std.specs.Prelude.{◌≡◌, OnOk};
    ghost use Rattle.text_names.specs.ToldNames.{nothing_told, told_words, told_line};

    fn new(alloc: Global) -> Told
        ensures { result ≡ nothing_told }
    {
        Told {
            nodes: Sequence::new(alloc),
            links: Sequence::new(alloc),
        }
    }

    /// Notes what a line of these first words tells.
    fn add(&mut self, alloc: Global, words: &FirstWords) -> Result<(), NoMemory>
        ensures { OnOk result (self.new ≡ told_words self.old words.now) }
    {
        tell_node(alloc, &mut self.nodes, words)?;
        tell_link(alloc, &mut self.links, words)
    }

    /// Notes what a line tells.
    fn add_line(&mut self, alloc: Global, line: &[u8]) -> Result<(), NoMemory>
        ensures { OnOk result (self.new ≡ told_line self.old line.now) }
    {
        match first_words(line) {
            Some(words) => self.add(alloc, &words),
            None => Ok(()),
        }
    }
}

/// The names whose numbers these lines tell.
pub(crate) fn told_names(alloc: Global, lines: &[&[u8]]) -> Result<Told, NoMemory>
    ensures { IfOk result (λ told. told ≡ told_lines nothing_told (map (λ l. l.now) lines.now)) }
{
    let mut told = Told::new(alloc);
    for line in lines {
        told.add_line(alloc, line)?;
    }
    Ok(told)
}
