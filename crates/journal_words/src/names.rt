//! Words as names, and as the numbers of what they name.
ghost use Rattle.std.specs.Prelude.{◌≡◌, position};
ghost use Rattle.std.specs.Str.{bytes_eq};
ghost use Rattle.text_words.specs.Gives.{Gives};
ghost use Rattle.journal_words.specs.Names.{name_in, named_in};

use linx_base::{LinkNo, Name, NameError, NameList, Names, NodeNo};
use std::alloc::Global;
use text_words::ReadError;

/// The word as a name.
pub(crate) fn name_of(alloc: Global, word: &[u8]) -> Result<Name, ReadError>
    ensures { Gives (λ n. n) result (name_in word.now) }
{
    match Name::of(alloc, word) {
        Ok(name) => Ok(name),
        Err(NameError::BadName) => Err(ReadError::Bad),
        Err(NameError::NoMemory) => Err(ReadError::NoMemory),
    }
}

fn is_name_of(name: &Name, word: &[u8]) -> bool
    ensures { result ≡ bytes_eq name.now word.now }
{
    name.bytes() == word
}

/// The place of the first name that the word is.
fn place_of_name(names: &NameList, word: &[u8]) -> Option<usize>
    ensures { result ≡ position (λ name. bytes_eq name word.now) names.now }
{
    names
        .as_slice()
        .iter()
        .position(|name| is_name_of(name, word))
}

/// The number, from 1, of the first name that the word is.
#[tactic(auto, unfolding(crate::specs::Names::named_in))]
fn named(names: &NameList, word: &[u8]) -> Result<u32, ReadError>
    ensures { Gives (λ n. n) result (named_in names.now word.now) }
{
    match place_of_name(names, word) {
        Some(place) if place < u32::MAX as usize => Ok(place as u32 + 1),
        _ => Err(ReadError::Bad),
    }
}

/// The node that the word names.
pub(crate) fn node_of(names: &Names, word: &[u8]) -> Result<NodeNo, ReadError>
    ensures { Gives (λ n. n.0) result (named_in names.now.nodes word.now) }
{
    Ok(NodeNo(named(&names.nodes, word)?))
}

/// The link that the word names.
pub(crate) fn link_of(names: &Names, word: &[u8]) -> Result<LinkNo, ReadError>
    ensures { Gives (λ l. l.0) result (named_in names.now.links word.now) }
{
    Ok(LinkNo(named(&names.links, word)?))
}
