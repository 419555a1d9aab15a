//! The node and the link that a line names, and the number that it tells of each.
ghost use Rattle.std.specs.Prelude.{◌≡◌, option_map};
ghost use Rattle.text_words.specs.Gives.{Gives};
ghost use Rattle.text_names.specs.Naming.{is_link_effect, is_node_effect, is_pump_head};
ghost use Rattle.text_names.specs.Naming.{is_peer_effect, is_peer_head, is_link_head, link_before};
ghost use Rattle.text_names.specs.Naming.{link_at, link_named, node_named, node_told, pump_in};
ghost use Rattle.text_names.specs.Naming.{link_told};

use crate::first_words::FirstWords;
use linx_base::Inc;
use text_words::{ReadError, cut, halves_of, is_text, u32_of};

/// Whether the effect of this first word names a node and a link.
fn is_link_effect(word: &[u8]) -> bool
    ensures { result ≡ is_link_effect word.now }
{
    is_text(word, b"up") || is_text(word, b"down")
}

/// Whether the effect of this first word names a node.
fn is_node_effect(word: &[u8]) -> bool
    ensures { result ≡ is_node_effect word.now }
{
    is_link_effect(word) || is_text(word, b"met") || is_text(word, b"gone")
}

/// Whether the effect of this first word names a peer behind an endpoint or a node.
fn is_peer_effect(word: &[u8]) -> bool
    ensures { result ≡ is_peer_effect word.now }
{
    is_text(word, b"arrived")
        || is_text(word, b"found")
        || is_text(word, b"notified")
        || is_text(word, b"met")
        || is_text(word, b"gone")
}

/// Whether the head of this first word names a peer or a path.
fn is_peer_head(word: &[u8]) -> bool
    ensures { result ≡ is_peer_head word.now }
{
    is_text(word, b"send") || is_text(word, b"attach") || is_text(word, b"hunt")
}

/// Whether the head of this first word is met on a link by its pump.
fn is_pump_head(word: &[u8]) -> bool
    ensures { result ≡ is_pump_head word.now }
{
    is_text(word, b"wire") || is_text(word, b"tick")
}

/// Whether the head of this first word names a link.
fn is_link_head(word: &[u8]) -> bool
    ensures { result ≡ is_link_head word.now }
{
    is_pump_head(word)
        || is_text(word, b"cut")
        || is_text(word, b"mend")
        || is_text(word, b"settle")
}

/// The link of a word that may be a peer or a path.
fn link_before(word: &[u8]) -> Option<&[u8]>
    ensures { option_map (λ l. l.now) result ≡ link_before word.now }
{
    match cut(word, b':') {
        None => {
            let (link, _) = cut(word, b'/')?;
            Some(link)
        }
        Some((link, behind)) => {
            let _parts = cut(behind, b':')?;
            Some(link)
        }
    }
}

/// The link of a word that names it alone, or before a peer or a name, or not at all.
fn link_at(word: &[u8], is_alone: bool, is_before: bool) -> Option<&[u8]>
    ensures { option_map (λ l. l.now) result ≡ link_at word.now is_alone is_before }
{
    if is_alone {
        return Some(word);
    }
    if is_before { link_before(word) } else { None }
}

/// The link that a line of a step names.
#[tactic(auto, unfolding(crate::specs::Naming::link_named))]
pub(crate) fn link_named<'a>(words: &FirstWords<'a>) -> Option<&'a [u8]>
    ensures { option_map (λ l. l.now) result ≡ link_named words.now }
{
    let word = words.fourth;
    if is_text(words.first, b"+") {
        let effect = words.second;
        link_at(word, is_link_effect(effect), is_peer_effect(effect))
    } else {
        let head = words.third;
        link_at(word, is_link_head(head), is_peer_head(head))
    }
}

/// The node that a line of a step names.
#[tactic(auto, unfolding(crate::specs::Naming::node_named))]
pub(crate) fn node_named<'a>(words: &FirstWords<'a>) -> Option<&'a [u8]>
    ensures { option_map (λ n. n.now) result ≡ node_named words.now }
{
    if is_text(words.first, b"+") {
        if is_node_effect(words.second) {
            return Some(words.third);
        }
        return None;
    }
    if is_text(words.third, b"restart") {
        Some(words.fourth)
    } else {
        None
    }
}

/// The number of a node that a line tells.
#[tactic(auto, unfolding(crate::specs::Naming::node_told))]
pub(crate) fn node_told(words: &FirstWords) -> Result<u32, ReadError>
    ensures { Gives (λ n. n) result (node_told words.now) }
{
    if !is_text(words.first, b"log") {
        return Err(ReadError::Bad);
    }
    let inc = Inc(halves_of(words.second)?);
    Ok(inc.node().0)
}

/// The number of a pump.
fn pump_of(maker: &[u8]) -> Result<u32, ReadError>
    ensures { Gives (λ n. n) result (pump_in maker.now) }
{
    match maker {
        [b'P', digits @ ..] => u32_of(digits),
        _ => Err(ReadError::Bad),
    }
}

/// The number of a link that a line tells.
#[tactic(auto, unfolding(crate::specs::Naming::link_told))]
pub(crate) fn link_told(words: &FirstWords) -> Result<u32, ReadError>
    ensures { Gives (λ n. n) result (link_told words.now) }
{
    if is_pump_head(words.third) {
        pump_of(words.second)
    } else {
        Err(ReadError::Bad)
    }
}
