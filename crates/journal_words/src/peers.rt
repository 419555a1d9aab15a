//! Words as peers, paths, makers, positions and references.
ghost use Rattle.std.specs.Prelude.{◌≡◌};
ghost use Rattle.text_words.specs.Gives.{Gives};
ghost use Rattle.journal_words.specs.Peers.{there_by, peer_in, path_in, maker_in, position_in};
ghost use Rattle.journal_words.specs.Peers.{reference_in};

use crate::names::{link_of, name_of};
use journal::By;
use linx_base::{Inc, ItemAt, LinkNo, Names, Path, Peer, Session};
use std::alloc::Global;
use text_words::{ReadError, cut, halves_of, u32_of, u64_of};

/// An endpoint over a link, by the link's name, the session and the incarnation.
fn there(names: &Names, link: &[u8], session: &[u8], inc: &[u8]) -> Result<Peer, ReadError>
    ensures { Gives (λ p. p) result (there_by names.now link.now (session.now, inc.now)) }
{
    let link = link_of(names, link)?;
    let session = Session(halves_of(session)?);
    let inc = Inc(halves_of(inc)?);
    Ok(Peer::There { link, session, inc })
}

/// The peer that a word spells.
#[tactic(auto, unfolding(crate::specs::Peers::peer_in))]
pub(crate) fn peer_of(names: &Names, word: &[u8]) -> Result<Peer, ReadError>
    ensures { Gives (λ p. p) result (peer_in names.now word.now) }
{
    match cut(word, b':') {
        None => Ok(Peer::Here(Inc(halves_of(word)?))),
        Some((link, behind)) => match cut(behind, b':') {
            Some((session, inc)) => there(names, link, session, inc),
            None => Err(ReadError::Bad),
        },
    }
}

/// The path that a word spells.
#[tactic(auto, unfolding(crate::specs::Peers::path_in))]
pub(crate) fn path_of(alloc: Global, names: &Names, word: &[u8]) -> Result<Path, ReadError>
    ensures { Gives (λ p. p) result (path_in names.now word.now) }
{
    match cut(word, b'/') {
        None => {
            let name = name_of(alloc, word)?;
            Ok(Path::Local(name))
        }
        Some((link, behind)) => {
            let link = link_of(names, link)?;
            let name = name_of(alloc, behind)?;
            Ok(Path::Over { link, name })
        }
    }
}

/// The maker that a word spells.
#[tactic(auto, unfolding(crate::specs::Peers::maker_in))]
pub(crate) fn maker_of(word: &[u8]) -> Result<By, ReadError>
    ensures { Gives (λ by. by) result (maker_in word.now) }
{
    match word {
        [b'A', digits @ ..] => Ok(By::Actor(u32_of(digits)?)),
        [b'P', digits @ ..] => Ok(By::Pump(LinkNo(u32_of(digits)?))),
        _ => Err(ReadError::Bad),
    }
}

/// The position of an item that a word spells.
#[tactic(auto, unfolding(crate::specs::Peers::position_in))]
pub(crate) fn position_of(word: &[u8]) -> Result<ItemAt, ReadError>
    ensures { Gives (λ at. at) result (position_in word.now) }
{
    match cut(word, b'.') {
        Some((step, place)) => {
            let step = u64_of(step)?;
            let place = u64_of(place)?;
            Ok(ItemAt { step, place })
        }
        None => Err(ReadError::Bad),
    }
}

/// The step that a reference names.
#[tactic(auto, unfolding(crate::specs::Peers::reference_in))]
pub(crate) fn reference_of(word: &[u8]) -> Result<u64, ReadError>
    ensures { Gives (λ n. n) result (reference_in word.now) }
{
    match word {
        [b'@', digits @ ..] => u64_of(digits),
        _ => Err(ReadError::Bad),
    }
}
