//! The values that words spell.

use linx_base::{Inc, LinkNo, Name, NodeNo, Path, Peer, Session, Side};
use sigsel::{Numbers, Sigsel};
use std::alloc::Global;
use std::test::Fail;

/// Two numbers with a dot between them, as `1.2`.
pub fn pair_of(word: &str) -> Result<(u32, u32), Fail> {
    let (first, second) = word.split_once('.').ok_or("no dot")?;
    Ok((first.parse()?, second.parse()?))
}

/// An incarnation: its node and its opening, as `2.1`.
pub fn inc_of(word: &str) -> Result<Inc, Fail> {
    let (node, opening) = pair_of(word)?;
    Ok(Inc::of(NodeNo(node), opening))
}

/// A session: its boot and its count, as `1.5`.
pub fn session_of(word: &str) -> Result<Session, Fail> {
    let (boot, count) = pair_of(word)?;
    Ok(Session::of(boot, count))
}

/// A link by its number, as `2`.
pub fn link_of(word: &str) -> Result<LinkNo, Fail> {
    Ok(LinkNo(word.parse()?))
}

/// A side: `F` or `T`, from which and to which a link is declared.
pub fn side_of(word: &str) -> Result<Side, Fail> {
    match word {
        "F" => Ok(Side::First),
        "T" => Ok(Side::Second),
        _ => Err(Fail::from("no side")),
    }
}

/// A peer: an incarnation, or one in a session of a link, as `1:1.5:2.77`.
pub fn peer_of(word: &str) -> Result<Peer, Fail> {
    let Some((link, rest)) = word.split_once(':') else {
        return Ok(Peer::Here(inc_of(word)?));
    };
    let (session, inc) = rest.split_once(':').ok_or("no incarnation")?;
    Ok(Peer::There {
        link: link_of(link)?,
        session: session_of(session)?,
        inc: inc_of(inc)?,
    })
}

/// The name that a word is.
pub fn name_of(alloc: Global, word: &str) -> Result<Name, Fail> {
    Ok(Name::of(alloc, word.as_bytes())?)
}

/// A path: a name, or one over a link, as `1/x`.
pub fn path_of(alloc: Global, word: &str) -> Result<Path, Fail> {
    let Some((link, name)) = word.split_once('/') else {
        return Ok(Path::Local(name_of(alloc, word)?));
    };
    Ok(Path::Over {
        link: link_of(link)?,
        name: name_of(alloc, name)?,
    })
}

/// Numbers, as `7,8`.
fn numbers_of(alloc: Global, text: &str) -> Result<Numbers, Fail> {
    let mut numbers = Vec::new(alloc);
    for word in text.split(',') {
        numbers.push(word.parse()?)?;
    }
    Ok(Numbers::of(numbers)?)
}

/// A filter: `any`, `only:7,8` or `not:8`.
pub fn filter_of(alloc: Global, word: &str) -> Result<Sigsel, Fail> {
    match word.split_once(':') {
        None => Ok(Sigsel::Any),
        Some(("only", listed)) => Ok(Sigsel::Only(numbers_of(alloc, listed)?)),
        Some((_, listed)) => Ok(Sigsel::Not(numbers_of(alloc, listed)?)),
    }
}

/// Adds the bytes that these hexadecimal digits are, two a byte.
fn add_digits(bytes: &mut Vec<u8>, digits: &str) -> Result<(), Fail> {
    let decoded = hex::decode(*bytes.allocator(), digits)?;
    bytes.extend_from_slice(&decoded)?;
    Ok(())
}

/// Adds the bytes of these digits so many times.
fn add_times(bytes: &mut Vec<u8>, digits: &str, times: &str) -> Result<(), Fail> {
    let times: u32 = times.parse()?;
    for _ in 0..times {
        add_digits(bytes, digits)?;
    }
    Ok(())
}

/// Adds the bytes of a word: of a session, as `5.1`, of digits, or of digits so many times, as
/// `5a*64`.
fn add_word(bytes: &mut Vec<u8>, word: &str) -> Result<(), Fail> {
    if word.contains('.') {
        bytes.extend_from_slice(session_of(word)?.0.to_be_bytes().as_slice())?;
        return Ok(());
    }
    match word.split_once('*') {
        None => add_digits(bytes, word),
        Some((digits, times)) => add_times(bytes, digits, times),
    }
}

/// The bytes that words spell: of a session, as `5.1`, of hexadecimal digits, or of digits so many
/// times, as `5a*64`.
pub fn bytes_of(alloc: Global, words: &str) -> Result<Vec<u8>, Fail> {
    let mut bytes = Vec::new(alloc);
    for word in words.split_whitespace() {
        add_word(&mut bytes, word)?;
    }
    Ok(bytes)
}
