//! Values as words.

use linx_base::{Inc, Name, Session, Side};
use std::alloc::Global;
use std::test::Fail;

/// A text of its own of this word.
pub fn text_of(alloc: Global, word: &str) -> Result<String, Fail> {
    Ok(String::from_str(alloc, word)?)
}

/// `yes` or `no`.
pub fn yes_text(alloc: Global, is_so: bool) -> Result<String, Fail> {
    text_of(alloc, if is_so { "yes" } else { "no" })
}

/// A number in decimal digits.
pub fn number_text(alloc: Global, number: u64) -> Result<String, Fail> {
    Ok(format!(in alloc; "{number}")?)
}

/// An incarnation as its node and its opening, as `2.1`.
pub fn inc_text(alloc: Global, inc: Inc) -> Result<String, Fail> {
    Ok(format!(in alloc; "{}.{}", inc.node().0, inc.0 % (1 << 32))?)
}

/// A session as its boot and its count, as `1.5`.
pub fn session_text(alloc: Global, session: Session) -> Result<String, Fail> {
    Ok(format!(in alloc; "{}.{}", session.boot(), session.count())?)
}

/// A session as its boot and its count, as `1.5`, or `none`.
pub fn session_or_none(alloc: Global, session: Option<Session>) -> Result<String, Fail> {
    match session {
        None => text_of(alloc, "none"),
        Some(session) => session_text(alloc, session),
    }
}

/// A side, as `F` or `T`.
pub fn side_text(side: Side) -> &'static str {
    match side {
        Side::First => "F",
        Side::Second => "T",
    }
}

/// The text of a name.
pub fn name_text(name: &Name) -> &str {
    str::from_utf8(name.bytes()).unwrap_or("?")
}

/// A side is up: its session, and that of its peer.
pub fn went_up_text(alloc: Global, session: Session, peer: Session) -> Result<String, Fail> {
    let (mine, other) = (session_text(alloc, session)?, session_text(alloc, peer)?);
    Ok(format!(in alloc; "up {mine} {other}")?)
}

/// A side went down: the session that ended.
pub fn went_down_text(alloc: Global, session: Session) -> Result<String, Fail> {
    let mine = session_text(alloc, session)?;
    Ok(format!(in alloc; "down {mine}")?)
}

/// A peer was met, by its name.
pub fn met_text(alloc: Global, inc: Inc, name: &Name) -> Result<String, Fail> {
    let inc = inc_text(alloc, inc)?;
    Ok(format!(in alloc; "met {inc} {}", name_text(name))?)
}

/// A peer is gone.
pub fn gone_text(alloc: Global, inc: Inc) -> Result<String, Fail> {
    let inc = inc_text(alloc, inc)?;
    Ok(format!(in alloc; "gone {inc}")?)
}

/// A name was asked for.
pub fn asked_text(alloc: Global, name: &Name) -> Result<String, Fail> {
    Ok(format!(in alloc; "asked {}", name_text(name))?)
}

/// Adds a piece, behind a mark where others stand before it.
pub fn add_piece(text: &mut String, mark: &str, piece: &str) -> Result<(), Fail> {
    if !text.is_empty() {
        text.push_str(mark)?;
    }
    text.push_str(piece)?;
    Ok(())
}
