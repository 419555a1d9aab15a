//! The session of an end. Session 5.1 is its own, and 9.4 a session of its peer.

use case_words::{follow_sections, front, session_of, session_text};
use ethcm_session::{Change, Standing, Talk};
use linx_base::{ConnKind, Session};
use std::alloc::Global;
use std::test::Fail;

/// What a packet means: its sender's session, its receiver's and its kind.
fn input(talk: &mut Talk, src: Session, dst: u64, kind: Option<ConnKind>) -> Result<Change, Fail> {
    if talk.mine().count() == u32::MAX {
        return Err(Fail::from("no session follows"));
    }
    Ok(talk.input(src, dst, kind))
}

/// An end that is up goes down.
fn lose(talk: &mut Talk) -> Result<(), Fail> {
    if talk.peer().is_none() || talk.mine().count() == u32::MAX {
        return Err(Fail::from("not up, or no session follows"));
    }
    talk.lost();
    Ok(())
}

fn restart(talk: &mut Talk, boot: u32) -> Result<(), Fail> {
    if talk.mine().boot() >= boot {
        return Err(Fail::from("no later boot"));
    }
    talk.restart(boot);
    Ok(())
}

/// The kind of a packet; data, ACK and NACK of frames have none.
fn kind_of(word: &str) -> Result<Option<ConnKind>, Fail> {
    match word {
        "CONNECT" => Ok(Some(ConnKind::Connect)),
        "CONNECT_ACK" => Ok(Some(ConnKind::ConnectAck)),
        "ACK" => Ok(Some(ConnKind::Ack)),
        "RESET" => Ok(Some(ConnKind::Reset)),
        "frame" => Ok(None),
        _ => Err(Fail::from("no such kind")),
    }
}

/// The own session, where it stands, and the session of the peer, 0.0 for none.
fn state_text(alloc: Global, talk: &Talk) -> Result<String, Fail> {
    let word = match talk.state().standing {
        Standing::Connecting => "connecting",
        Standing::Up { .. } if talk.confirmed() => "confirmed",
        Standing::Up { .. } => "up",
    };
    let mine = session_text(alloc, talk.mine())?;
    let peer = session_text(alloc, talk.peer().unwrap_or(Session(0)))?;
    Ok(format!(in alloc; "{mine} {word} {peer}")?)
}

/// What a packet means.
fn input_words(talk: &mut Talk, packet: &str) -> Result<Change, Fail> {
    let (src, rest) = front(packet);
    let (dst, kind) = front(rest);
    input(talk, session_of(src)?, session_of(dst)?.0, kind_of(kind)?)
}

/// What a packet means, and the state then.
fn input_text(alloc: Global, talk: &mut Talk, packet: &str) -> Result<String, Fail> {
    let change = input_words(talk, packet)?;
    let state = state_text(alloc, talk)?;
    Ok(format!(in alloc; "{state}, {change:?}")?)
}

/// A call, and whether there is one of this word.
fn changes(talk: &mut Talk, word: &str) -> Result<bool, Fail> {
    match word {
        "lost" => lose(talk)?,
        "restart 6" => restart(talk, 6)?,
        "keep" => talk.keep(),
        "undo" => talk.undo(),
        _ => return Ok(false),
    }
    Ok(true)
}

/// What a call, by its words, answers.
fn answer(alloc: Global, talk: &mut Talk, call: &str) -> Result<String, Fail> {
    if changes(talk, call)? {
        return state_text(alloc, talk);
    }
    input_text(alloc, talk, call)
}

/// Each call answers the state, and a packet, of two sessions and a kind, what it means.
#[test]
fn the_table_of_sessions(rt: HostRuntime) -> Result<(), Fail> {
    follow_sections(
        rt.alloc(),
        &|_alloc| Talk::new(5),
        &answer,
        "# each row of a connecting end, which is undone before the next one
        9.4 0.0 CONNECT: 5.1 connecting 0.0, Reply(ConnectAck)
        undo: 5.1 connecting 0.0
        9.4 5.1 CONNECT_ACK: 5.1 up 9.4, WentUp { reply: true }
        undo: 5.1 connecting 0.0
        9.4 5.1 ACK: 5.1 confirmed 9.4, WentUp { reply: false }
        undo: 5.1 connecting 0.0
        9.4 5.1 frame: 5.1 connecting 0.0, Ignored
        9.4 5.2 CONNECT_ACK: 5.1 connecting 0.0, Ignored
        9.4 5.2 ACK: 5.1 connecting 0.0, Ignored

        # each row of an end that is up and not confirmed
        9.4 5.1 CONNECT_ACK: 5.1 up 9.4, WentUp { reply: true }
        keep: 5.1 up 9.4
        9.3 5.1 RESET: 5.1 up 9.4, Ignored
        9.5 0.0 CONNECT: 5.2 connecting 0.0, WentDown
        undo: 5.1 up 9.4
        9.4 0.0 CONNECT: 5.1 up 9.4, HeardReply(Ack)
        9.4 5.0 frame: 5.1 up 9.4, Ignored
        9.4 5.1 RESET: 5.2 connecting 0.0, WentDown
        undo: 5.1 up 9.4
        9.4 5.1 CONNECT_ACK: 5.1 up 9.4, HeardReply(Ack)
        9.4 5.1 ACK: 5.1 confirmed 9.4, Heard
        undo: 5.1 up 9.4
        9.4 5.1 frame: 5.1 confirmed 9.4, Heard

        # an end forgets its peer when lost
        9.4 5.1 CONNECT_ACK: 5.1 up 9.4, WentUp { reply: true }
        lost: 5.2 connecting 0.0

        # an undone event leaves the session as the kept ones did
        9.4 5.1 CONNECT_ACK: 5.1 up 9.4, WentUp { reply: true }
        keep: 5.1 up 9.4
        9.4 5.1 RESET: 5.2 connecting 0.0, WentDown
        restart 6: 6.1 connecting 0.0
        undo: 5.1 up 9.4
        9.4 5.1 RESET: 5.2 connecting 0.0, WentDown
        restart 6: 6.1 connecting 0.0
        undo: 5.1 up 9.4",
    )
}
