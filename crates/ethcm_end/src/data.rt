//! The data rules: what is acknowledged, sent again, taken and asked for. After a refusal the event
//! is to be undone.

ghost use Rattle.std.specs.Prelude.{◌≡◌, ◌<◌, IfOk, OnOk, IsSome};
ghost use Rattle.ethcm_headers.specs.Packets.{IsPart};
ghost use Rattle.ethcm_session.specs.Table.{HasNext};
ghost use Rattle.ethcm_window.specs.Sending.{number_limit, sent_frame};
ghost use Rattle.ethcm_window.specs.Receiving.{missing_count};
ghost use Rattle.ethcm_end.specs.States.{peer_of, gives};
ghost use Rattle.ethcm_end.specs.Rules.{acked, nacked, ask, data_in, finished, framed_in};
ghost use Rattle.ethcm_end.specs.Rules.{take_behind};

use crate::answers::Input;
use crate::parts::Parts;
use ethcm_headers::Part;
use ethcm_window::{Accept, Rx};
use fragmenter::{Joined, Joiner};
use linx_base::{Frame, NoMemory, Session};

/// All frames below `next` have arrived; those that come into the window are sent.
fn take_ack(parts: &mut Parts, peer: Session, next: u32) -> Result<(), NoMemory>
    ensures is { OnOk result (parts.new.is ≡ acked parts.old.is peer next) }
    ensures was { parts.new.was ≡ parts.old.was }
{
    let sent = parts.tx.acked(next)?;
    parts.put_pieces(peer, sent)
}

/// A NACK: an ACK, and then the missing frames are sent again.
fn take_nack(parts: &mut Parts, peer: Session, next: u32, count: u32) -> Result<(), NoMemory>
    ensures is { OnOk result (parts.new.is ≡ nacked parts.old.is peer next count) }
    ensures was { parts.new.was ≡ parts.old.was }
{
    take_ack(parts, peer, next)?;
    let again = parts.tx.resend(next, count)?;
    parts.put_pieces(peer, again)
}

/// The frame of the expected number was taken out; it goes to the joiner, and then those that are
/// kept behind it, until a message is whole.
fn join_frames(rx: &mut Rx, joiner: &mut Joiner, frame: Frame) -> Result<Joined, NoMemory>
    ensures rx { let taken = take_behind rx.old.is joiner.old.is frame in
        OnOk result (rx.new.is ≡ taken.rx) }
    ensures joiner { let taken = take_behind rx.old.is joiner.old.is frame in
        OnOk result (joiner.new.is ≡ taken.held) }
    ensures made { let taken = take_behind rx.old.is joiner.old.is frame in
        IfOk result (λ made. made ≡ taken.made) }
    ensures rx_was { rx.new.was ≡ rx.old.was }
    ensures joiner_was { joiner.new.was ≡ joiner.old.was }
{
    let mut made = joiner.add(&frame)?;
    'joining: while let Joined::More = made {
        // The kept frames rise in number from the expected one on.
        let _ = rx.expected();
        match rx.ahead() {
            None => return Ok(Joined::More),
            Some(next) => made = joiner.add(next)?,
        }
        rx.pass();
    }
    Ok(made)
}

/// Acknowledges what was taken, or goes down where the last frame is broken.
fn finish(parts: &mut Parts, peer: Session, made: Joined) -> Result<Input, NoMemory>
    requires up { IsSome (peer_of parts.old.is) }
    requires counted { HasNext parts.old.is.talk.mine }
    ensures reaction { let reaction = finished parts.old.is peer made in
        IfOk result (λ handed. gives parts.new.is handed ≡ reaction) }
    ensures was { parts.new.was ≡ parts.old.was }
{
    match made {
        Joined::More => {
            parts.put_ack(peer)?;
            Ok(Input::Nothing)
        }
        Joined::Whole(message) => {
            parts.put_ack(peer)?;
            Ok(Input::Got(message))
        }
        Joined::Broken => {
            parts.go_down();
            Ok(Input::WentDown)
        }
    }
}

/// Asks for what is missing, unless that was done since the last taken frame and the last tick.
fn ask(parts: &mut Parts, peer: Session, count: u32) -> Result<(), NoMemory>
    requires { count ≡ missing_count parts.old.is.rx.expected parts.old.is.rx.kept }
    ensures is { OnOk result (parts.new.is ≡ ask parts.old.is peer) }
    ensures was { parts.new.was ≡ parts.old.was }
{
    if parts.asked {
        return Ok(());
    }
    let next = parts.rx.expected();
    parts.put(peer, Part::Nack { next, count })?;
    parts.asked = true;
    Ok(())
}

/// A frame with its number.
fn take_frame(parts: &mut Parts, peer: Session, seq: u32, frame: Frame) -> Result<Input, NoMemory>
    requires up { IsSome (peer_of parts.old.is) }
    requires counted { HasNext parts.old.is.talk.mine }
    requires numbered { seq < number_limit }
    ensures reaction { let reaction = framed_in parts.old.is peer (sent_frame seq frame) in
        IfOk result (λ handed. gives parts.new.is handed ≡ reaction) }
    ensures was { parts.new.was ≡ parts.old.was }
{
    match parts.rx.accept(seq, frame) {
        Err((refusal, _frame)) => Err(refusal),
        Ok(Accept::Taken(frame)) => {
            let made = join_frames(&mut parts.rx, &mut parts.joiner, frame)?;
            parts.asked = false;
            finish(parts, peer, made)
        }
        Ok(Accept::Early { count }) => {
            ask(parts, peer, count)?;
            Ok(Input::Nothing)
        }
        Ok(Accept::Old) => {
            parts.put_ack(peer)?;
            Ok(Input::Nothing)
        }
    }
}

/// The data rules, for an end that is up and heard its peer.
#[tactic(auto, unfolding(crate::specs::Rules::data_in))]
pub(crate) fn take_part(parts: &mut Parts, peer: Session, part: Part) -> Result<Input, NoMemory>
    requires up { IsSome (peer_of parts.old.is) }
    requires counted { HasNext parts.old.is.talk.mine }
    requires within { IsPart part }
    ensures reaction { let reaction = data_in parts.old.is peer part in
        IfOk result (λ handed. gives parts.new.is handed ≡ reaction) }
    ensures was { parts.new.was ≡ parts.old.was }
{
    match part {
        Part::Conn(_) => Ok(Input::Nothing),
        Part::Ack { next } => {
            take_ack(parts, peer, next)?;
            Ok(Input::Nothing)
        }
        Part::Nack { next, count } => {
            take_nack(parts, peer, next, count)?;
            Ok(Input::Nothing)
        }
        Part::Piece { next, seq, frame } => {
            take_ack(parts, peer, next)?;
            take_frame(parts, peer, seq, frame)
        }
    }
}
