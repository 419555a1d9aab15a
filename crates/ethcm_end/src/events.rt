//! The events of an end: a packet comes, a tick comes, a message is offered. After a refusal the
//! event is to be undone.

ghost use Rattle.std.specs.Prelude.{◌≡◌, ◌≤◌, IfOk, OnOk};
ghost use Rattle.linx_base.specs.Frames.{IsMessage};
ghost use Rattle.ethcm_headers.specs.Packets.{IsPart};
ghost use Rattle.ethcm_session.specs.Table.{HasNext};
ghost use Rattle.ethcm_window.specs.Sending.{left_of, unacknowledged};
ghost use Rattle.ethcm_end.specs.States.{gives};
ghost use Rattle.ethcm_end.specs.Rules.{gone_up, input_of, kind_in, offer_of, sent_or_ack, tick_of};

use crate::answers::{Input, Ticked};
use crate::data::take_part;
use crate::parts::Parts;
use ethcm_headers::{Packet, Part};
use ethcm_session::{Alive, Change};
use fragmenter::pieces;
use linx_base::{ConnKind, Message, NoMemory, Session};

/// The kind of a part, `None` for data, ACK and NACK of frames.
fn kind_of(part: &Part) -> Option<ConnKind>
    ensures { result ≡ kind_in part.now }
{
    match part {
        Part::Conn(kind) => Some(*kind),
        Part::Ack { .. } | Part::Nack { .. } | Part::Piece { .. } => None,
    }
}

/// The end went up: it begins anew, and replies an ACK or doesn't.
fn go_up(parts: &mut Parts, src: Session, reply: bool) -> Result<(), NoMemory>
    ensures is { OnOk result (parts.new.is ≡ gone_up parts.old.is src reply) }
    ensures was { parts.new.was ≡ parts.old.was }
{
    parts.begin();
    if reply {
        return parts.reply(src, ConnKind::Ack);
    }
    Ok(())
}

/// A packet comes.
#[tactic(auto, unfolding(crate::specs::Rules::input_of))]
pub(crate) fn take_packet(parts: &mut Parts, packet: Packet) -> Result<Input, NoMemory>
    requires counted { HasNext parts.old.is.talk.mine }
    requires within { IsPart packet.part }
    ensures reaction { let reaction = input_of parts.old.is packet in
        IfOk result (λ handed. gives parts.new.is handed ≡ reaction) }
    ensures was { parts.new.was ≡ parts.old.was }
{
    let kind = kind_of(&packet.part);
    let src = packet.src;
    let change = parts.talk.input(src, packet.dst, kind);
    if let Change::Heard = change {
        parts.hear();
        return take_part(parts, src, packet.part);
    }
    drop(packet.part);
    match change {
        Change::Ignored => Ok(Input::Nothing),
        Change::Heard => unreachable!(),
        Change::HeardReply(kind) => {
            parts.hear();
            parts.reply(src, kind)?;
            Ok(Input::Nothing)
        }
        Change::Reply(kind) => {
            parts.reply(src, kind)?;
            Ok(Input::Nothing)
        }
        Change::WentUp { reply } => {
            go_up(parts, src, reply)?;
            Ok(Input::WentUp)
        }
        Change::WentDown => {
            parts.begin();
            Ok(Input::WentDown)
        }
    }
}

/// Sends again what isn't acknowledged, or an ACK of the session where there is nothing.
fn put_again(parts: &mut Parts, peer: Session) -> Result<(), NoMemory>
    ensures is { let sent = unacknowledged parts.old.is.tx in
        OnOk result (parts.new.is ≡ sent_or_ack parts.old.is peer sent) }
    ensures was { parts.new.was ≡ parts.old.was }
{
    let again = parts.tx.unacknowledged()?;
    if again.is_empty() {
        return parts.put(peer, Part::Conn(ConnKind::Ack));
    }
    parts.put_pieces(peer, again)
}

/// A tick comes.
#[tactic(auto, unfolding(crate::specs::Rules::tick_of))]
pub(crate) fn take_tick(parts: &mut Parts) -> Result<Ticked, NoMemory>
    requires { HasNext parts.old.is.talk.mine }
    ensures reaction { IfOk result (λ ticked. gives parts.new.is ticked ≡ tick_of parts.old.is) }
    ensures was { parts.new.was ≡ parts.old.was }
{
    let Some(peer) = parts.peer() else {
        parts.put(Session(0), Part::Conn(ConnKind::Connect))?;
        return Ok(Ticked::Stays);
    };
    match parts.watch.tick() {
        Alive::Lost => {
            parts.put(peer, Part::Conn(ConnKind::Reset))?;
            parts.go_down();
            Ok(Ticked::WentDown)
        }
        Alive::Yes => {
            parts.asked = false;
            put_again(parts, peer)?;
            Ok(Ticked::Stays)
        }
    }
}

/// A message is offered; while connecting that does nothing.
#[tactic(auto, unfolding(crate::specs::Rules::offer_of))]
pub(crate) fn take_offer(parts: &mut Parts, message: &Message) -> Result<(), NoMemory>
    requires message { IsMessage message.now }
    requires left { 1024 ≤ left_of parts.old.is.tx }
    ensures is { OnOk result (parts.new.is ≡ offer_of parts.old.is message.now) }
    ensures was { parts.new.was ≡ parts.old.was }
{
    let Some(peer) = parts.peer() else {
        return Ok(());
    };
    let frames = pieces(parts.alloc, message, parts.piece())?;
    match parts.tx.offer(frames) {
        Err((refusal, _frames)) => Err(refusal),
        Ok(sent) => parts.put_pieces(peer, sent),
    }
}
