//! What cutting and joining promise together. These functions do nothing; their contracts are the
//! laws.

ghost use Rattle.std.specs.Prelude.{◌≡◌, ◌≤◌, ◌∷◌, ◌++◌, List, None, length, if◌then◌else◌, All};
ghost use Rattle.linx_base.specs.declared.frame.Frame.{Frame};
ghost use Rattle.linx_base.specs.Frames.{IsMessage, IsFrame};
ghost use Rattle.fragmenter.specs.Pieces.{is_more, pieces_of, IsCutInto};
ghost use Rattle.fragmenter.specs.Joining.{answers_to, held_after_all, joiner_answer};
ghost use Rattle.fragmenter.specs.Joining.{whole_at_the_last};
ghost use Rattle.fragmenter.specs.Streams.{AllJoinInOrder};

use crate::joiner::Joined;
use linx_base::Message;

/// The pieces of a message, joined from outside a message: `More` at each but the last, and the
/// whole message at the last, which leaves the joiner outside a message. A piece is never empty,
/// and the pieces before it, joined, and then the piece itself answer `More`, or at the last the
/// message.
pub fn pieces_join(message: &Message, piece: u32)
    requires piece_from { 64 ≤ piece }
    requires piece_to { piece ≤ 8192 }
    requires message { IsMessage message.now }
    ensures answers { answers_to None (pieces_of message.now piece)
        ≡ whole_at_the_last message.now (pieces_of message.now piece) }
    ensures outside { held_after_all None (pieces_of message.now piece) ≡ None }
    ensures at_each { (before : List Frame) (frame : Frame) (after : List Frame)
        → pieces_of message.now piece ≡ before ++ frame ∷ after
        → joiner_answer (held_after_all None before) frame
        ≡ (if is_more after then Joined.More else Joined.Whole message.now) }
    ensures cut { IsCutInto message.now piece (pieces_of message.now piece) }
    ensures fit { All IsFrame (pieces_of message.now piece) }
    ensures few { length (pieces_of message.now piece) ≤ 1024 }
{
    let _ = message;
    let _ = piece;
}

/// The frames of messages that are cut one after the other, joined from outside a message: wherever
/// one stops, the messages that were made whole are the first of them, in order, and the joiner
/// holds the pieces of the next one that were taken.
pub fn streams_join(messages: &[Message], piece: u32)
    requires piece_from { 64 ≤ piece }
    requires messages { All IsMessage messages.now }
    ensures { AllJoinInOrder piece messages.now }
{
    let _ = messages;
    let _ = piece;
}
