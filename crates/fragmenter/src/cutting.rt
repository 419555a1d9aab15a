ghost use Rattle.std.specs.Prelude.{◌≡◌, ◌≤◌, length, IfOk, All};
ghost use Rattle.linx_base.specs.Frames.{IsMessage, IsFrame};
ghost use Rattle.fragmenter.specs.Pieces.{pieces_of, IsCutInto};

use linx_base::{Frame, Frames, Message, NoMemory};
use std::alloc::Global;

/// The frames of a message: payloads of `piece` bytes, 64 to 8,192, the last of which may be
/// shorter. They share the bytes of the body, which are 1 to 65,536.
pub fn pieces(alloc: Global, message: &Message, piece: u32) -> Result<Frames, NoMemory>
    requires piece_from { 64 ≤ piece }
    requires piece_to { piece ≤ 8192 }
    requires message { IsMessage message.now }
    ensures pieces { IfOk result (λ frames. frames ≡ pieces_of message.now piece) }
    ensures cut { IfOk result (IsCutInto message.now piece) }
    ensures fit { IfOk result (All IsFrame) }
    ensures few { IfOk result (λ frames. length frames ≤ 1024) }
{
    let size = message.body.len();
    let each = piece as usize;
    let mut frames = Vec::with_capacity(alloc, size.div_ceil(each))?;
    let mut from = each.min(size);
    frames.push(Frame::First {
        more: from < size,
        from: message.from,
        to: message.to,
        size: size as u32,
        payload: message.body.part(0, from)?,
    })?;
    'cutting: while from < size {
        let to = (from + each).min(size);
        frames.push(Frame::Next {
            more: to < size,
            payload: message.body.part(from, to)?,
        })?;
        from = to;
    }
    Ok(Frames::of(frames))
}
