ghost use Rattle.std.specs.Prelude.{◌≡◌, ◌+◌, ◌≤◌, ◌==◌, drop, length, take, IfOk, IfErr, OnOk};
ghost use Rattle.std.specs.Prelude.{OnErr};
ghost use Rattle.linx_base.specs.Both.{still};
ghost use Rattle.ethcm_window.specs.Sending.{number_limit, empty_sender, HasNumbers, numbered_from};
ghost use Rattle.ethcm_window.specs.Sending.{left_of, sent_of, unacknowledged, coming_in};
ghost use Rattle.ethcm_window.specs.Sending.{with_frames, after_ack, sent_again};

use crate::queue::drop_first;
use linx_base::{Frame, Frames, NoMemory, SentFrame, SentFrames, TryCopy};
use std::alloc::Global;
use std::collections::VecDeque;
use std::marker::Model;

/// The sender's half of a window, with a way back. Contracts see it as it was when an event began
/// and as it is now: the window in frames, the number of the first frame that isn't acknowledged,
/// and the frames from it on.
#[derive(Drop)]
pub struct Tx {
    window: u32,
    base: u32,
    /// What was and what is share the queue: a frame that is gone stays in it until the event is
    /// kept.
    frames: VecDeque<Frame>,
    /// How many of the first frames were acknowledged, or dropped by `begin`, since the event
    /// began.
    gone: usize,
    old_base: u32,
    old_len: usize,
}

impl Model for Tx {
    ghost use Rattle.std.specs.Prelude.{take, drop};
    ghost use Rattle.linx_base.specs.Both.{Both};
    ghost use Rattle.ethcm_window.specs.Sending.{Sender};
    ghost use Rattle.ethcm_window.specs.WaysBack.{SharesFrames};

    ghost Value = { Both Sender };

    ghost view = { λ t. record {
      was = record {
        window = t.window;
        base = t.old_base;
        frames = take t.old_len t.frames.items;
      };
      is = record { window = t.window; base = t.base; frames = drop t.gone t.frames.items };
    } };

    ghost invariant = { λ t. SharesFrames t.frames.items t.gone t.base t.old_len t.old_base };
}

/// Copies of `count` frames from a place on, with numbers from `number` on.
fn numbered(
    number: u32,
    frames: &VecDeque<Frame>,
    place: usize,
    count: usize,
) -> Result<SentFrames, NoMemory>
    requires within { place + count ≤ length frames.now.items }
    requires given { number + count ≤ number_limit }
    ensures { let copied = take count (drop place frames.now.items) in
        IfOk result (λ sent. sent ≡ numbered_from number copied) }
{
    let mut sent = Vec::with_capacity(*frames.allocator(), count)?;
    for k in 0..count {
        sent.push(SentFrame {
            number: number + k as u32,
            frame: frames[place + k].copy()?,
        })?;
    }
    Ok(SentFrames::of(sent))
}

impl Tx {
    /// A sender of no frames yet, whose numbers begin at 0. It takes no memory.
    pub fn new(alloc: Global, window: u32) -> Tx
        ensures { result ≡ still (empty_sender window) }
    {
        Tx {
            window,
            base: 0,
            frames: VecDeque::new(alloc),
            gone: 0,
            old_base: 0,
            old_len: 0,
        }
    }

    /// How many frames aren't acknowledged.
    fn len(&self) -> usize
        ensures len { result ≡ length self.now.is.frames }
        ensures given { HasNumbers self.now.is }
    {
        self.frames.len() - self.gone
    }

    /// How many numbers are left to give to frames.
    pub fn left(&self) -> u32
        ensures left { result ≡ left_of self.now.is }
        ensures given { HasNumbers self.now.is }
    {
        u32::MAX - self.base - self.len() as u32
    }

    /// Whether no frame is unacknowledged.
    pub fn is_empty(&self) -> bool
        ensures { result ≡ (length self.now.is.frames == 0) }
    {
        self.len() == 0
    }

    /// How many frames are sent and not acknowledged.
    fn sent(&self) -> usize
        ensures { result ≡ sent_of self.now.is }
    {
        self.len().min(self.window as usize)
    }

    /// Adds frames at the end, and answers those that thereby come into the window. A refusal gives
    /// all back and changes nothing.
    pub fn offer(&mut self, frames: Frames) -> Result<SentFrames, (NoMemory, Frames)>
        requires { length frames ≤ left_of self.old.is }
        ensures sent { IfOk result (λ sent. sent ≡ coming_in self.old.is self.new.is) }
        ensures offered { OnOk result (self.new.is ≡ with_frames self.old.is frames) }
        ensures was { self.new.was ≡ self.old.was }
        ensures err { OnErr result (self.new ≡ self.old) }
        ensures given_back { IfErr result (λ refusal. refusal.1 ≡ frames) }
    {
        let len = self.len();
        let room = self.window as usize - self.sent();
        let next = self.base + len as u32;
        let mut offered = VecDeque::from_vec(frames.into_vec());
        let Ok(coming) = numbered(next, &offered, 0, room.min(offered.len())) else {
            return Err((NoMemory, Frames::of(offered.into_vec())));
        };
        let Ok(()) = self.frames.append(&mut offered) else {
            return Err((NoMemory, Frames::of(offered.into_vec())));
        };
        Ok(coming)
    }

    /// All frames below `next` have arrived: they are gone, and those that thereby come into the
    /// window are answered. Where `next` is below the first one or above those that were sent,
    /// nothing changes and none is answered. A refusal changes nothing.
    pub fn acked(&mut self, next: u32) -> Result<SentFrames, NoMemory>
        ensures sent { IfOk result (λ sent. sent ≡ coming_in self.old.is self.new.is) }
        ensures acked { OnOk result (self.new.is ≡ after_ack self.old.is next) }
        ensures was { self.new.was ≡ self.old.was }
        ensures err { OnErr result (self.new ≡ self.old) }
    {
        let len = self.len();
        let sent = self.sent();
        if next < self.base || sent < (next - self.base) as usize {
            return Ok(SentFrames::new(*self.frames.allocator()));
        }
        let freed = (next - self.base) as usize;
        let coming = numbered(
            self.base + sent as u32,
            &self.frames,
            self.gone + sent,
            (len - sent).min(freed),
        )?;
        self.gone += freed;
        self.base = next;
        Ok(coming)
    }

    /// The frames that are sent and not acknowledged, with their numbers. Their bytes are shared.
    pub fn unacknowledged(&self) -> Result<SentFrames, NoMemory>
        ensures { IfOk result (λ sent. sent ≡ unacknowledged self.now.is) }
    {
        let sent = self.sent();
        // Each frame has a number.
        let _ = self.len();
        numbered(self.base, &self.frames, self.gone, sent)
    }

    /// The frames to send again from `next` on, at most `count` of them. Their bytes are shared.
    pub fn resend(&self, next: u32, count: u32) -> Result<SentFrames, NoMemory>
        ensures { IfOk result (λ again. again ≡ sent_again self.now.is next count) }
    {
        // Each frame has a number.
        let _ = self.len();
        let sent = self.sent();
        let from = sent.min(next.saturating_sub(self.base) as usize);
        numbered(
            self.base + from as u32,
            &self.frames,
            self.gone + from,
            (sent - from).min(count as usize),
        )
    }

    /// A session begins: no frames, and numbers from 0 on. It takes no memory.
    pub fn begin(&mut self)
        ensures is { self.new.is ≡ empty_sender self.old.is.window }
        ensures was { self.new.was ≡ self.old.was }
    {
        self.gone = self.frames.len();
        self.base = 0;
    }

    /// What is now stays. It takes no memory.
    pub fn keep(&mut self)
        ensures { self.new ≡ still self.old.is }
    {
        drop_first(&mut self.frames, self.gone);
        self.gone = 0;
        self.old_base = self.base;
        self.old_len = self.frames.len();
    }

    /// What was is again. It takes no memory.
    pub fn undo(&mut self)
        ensures { self.new ≡ still self.old.was }
    {
        self.frames.truncate(self.old_len);
        self.gone = 0;
        self.base = self.old_base;
    }
}
