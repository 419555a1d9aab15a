ghost use Rattle.std.specs.Prelude.{◌≡◌, ◌↔◌, ◌+◌, ◌<◌, ◌≤◌, ◌++◌, List, ℕ, [], ◌∷◌, None, true};
ghost use Rattle.std.specs.Prelude.{length, drop, IfOk, OnOk, OnErr, is_some};
ghost use Rattle.linx_base.specs.Both.{still};
ghost use Rattle.linx_base.specs.Frames.{has_more, payload_of};
ghost use Rattle.fragmenter.specs.Joining.{LacksBytes, held_after, joiner_answer};
ghost use Rattle.fragmenter.specs.Holding.{joined, begun_in, Counts, judged_by, IsFate};

use linx_base::{Blob, Bytes, Frame, Message, NoMemory, TryCopy};
use std::alloc::Global;
use std::marker::Model;

/// What a frame makes of the pieces before it.
#[derive(Drop)]
pub enum Joined {
    /// The message lacks further pieces.
    More,
    /// The frame was the last piece of this message.
    Whole(Message),
    /// The frame doesn't fit the pieces before it.
    Broken,
}

/// How far a message has come: its addresses, the size of its whole body, and how many bytes of it
/// have come.
#[derive(Clone, Copy)]
struct Progress {
    from: u32,
    to: u32,
    size: u32,
    came: usize,
}

/// What becomes of a message by a frame.
#[derive(Clone, Copy)]
enum Fate {
    /// It has come so far, and lacks further pieces.
    GoesOn(Progress),
    /// The frame has its last piece.
    Completes(Progress),
    /// The frame doesn't fit.
    Breaks,
}

/// What a payload makes of a message.
fn judge_payload(progress: Progress, more: bool, count: usize) -> Fate
    requires { progress.came ≤ progress.size }
    ensures { result ≡ judged_by progress more count }
{
    let lacking = progress.size as usize - progress.came;
    if more {
        if count < lacking {
            return Fate::GoesOn(Progress {
                came: progress.came + count,
                ..progress
            });
        }
        return Fate::Breaks;
    }
    if count == lacking {
        return Fate::Completes(progress);
    }
    Fate::Breaks
}

/// What a frame makes of the message so far.
fn judge(begun: Option<Progress>, frame: &Frame) -> Fate
    requires { (parts : List (List ℕ)) × Counts begun parts }
    ensures { (parts : List (List ℕ)) → Counts begun parts
        → IsFate result parts (begun_in begun parts) frame.now }
{
    match (begun, frame) {
        (
            None,
            Frame::First {
                more,
                from,
                to,
                size,
                payload,
            },
        ) => {
            let progress = Progress {
                from: *from,
                to: *to,
                size: *size,
                came: 0,
            };
            judge_payload(progress, *more, payload.len())
        }
        (Some(progress), Frame::Next { more, payload }) => {
            judge_payload(progress, *more, payload.len())
        }
        _ => Fate::Breaks,
    }
}

/// The most parts before the last one that are joined one by one. A join that can't be shared copies
/// what is joined so far, so with these it copies the message less than five times.
const FEW_PARTS: usize = 7;

/// The bytes of the parts, and then those of the last one. Where one buffer has all next to each
/// other it is shared.
fn join_shared(parts: &[Blob], last: &Blob) -> Result<Blob, NoMemory>
    ensures { IfOk result (λ body. body ≡ joined (parts.now ++ last.now ∷ [])) }
{
    let mut body = last.copy()?;
    for k in 0..parts.len() {
        body = body.behind(parts[parts.len() - 1 - k].bytes())?;
    }
    Ok(body)
}

/// The bytes of the parts, and then those of the last one, copied once.
fn join_copied(alloc: Global, parts: &[Blob], last: &Blob, size: usize) -> Result<Blob, NoMemory>
    ensures { IfOk result (λ body. body ≡ joined (parts.now ++ last.now ∷ [])) }
{
    let mut bytes = Bytes::with_room(alloc, size)?;
    for part in parts {
        bytes.extend(part.bytes())?;
    }
    bytes.extend(last.bytes())?;
    bytes.into_blob()
}

/// The bytes of the parts, and then those of the last one. The parts of a message mostly lie next
/// to each other in the buffer that its sender has.
fn join(alloc: Global, parts: &[Blob], last: &Blob, size: usize) -> Result<Blob, NoMemory>
    ensures { IfOk result (λ body. body ≡ joined (parts.now ++ last.now ∷ [])) }
{
    if parts.len() <= FEW_PARTS {
        join_shared(parts, last)
    } else {
        join_copied(alloc, parts, last, size)
    }
}

/// The bytes that a frame carries.
fn payload_of(frame: &Frame) -> &Blob
    ensures { result.now ≡ payload_of frame.now }
{
    match frame {
        Frame::First { payload, .. } | Frame::Next { payload, .. } => payload,
    }
}

/// Adds a part at the end. A refusal changes nothing.
fn hold(parts: &mut Vec<Blob>, part: &Blob) -> Result<(), NoMemory>
    ensures ok { OnOk result (parts.new.items ≡ parts.old.items ++ part.now ∷ []) }
    ensures err { OnErr result (parts.new.items ≡ parts.old.items) }
{
    let part = part.copy()?;
    parts.push(part)?;
    Ok(())
}

/// Drops the first parts.
fn drop_front(parts: &mut Vec<Blob>, count: usize)
    requires { count ≤ length parts.old.items }
    ensures { parts.new.items ≡ drop count parts.old.items }
{
    if count == 0 {
        return;
    }
    let rest = parts.len() - count;
    parts.rotate_left(count);
    parts.truncate(rest);
}

/// Joins frames to messages, with a way back: what an event did either stays, or is undone.
/// Contracts see the message that had begun when the event began, and the one that has begun now,
/// `None` outside a message.
#[derive(Drop)]
pub struct Joiner {
    alloc: Global,
    /// The pieces of both messages, those that came in this event behind the others.
    parts: Vec<Blob>,
    /// How many pieces were held when the event began.
    kept: usize,
    was: Option<Progress>,
    /// The place of the first piece of the message that has begun now.
    start: usize,
    is: Option<Progress>,
}

impl Model for Joiner {
    ghost use Rattle.std.specs.Prelude.{◌≤◌, Option, length, take, drop};
    ghost use Rattle.linx_base.specs.Both.{Both};
    ghost use Rattle.fragmenter.specs.Joining.{Begun};
    ghost use Rattle.fragmenter.specs.Holding.{begun_in, Counts};

    ghost Value = { Both (Option Begun) };

    ghost view = { λ j. record {
      was = begun_in j.was (take j.kept j.parts.items);
      is = begun_in j.is (drop j.start j.parts.items);
    } };

    ghost invariant = { λ j. (j.kept ≤ length j.parts.items) × (j.start ≤ length j.parts.items)
        × Counts j.was (take j.kept j.parts.items) × Counts j.is (drop j.start j.parts.items) };
}

impl Joiner {
    ghost use Rattle.fragmenter.specs.Joining.{IsBroken};

    /// A joiner outside a message. It takes no memory.
    pub fn new(alloc: Global) -> Joiner
        ensures { result ≡ still None }
    {
        Joiner {
            alloc,
            parts: Vec::new(alloc),
            kept: 0,
            was: None,
            start: 0,
            is: None,
        }
    }

    /// Whether a message has begun.
    pub fn is_inside(&self) -> bool
        ensures inside { result ≡ is_some self.now.is }
        ensures lacks { LacksBytes self.now.is }
    {
        self.is.is_some()
    }

    /// Adds a frame to the pieces before it. After `Broken` and after `Whole` the joiner is outside
    /// a message. A refusal changes nothing.
    #[tactic(auto, using(crate::proofs::Breaks::broken_exactly, crate::proofs::Breaks::more_exactly))]
    pub fn add(&mut self, frame: &Frame) -> Result<Joined, NoMemory>
        ensures answer { IfOk result (λ answer. answer ≡ joiner_answer self.old.is frame.now) }
        ensures held { OnOk result (self.new.is ≡ held_after self.old.is frame.now) }
        ensures broken { IfOk result
            (λ answer. (answer ≡ Joined.Broken) ↔ IsBroken self.old.is frame.now) }
        ensures more { IfOk result
            (λ answer. (answer ≡ Joined.More)
            ↔ ((¬ IsBroken self.old.is frame.now) × (has_more frame.now ≡ true))) }
        ensures was { self.new.was ≡ self.old.was }
        ensures err { OnErr result (self.new ≡ self.old) }
    {
        match judge(self.is, frame) {
            Fate::GoesOn(progress) => {
                hold(&mut self.parts, payload_of(frame))?;
                self.is = Some(progress);
                Ok(Joined::More)
            }
            Fate::Completes(Progress { from, to, size, .. }) => {
                let parts = &self.parts[self.start..];
                let body = join(self.alloc, parts, payload_of(frame), size as usize)?;
                self.start = self.parts.len();
                self.is = None;
                Ok(Joined::Whole(Message { from, to, body }))
            }
            Fate::Breaks => {
                self.start = self.parts.len();
                self.is = None;
                Ok(Joined::Broken)
            }
        }
    }

    /// Leaves the message that has begun. It takes no memory.
    pub fn clear(&mut self)
        ensures is { self.new.is ≡ None }
        ensures was { self.new.was ≡ self.old.was }
    {
        self.start = self.parts.len();
        self.is = None;
    }

    /// What is now stays. It takes no memory.
    pub fn keep(&mut self)
        ensures { self.new ≡ still self.old.is }
    {
        drop_front(&mut self.parts, self.start);
        self.kept = self.parts.len();
        self.was = self.is;
        self.start = 0;
    }

    /// What was is again. It takes no memory.
    pub fn undo(&mut self)
        ensures { self.new ≡ still self.old.was }
    {
        self.parts.truncate(self.kept);
        self.start = 0;
        self.is = self.was;
    }
}
