//! Messages cut into pieces, and pieces joined.

use crate::frames::payload;
use case_words::{follow_sections, front, text_of};
use fragmenter::{Joined, Joiner, pieces};
use linx_base::{Blob, Frame, Frames, Message};
use std::alloc::Global;
use std::fmt::Write;
use std::test::Fail;

/// The body of a message, the frames that it was cut into, and a joiner.
#[derive(Drop)]
struct Cutting {
    body: Vec<u8>,
    frames: Frames,
    joiner: Joiner,
}

/// A body of so many bytes, which differ from place to place.
fn body_of(alloc: Global, size: u32) -> Result<Vec<u8>, Fail> {
    let mut body = Vec::new(alloc);
    for place in 0..size {
        body.push((place % 251) as u8)?;
    }
    Ok(body)
}

/// A message from 7 to 9.
fn message_of(alloc: Global, body: &[u8]) -> Result<Message, Fail> {
    Ok(Message {
        from: 7,
        to: 9,
        body: Blob::of(alloc, body)?,
    })
}

/// A message is cut into pieces of 64 bytes.
fn cut(alloc: Global, message: &Message) -> Result<Frames, Fail> {
    if message.body.is_empty() || message.body.len() > 65_536 {
        return Err(Fail::from("no message"));
    }
    Ok(pieces(alloc, message, 64)?)
}

/// Adds how many bytes a frame carries.
fn add_size(text: &mut String, frame: &Frame) -> Result<(), Fail> {
    write!(text, " {}", payload(frame).len())?;
    Ok(())
}

/// The sizes of the last frames, four at most, behind the number of those before.
fn sizes(alloc: Global, frames: &Frames) -> Result<String, Fail> {
    let first = frames.len().saturating_sub(4);
    let mut text = format!(in alloc; "{first} and")?;
    for frame in frames.as_slice().iter().skip(first) {
        add_size(&mut text, frame)?;
    }
    Ok(text)
}

/// The message that is whole is the one that was cut.
fn whole_text(alloc: Global, whole: &Message, body: &[u8]) -> Result<String, Fail> {
    if whole.from != 7 || whole.to != 9 || whole.body.bytes() != body {
        return Err(Fail::from("another message"));
    }
    text_of(alloc, "whole")
}

/// What a joiner answers: `more`, `broken`, or whether the whole message has this body.
fn joined_text(alloc: Global, joined: &Joined, body: &[u8]) -> Result<String, Fail> {
    match joined {
        Joined::More => text_of(alloc, "more"),
        Joined::Whole(whole) => whole_text(alloc, whole, body),
        Joined::Broken => text_of(alloc, "broken"),
    }
}

/// A frame is added.
fn add(alloc: Global, joiner: &mut Joiner, frame: &Frame, body: &[u8]) -> Result<String, Fail> {
    let joined = joiner.add(frame)?;
    joined_text(alloc, &joined, body)
}

impl Cutting {
    /// A message of so many bytes is cut.
    fn cut(&mut self, alloc: Global, size: &str) -> Result<String, Fail> {
        self.body = body_of(alloc, size.parse()?)?;
        self.frames = cut(alloc, &message_of(alloc, &self.body)?)?;
        sizes(alloc, &self.frames)
    }

    /// The frames from a place on are added, so many. The answer is of the last one; there is more
    /// behind each of the others.
    fn add(&mut self, alloc: Global, from: usize, count: usize) -> Result<String, Fail> {
        let mut text = text_of(alloc, "more")?;
        for frame in self.frames.as_slice().iter().skip(from).take(count) {
            if text.as_str() != "more" {
                return Err(Fail::from("not more"));
            }
            text = add(alloc, &mut self.joiner, frame, &self.body)?;
        }
        Ok(text)
    }

    /// The pieces from a place on, so many, as `0 3`, are added.
    fn add_words(&mut self, alloc: Global, places: &str) -> Result<String, Fail> {
        let (from, count) = front(places);
        self.add(alloc, from.parse()?, count.parse()?)
    }

    /// The joiner is cleared, or its event stays or is undone.
    fn ends_event(&mut self, word: &str) -> Result<(), Fail> {
        match word {
            "clear" => self.joiner.clear(),
            "keep" => self.joiner.keep(),
            "undo" => self.joiner.undo(),
            _ => return Err(Fail::from("no such call")),
        }
        Ok(())
    }

    /// Whether the joiner is inside a message, after a call.
    fn inside_text(&mut self, alloc: Global, word: &str) -> Result<String, Fail> {
        self.ends_event(word)?;
        text_of(
            alloc,
            if self.joiner.is_inside() {
                "inside"
            } else {
                "outside"
            },
        )
    }
}

fn new_cutting(alloc: Global) -> Cutting {
    Cutting {
        body: Vec::new(alloc),
        frames: Frames::new(alloc),
        joiner: Joiner::new(alloc),
    }
}

/// What a call, by its words, answers.
fn answer(alloc: Global, cutting: &mut Cutting, call: &str) -> Result<String, Fail> {
    let (word, rest) = front(call);
    match word {
        "cut" => cutting.cut(alloc, rest),
        "add" => cutting.add_words(alloc, rest),
        _ => cutting.inside_text(alloc, word),
    }
}

/// `cut` answers the sizes of the last four frames, and how many there are before; `add` adds the
/// frames from a place on, so many; the other calls answer where the joiner is then.
#[test]
fn messages_are_cut_and_joined(rt: HostRuntime) -> Result<(), Fail> {
    follow_sections(
        rt.alloc(),
        &new_cutting,
        &answer,
        "# a body of 130 bytes has three pieces
        cut 130: 0 and 64 64 2
        add 0 1: more
        add 1 1: more
        add 2 1: whole
        keep: outside

        # an undone event leaves the pieces of before
        cut 200: 0 and 64 64 64 8
        add 0 1: more
        keep: inside
        add 1 3: whole
        add 0 1: more
        add 0 1: broken
        undo: inside
        add 1 3: whole
        clear: outside
        keep: outside

        # a next frame outside a message is broken
        cut 65: 0 and 64 1
        add 1 1: broken

        # the largest body has 1024 pieces, and joins to itself
        cut 65536: 1020 and 64 64 64 64
        add 0 1024: whole",
    )
}
