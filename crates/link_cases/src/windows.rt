//! The two halves of a window. A frame carries its number as its one byte, but for number 256,
//! which carries 0.

use crate::frames::payload;
use case_words::{follow_sections, front, number_text, text_of, yes_text};
use ethcm_window::{Accept, Rx, Tx};
use linx_base::{Blob, Frame, Frames, NoMemory, SentFrame, SentFrames};
use std::alloc::Global;
use std::fmt::Write;
use std::test::Fail;

/// The byte of the frame of this number.
fn byte_of(number: u32) -> u8 {
    (number % 256) as u8
}

fn frame(alloc: Global, number: u32) -> Result<Frame, Fail> {
    Ok(Frame::Next {
        more: false,
        payload: Blob::of(alloc, [byte_of(number)].as_slice())?,
    })
}

/// Whether a frame carries the byte of this number.
fn carries(frame: &Frame, number: u32) -> bool {
    payload(frame) == [byte_of(number)].as_slice()
}

/// Adds the number of a frame that is sent, which must carry its byte.
fn add_sent(text: &mut String, sent: &SentFrame) -> Result<(), Fail> {
    if !carries(&sent.frame, sent.number) {
        return Err(Fail::from("another frame has this number"));
    }
    write!(text, " {}", sent.number)?;
    Ok(())
}

/// The numbers of frames that are sent.
fn sent_text(alloc: Global, sent: &SentFrames) -> Result<String, Fail> {
    let mut text = String::from_str(alloc, "sends")?;
    for sent in sent.as_slice() {
        add_sent(&mut text, sent)?;
    }
    Ok(text)
}

/// A frame for each of these numbers, as `1 2 3`.
fn frames(alloc: Global, numbers: &str) -> Result<Frames, Fail> {
    let mut frames = Frames::new(alloc);
    for number in numbers.split_whitespace() {
        frames.push(frame(alloc, number.parse()?)?)?;
    }
    Ok(frames)
}

fn offer(tx: &mut Tx, frames: Frames) -> Result<SentFrames, Fail> {
    if frames.len() > tx.left() as usize {
        return Err(Fail::from("no numbers are left"));
    }
    match tx.offer(frames) {
        Ok(sent) => Ok(sent),
        Err(_) => Err(Fail::from(NoMemory)),
    }
}

/// The frames from a number on, so many, are sent again.
fn resend(tx: &Tx, words: &str) -> Result<SentFrames, Fail> {
    let (next, count) = front(words);
    Ok(tx.resend(next.parse()?, count.parse()?)?)
}

/// A frame for each of these numbers is offered.
fn offer_words(alloc: Global, tx: &mut Tx, numbers: &str) -> Result<SentFrames, Fail> {
    let frames = frames(alloc, numbers)?;
    offer(tx, frames)
}

/// All frames below this number are acknowledged.
fn acked(tx: &mut Tx, next: &str) -> Result<SentFrames, Fail> {
    Ok(tx.acked(next.parse()?)?)
}

fn unacknowledged(tx: &Tx) -> Result<SentFrames, Fail> {
    Ok(tx.unacknowledged()?)
}

/// What a call of a sender sends.
fn sent_by(alloc: Global, tx: &mut Tx, word: &str, rest: &str) -> Result<SentFrames, Fail> {
    match word {
        "offer" => offer_words(alloc, tx, rest),
        "acked" => acked(tx, rest),
        "resend" => resend(tx, rest),
        "unacknowledged" => unacknowledged(tx),
        _ => Err(Fail::from("no such call")),
    }
}

/// A call by which frames are sent, and which these are.
fn sends(alloc: Global, tx: &mut Tx, call: &str) -> Result<String, Fail> {
    let (word, rest) = front(call);
    let sent = sent_by(alloc, tx, word, rest)?;
    sent_text(alloc, &sent)
}

/// What a call at a sender, by its words, answers.
fn tx_answer(alloc: Global, tx: &mut Tx, call: &str) -> Result<String, Fail> {
    match call {
        "begin" => tx.begin(),
        "keep" => tx.keep(),
        "undo" => tx.undo(),
        "empty" => return yes_text(alloc, tx.is_empty()),
        "left" => {}
        _ => return sends(alloc, tx, call),
    }
    number_text(alloc, u64::from(tx.left()))
}

fn accept(rx: &mut Rx, number: u32, frame: Frame) -> Result<Accept, Fail> {
    if number == u32::MAX {
        return Err(Fail::from("no number of a frame"));
    }
    match rx.accept(number, frame) {
        Ok(accept) => Ok(accept),
        Err(_) => Err(Fail::from(NoMemory)),
    }
}

fn accepted_text(alloc: Global, number: u32, accept: &Accept) -> Result<String, Fail> {
    match accept {
        Accept::Taken(frame) if carries(frame, number) => text_of(alloc, "taken"),
        Accept::Taken(_) => Err(Fail::from("another frame is taken")),
        Accept::Early { count } => Ok(format!(in alloc; "early {count}")?),
        Accept::Old => text_of(alloc, "old"),
    }
}

/// What a receiver does with the frame of this number.
fn accept_text(alloc: Global, rx: &mut Rx, number: &str) -> Result<String, Fail> {
    let number: u32 = number.parse()?;
    let accept = accept(rx, number, frame(alloc, number)?)?;
    accepted_text(alloc, number, &accept)
}

/// Whether the frame of the expected number is kept, which is taken.
fn next_text(alloc: Global, rx: &mut Rx) -> Result<String, Fail> {
    let number = rx.expected();
    let Some(frame) = rx.ahead() else {
        return text_of(alloc, "none");
    };
    if !carries(frame, number) {
        return Err(Fail::from("another frame is kept"));
    }
    rx.pass();
    text_of(alloc, "taken")
}

/// What a call at a receiver, by its words, answers.
fn rx_answer(alloc: Global, rx: &mut Rx, call: &str) -> Result<String, Fail> {
    match call {
        "begin" => rx.begin(),
        "keep" => rx.keep(),
        "undo" => rx.undo(),
        "next" => return next_text(alloc, rx),
        "expected" => {}
        _ => return accept_text(alloc, rx, call),
    }
    number_text(alloc, u64::from(rx.expected()))
}

/// With a window of two frames. `begin`, `keep` and `undo` answer how many numbers are left.
#[test]
fn a_sender_sends_within_its_window(rt: HostRuntime) -> Result<(), Fail> {
    follow_sections(
        rt.alloc(),
        &|alloc| Tx::new(alloc, 2),
        &tx_answer,
        "# frames follow into the window as others are acknowledged
        offer 0 1 2: sends 0 1
        acked 1: sends 2
        acked 4: sends
        resend 1 1: sends 1
        unacknowledged: sends 1 2
        acked 3: sends
        empty: yes
        left: 4294967292

        # an undone event leaves the sender as the kept ones did
        offer 0 1 2: sends 0 1
        keep: 4294967292
        acked 1: sends 2
        begin: 4294967295
        empty: yes
        undo: 4294967292
        unacknowledged: sends 0 1
        acked 2: sends 2
        keep: 4294967292
        unacknowledged: sends 2
        undo: 4294967292
        unacknowledged: sends 2",
    )
}

/// A number is a frame that comes, and `next` takes the kept one that is expected. `begin`, `keep`
/// and `undo` answer the expected number.
#[test]
fn a_receiver_takes_each_number_once_and_in_order(rt: HostRuntime) -> Result<(), Fail> {
    follow_sections(
        rt.alloc(),
        &Rx::new,
        &rx_answer,
        "# numbers are taken in order, and what comes early is kept
        1: early 1
        3: early 1
        0: taken
        keep: 1
        next: taken
        next: none
        0: old
        expected: 2

        # an undone event leaves the receiver as the kept ones did
        2: early 2
        keep: 0
        4: early 2
        1: early 1
        0: taken
        next: taken
        begin: 0
        7: early 7
        undo: 0
        3: early 2
        0: taken
        next: none

        # a frame is kept less than 256 above the expected one, and 256 is the count where none is
        256: early 256
        255: early 255",
    )
}
