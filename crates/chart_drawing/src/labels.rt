//! What is said beside a mark: some words of its line.
ghost use Rattle.std.specs.Prelude.{◌≡◌, ◌++◌, [], OnOk, IfOk};
ghost use Rattle.chart_drawing.specs.Labels.{space_in, first_word, behind_word, behind_words};
ghost use Rattle.chart_drawing.specs.Labels.{colon_in, brief};
ghost use Rattle.chart_drawing.specs.Labels.{word_at, with_word, with_words, send_words};
ghost use Rattle.chart_drawing.specs.Labels.{packet_words, shown_words, label_of};

use crate::rows::put_bytes;
use chart::MarkKind;
use journal::SentTo;
use linx_base::{NoMemory, Verdict};
use std::alloc::Global;

/// How long a digest is, with the colon before it.
const DIGEST: usize = 65;

/// Where the first space is.
fn space_in(bytes: &[u8]) -> Option<usize>
    ensures { result ≡ space_in bytes.now }
{
    bytes.iter().position(|byte| *byte == b' ')
}

/// The bytes before the first space.
fn first_word(bytes: &[u8]) -> &[u8]
    ensures { result.now ≡ first_word bytes.now }
{
    match space_in(bytes) {
        Some(k) => &bytes[..k],
        None => bytes,
    }
}

/// What is behind the first space.
fn behind_word(bytes: &[u8]) -> &[u8]
    ensures { result.now ≡ behind_word bytes.now }
{
    match space_in(bytes) {
        Some(k) => &bytes[k + 1..],
        None => b"",
    }
}

/// What is behind so many words.
#[tactic(auto, using(crate::proofs::Behind::behind_next))]
fn behind_words(count: usize, line: &[u8]) -> &[u8]
    ensures { result.now ≡ behind_words count line.now }
{
    let mut rest = line;
    for _done in 0..count {
        rest = behind_word(rest);
    }
    rest
}

/// Where the first colon is.
fn colon_in(word: &[u8]) -> Option<usize>
    ensures { result ≡ colon_in word.now }
{
    word.iter().position(|byte| *byte == b':')
}

/// Adds a word; of data that a digest stands for only how many bytes there are.
fn put_brief(out: &mut Vec<u8>, word: &[u8]) -> Result<(), NoMemory>
    ensures { OnOk result (out.new.items ≡ out.old.items ++ brief word.now) }
{
    match colon_in(word) {
        Some(k) if word.len() - k == DIGEST => {
            put_bytes(out, b"[")?;
            put_bytes(out, &word[..k])?;
            put_bytes(out, b"B]")
        }
        _ => put_bytes(out, word),
    }
}

/// Adds a word behind others; a dash is left out.
fn put_word(out: &mut Vec<u8>, word: &[u8]) -> Result<(), NoMemory>
    ensures { OnOk result (out.new.items ≡ with_word out.old.items word.now) }
{
    if word == b"-".as_slice() {
        return Ok(());
    }
    if !out.is_empty() {
        put_bytes(out, b" ")?;
    }
    put_brief(out, word)
}

/// Adds these words of a line behind others.
fn put_words_of(out: &mut Vec<u8>, line: &[u8], numbers: &[u8]) -> Result<(), NoMemory>
    ensures { OnOk result (out.new.items ≡ with_words line.now out.old.items numbers.now) }
{
    for number in numbers {
        put_word(out, first_word(behind_words(*number as usize, line)))?;
    }
    Ok(())
}

/// Which words of its line a send shows.
fn send_words(answer: SentTo) -> &'static [u8]
    ensures { result.now ≡ send_words answer }
{
    match answer {
        SentTo::Queued | SentTo::Link => &[3, 4],
        SentTo::Dead => &[3, 4, 5],
    }
}

/// Which words a packet shows.
fn packet_words(verdict: Verdict) -> &'static [u8]
    ensures { result.now ≡ packet_words verdict }
{
    match verdict {
        Verdict::Deliver => &[],
        Verdict::Lose | Verdict::Repeat | Verdict::Swap(_) => &[4],
    }
}

/// Which words of its line a mark shows.
#[tactic(auto, unfolding(crate::specs::Labels::shown_words))]
fn shown_words(kind: MarkKind) -> &'static [u8]
    ensures { result.now ≡ shown_words kind }
{
    match kind {
        MarkKind::Send(answer) => send_words(answer),
        MarkKind::Packet(verdict) => packet_words(verdict),
        MarkKind::Close | MarkKind::TakeNone | MarkKind::Tick | MarkKind::Ended | MarkKind::Gone =>
            &[1],
        MarkKind::Take | MarkKind::Detach(_) => &[1, 3],
        MarkKind::Found | MarkKind::Met | MarkKind::Up | MarkKind::Down => &[1, 4],
        MarkKind::Opened => &[2],
        MarkKind::Closed => &[],
        MarkKind::Arrived => &[4, 5],
        MarkKind::Notified => &[4, 7],
        _ => &[1, 2],
    }
}

/// The label of a mark, in words of its line.
#[tactic(auto, unfolding(crate::specs::Labels::label_of))]
pub(crate) fn label_of(alloc: Global, kind: MarkKind, line: &[u8]) -> Result<Vec<u8>, NoMemory>
    ensures { IfOk result (λ label. label.items ≡ label_of kind line.now) }
{
    let mut label = Vec::new(alloc);
    put_words_of(&mut label, line, shown_words(kind))?;
    Ok(label)
}
