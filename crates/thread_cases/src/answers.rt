//! What the answers of a fabric say, as text.

use fabric::{StepStop, StopCause};
use journal::{Detached, Refusal, SentTo};
use linx_base::{Inc, Item, Kind, Peer, Signal};
use node_kernel::StepAnswer;
use std::alloc::{AllocError, Global};

/// What a call answered.
pub type Answer = Result<StepAnswer, StepStop>;

fn inc_text(alloc: Global, inc: Inc) -> Result<String, AllocError> {
    format!(in alloc; "{}.{}", inc.node().0, inc.0 % (1 << 32))
}

/// An incarnation of the own node, or one behind a link.
fn peer_text(alloc: Global, peer: Peer) -> Result<String, AllocError> {
    match peer {
        Peer::Here(inc) => inc_text(alloc, inc),
        Peer::There { link, inc, .. } => {
            let inc = inc_text(alloc, inc)?;
            format!(in alloc; "{inc} over {}", link.0)
        }
    }
}

/// The number and the data of a signal.
fn signal_text(alloc: Global, signal: &Signal) -> Result<String, AllocError> {
    let data = str::from_utf8(signal.bytes()).unwrap_or("?");
    format!(in alloc; "{} {data}", signal.number())
}

/// What an item is, its sender and its signal.
fn item_text(alloc: Global, item: &Item) -> Result<String, AllocError> {
    let kind = match &item.kind {
        Kind::Plain => "took",
        Kind::Found(_) => "found",
        Kind::Notice(_) => "noticed",
    };
    let (from, signal) = (
        peer_text(alloc, item.from)?,
        signal_text(alloc, &item.signal)?,
    );
    format!(in alloc; "{kind} {from} {signal}")
}

fn sent_text(sent: SentTo) -> &'static str {
    match sent {
        SentTo::Queued => "queued",
        SentTo::Link => "link",
        SentTo::Dead => "dead",
    }
}

fn detached_text(detached: Detached) -> &'static str {
    match detached {
        Detached::Pending => "detached pending",
        Detached::Queued => "detached queued",
        Detached::None => "detached none",
    }
}

fn refusal_text(refusal: Refusal) -> &'static str {
    match refusal {
        Refusal::NotOpen { .. } => "refused not-open",
        Refusal::IsOpen { .. } => "refused is-open",
        Refusal::NoPeer => "refused no-peer",
        Refusal::NoSignal => "refused no-signal",
        Refusal::NoRef => "refused no-ref",
    }
}

/// The cause of a stop, and the number and the data of what came back.
fn stop_text(alloc: Global, stop: &StepStop) -> Result<String, AllocError> {
    let cause = match stop.cause {
        StopCause::JournalFull => "full",
        StopCause::NoMemory => "no memory",
    };
    match &stop.hand {
        None => String::from_str(alloc, cause),
        Some(signal) => {
            let signal = signal_text(alloc, signal)?;
            format!(in alloc; "{cause} {signal}")
        }
    }
}

fn step_text(alloc: Global, answer: &StepAnswer) -> Result<String, AllocError> {
    let word = match answer {
        StepAnswer::Opened(inc) => {
            let inc = inc_text(alloc, *inc)?;
            return format!(in alloc; "opened {inc}");
        }
        StepAnswer::Took(item) => return item_text(alloc, item),
        StepAnswer::Sent(sent) => sent_text(*sent),
        StepAnswer::Closed => "closed",
        StepAnswer::Nothing => "nothing",
        StepAnswer::NotYet => "not yet",
        StepAnswer::Hunted(_) => "hunted",
        StepAnswer::Attached(reference) => {
            return format!(in alloc; "attached @{}", reference.0);
        }
        StepAnswer::Detached(detached) => detached_text(*detached),
        StepAnswer::Done => "done",
        StepAnswer::Refused(refusal) => refusal_text(*refusal),
    };
    String::from_str(alloc, word)
}

pub fn answer_text(alloc: Global, answer: &Answer) -> Result<String, AllocError> {
    match answer {
        Ok(answer) => step_text(alloc, answer),
        Err(stop) => stop_text(alloc, stop),
    }
}
