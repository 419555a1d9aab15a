//! What a kernel answers to a call that a line of text spells. A call that makes a step begins with
//! the step's number.

use crate::kernel_calls::{arrive, attach, close, detach, holds, hunt, open, send, take};
use crate::texts::{effects_text, hunts_text, item_text, name_or_none, peer_text, signal_text};
use case_words::{
    filter_of, front, inc_of, inc_text, link_of, name_of, name_text, number_text, path_of, peer_of,
    session_of, text_of, yes_text,
};
use journal::Detached;
use linx_base::{Peer, Signal};
use node_kernel::{Kernel, Sent};
use std::alloc::Global;
use std::test::Fail;

/// `open NAME`: the incarnation, then the effects; or `full`, and the name.
fn open_text(alloc: Global, kernel: &mut Kernel, rest: &str, step: u64) -> Result<String, Fail> {
    match open(kernel, name_of(alloc, rest)?, step)? {
        Ok(opened) => {
            let inc = inc_text(alloc, opened.inc)?;
            let effects = effects_text(alloc, &opened.effects)?;
            Ok(format!(in alloc; "{inc}: {effects}")?)
        }
        Err(name) => Ok(format!(in alloc; "full {}", name_text(&name))?),
    }
}

/// `fill COUNT NAME`: so many endpoints open. It answers how many opened so far.
fn fill_text(alloc: Global, kernel: &mut Kernel, rest: &str, step: u64) -> Result<String, Fail> {
    let (count, name) = front(rest);
    for _ in 0..count.parse::<u32>()? {
        let _ = open(kernel, name_of(alloc, name)?, step)?;
    }
    number_text(alloc, u64::from(kernel.openings()))
}

/// A signal: its number, and its data as hexadecimal digits or `-` for none, as `252 aa`.
fn signal_of(alloc: Global, text: &str) -> Result<Signal, Fail> {
    let (number, digits) = front(text);
    let digits = if digits == "-" { "" } else { digits };
    let data = hex::decode(alloc, digits)?;
    Ok(Signal::alloc(alloc, number.parse()?, data.as_slice())?)
}

/// `send FROM PEER SIGNAL`: what became of the signal; one that goes to a link is handed out.
fn send_text(alloc: Global, kernel: &mut Kernel, rest: &str, step: u64) -> Result<String, Fail> {
    let (from, rest) = front(rest);
    let (to, signal) = front(rest);
    let (from, to) = (inc_of(from)?, peer_of(to)?);
    match send(kernel, from, to, signal_of(alloc, signal)?, step)? {
        Sent::Queued => text_of(alloc, "queued"),
        Sent::Dead => text_of(alloc, "dead"),
        Sent::Link(signal) => {
            let signal = signal_text(alloc, signal.number(), signal.bytes())?;
            Ok(format!(in alloc; "link {signal}")?)
        }
    }
}

/// `arrive AT PEER SIGNAL`, `attach AT PEER SIGNAL` or `hunt AT PATH SIGNAL`: the effects.
fn signal_call_text(
    alloc: Global,
    kernel: &mut Kernel,
    call: &str,
    rest: &str,
    step: u64,
) -> Result<String, Fail> {
    let (at, rest) = front(rest);
    let (to, signal) = front(rest);
    let (at, signal) = (inc_of(at)?, signal_of(alloc, signal)?);
    let effects = match call {
        "arrive" => arrive(kernel, at, peer_of(to)?, signal, step)?,
        "attach" => attach(kernel, at, peer_of(to)?, signal, step)?,
        _ => hunt(kernel, at, path_of(alloc, to)?, signal, step)?,
    };
    effects_text(alloc, &effects)
}

/// `met PEER NAME`: the effects.
fn met_text(alloc: Global, kernel: &mut Kernel, rest: &str, step: u64) -> Result<String, Fail> {
    let (peer, name) = front(rest);
    let Peer::There { link, session, inc } = peer_of(peer)? else {
        return Err(Fail::from("no peer over a link"));
    };
    let effects = kernel.met(link, session, inc, name_of(alloc, name)?, step)?;
    effects_text(alloc, &effects)
}

/// `down LINK SESSION`: the effects.
fn down_text(alloc: Global, kernel: &mut Kernel, rest: &str, step: u64) -> Result<String, Fail> {
    let (link, session) = front(rest);
    let effects = kernel.down(link_of(link)?, session_of(session)?, step)?;
    effects_text(alloc, &effects)
}

/// A call that makes a step.
fn step_text(
    alloc: Global,
    kernel: &mut Kernel,
    step: u64,
    call: &str,
    rest: &str,
) -> Result<String, Fail> {
    match call {
        "open" => open_text(alloc, kernel, rest, step),
        "fill" => fill_text(alloc, kernel, rest, step),
        "close" => effects_text(alloc, &close(kernel, inc_of(rest)?, step)?),
        "send" => send_text(alloc, kernel, rest, step),
        "arrive" | "attach" | "hunt" => signal_call_text(alloc, kernel, call, rest, step),
        "met" => met_text(alloc, kernel, rest, step),
        "gone" => effects_text(alloc, &kernel.gone(peer_of(rest)?, step)?),
        "down" => down_text(alloc, kernel, rest, step),
        "restart" => effects_text(alloc, &kernel.restart()?),
        _ => Err(Fail::from("no such step")),
    }
}

/// `take AT FILTER`, `holds AT FILTER` or `detach AT STEP`.
fn queue_text(alloc: Global, kernel: &mut Kernel, call: &str, rest: &str) -> Result<String, Fail> {
    let (at, rest) = front(rest);
    let at = inc_of(at)?;
    match call {
        "take" => item_text(alloc, take(kernel, at, &filter_of(alloc, rest)?)?),
        "holds" => yes_text(alloc, holds(kernel, at, &filter_of(alloc, rest)?)?),
        _ => match detach(kernel, at, rest.parse()?)? {
            Detached::Pending => text_of(alloc, "pending"),
            Detached::Queued => text_of(alloc, "queued"),
            Detached::None => text_of(alloc, "none"),
        },
    }
}

/// `find PATH`: the peer that a hunt would find at once.
fn find_text(alloc: Global, kernel: &Kernel, rest: &str) -> Result<String, Fail> {
    match kernel.find(&path_of(alloc, rest)?) {
        Some(peer) => peer_text(alloc, peer),
        None => text_of(alloc, "none"),
    }
}

/// `first NAME`: the first opened endpoint that has the name.
fn first_text(alloc: Global, kernel: &Kernel, rest: &str) -> Result<String, Fail> {
    match kernel.first(&name_of(alloc, rest)?) {
        Some(inc) => inc_text(alloc, inc),
        None => text_of(alloc, "none"),
    }
}

/// A look, which changes nothing.
fn look_text(alloc: Global, kernel: &Kernel, call: &str, rest: &str) -> Result<String, Fail> {
    match call {
        "alive" => yes_text(alloc, kernel.is_living(peer_of(rest)?)),
        "open" => yes_text(alloc, kernel.is_open(inc_of(rest)?)),
        "name" => name_or_none(alloc, kernel.name_of(inc_of(rest)?)),
        "over" => hunts_text(alloc, kernel.hunts_over(link_of(rest)?)),
        "find" => find_text(alloc, kernel, rest),
        "first" => first_text(alloc, kernel, rest),
        _ => Err(Fail::from("no such call")),
    }
}

/// What a call answers: one that makes a step behind the step's number, as `3 open a`, or a look.
pub fn answer(alloc: Global, kernel: &mut Kernel, call: &str) -> Result<String, Fail> {
    let (call, rest) = front(call);
    if let Ok(step) = call.parse::<u64>() {
        let (call, rest) = front(rest);
        return step_text(alloc, kernel, step, call, rest);
    }
    match call {
        "take" | "holds" | "detach" => queue_text(alloc, kernel, call, rest),
        _ => look_text(alloc, kernel, call, rest),
    }
}
