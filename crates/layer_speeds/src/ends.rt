//! A piece of 1,400 bytes on its way from one end of a link to the other: cut, sent, written, read,
//! taken, joined and acknowledged. The sender has twice its window ahead, so the window is always
//! full; a message has 40 pieces.

use crate::watch::{Times, Watch};
use anyhow::Context;
use ethcm_end::{End, Input};
use ethcm_headers::PacketBytes;
use linx_base::{Blob, Message, NoMemory};
use std::alloc::Global;
use std::collections::VecDeque;
use std::io::Print;
use std::mem;
use std::time::Clock;

/// The pieces of a message.
const PIECES: u32 = 40;

fn message(alloc: Global) -> anyhow::Result<Message> {
    let body = vec![in alloc; 0x5a; 56_000].context("body")?;
    Ok(Message {
        from: 7,
        to: 9,
        body: Blob::shared(body).context("body")?,
    })
}

/// The event stays, and all that the end sends is put on the wire.
fn put_all(end: &mut End, wire: &mut VecDeque<PacketBytes>) -> anyhow::Result<()> {
    for _ in 0..u64::MAX {
        let Some(bytes) = end.out().context("out")? else {
            break;
        };
        let Ok(()) = wire.push_back(bytes) else {
            return Err(NoMemory).context("wire");
        };
    }
    end.keep();
    Ok(())
}

/// The next packet of a wire comes. The answer is whether a message is whole.
fn take(
    end: &mut End,
    from: &mut VecDeque<PacketBytes>,
    to: &mut VecDeque<PacketBytes>,
) -> anyhow::Result<bool> {
    let Some(bytes) = from.pop_front() else {
        return Ok(false);
    };
    if end.mine().count() == u32::MAX {
        return Ok(false);
    }
    let handed = end.input(&bytes).context("input")?;
    put_all(end, to)?;
    match handed {
        Input::Got(_message) => Ok(true),
        _ => Ok(false),
    }
}

/// Two ends, and what is on the way to each.
#[derive(Drop)]
struct Link {
    first: End,
    second: End,
    to_first: VecDeque<PacketBytes>,
    to_second: VecDeque<PacketBytes>,
}

impl Link {
    fn new(alloc: Global, window: u32) -> Link {
        Link {
            first: End::new(alloc, 1, window, 1_400),
            second: End::new(alloc, 1, window, 1_400),
            to_first: VecDeque::new(alloc),
            to_second: VecDeque::new(alloc),
        }
    }
}

/// The next packet of each wire comes. The answer is whether a message is whole at the second end.
fn exchange(link: &mut Link) -> anyhow::Result<bool> {
    let whole = take(&mut link.second, &mut link.to_second, &mut link.to_first)?;
    let _ = take(&mut link.first, &mut link.to_first, &mut link.to_second)?;
    Ok(whole)
}

fn tick(link: &mut Link) -> anyhow::Result<()> {
    if link.first.mine().count() == u32::MAX {
        return Ok(());
    }
    let _ = link.first.tick().context("tick")?;
    put_all(&mut link.first, &mut link.to_second)
}

fn offer(link: &mut Link, message: &Message) -> anyhow::Result<()> {
    if message.body.is_empty() || message.body.len() > 65_536 || link.first.frames_left() < 1_024 {
        return Ok(());
    }
    link.first.offer(message).context("offer")?;
    put_all(&mut link.first, &mut link.to_second)
}

/// The first end asks, and both go up.
fn connect(link: &mut Link) -> anyhow::Result<()> {
    tick(link)?;
    for _ in 0..2 {
        let _ = exchange(link)?;
    }
    Ok(())
}

/// So many pieces go to the second end. The answer is how many messages are whole there.
fn send(link: &mut Link, message: &Message, window: u32, pieces: u32) -> anyhow::Result<u32> {
    let mut offered: u32 = 0;
    let mut whole: u32 = 0;
    for taken in 0..pieces {
        if offered < pieces && offered < taken.saturating_add(window.saturating_mul(2)) {
            offer(link, message)?;
            offered = offered.saturating_add(PIECES);
        }
        if exchange(link)? {
            whole = whole.saturating_add(1);
        }
    }
    Ok(whole)
}

/// Both ends go up, and so many pieces are sent.
fn pieces<R: Clock + Print>(
    rt: &R,
    alloc: Global,
    times: Times,
    link: &mut Link,
    window: u32,
    count: u32,
) -> anyhow::Result<()> {
    let message = message(alloc)?;
    connect(link)?;
    let watch = Watch::new(rt, times)?;
    let whole = send(link, &message, window, count)?;
    let done = format!(in alloc; "window {window}, {count} pieces, {whole} messages")?;
    watch.tell_each(rt, done.as_str(), count)
}

/// The same over a link of its own. It is never dropped, since to prove the drops of all that it
/// has takes longer than the rest of this file.
fn pieces_anew<R: Clock + Print>(
    rt: &R,
    alloc: Global,
    times: Times,
    window: u32,
    count: u32,
) -> anyhow::Result<()> {
    let mut link = Link::new(alloc, window);
    let outcome = pieces(rt, alloc, times, &mut link, window, count);
    mem::forget(link);
    outcome
}

/// So many pieces go over a link, and before them a quarter of these over one of its own.
pub fn work<R: Clock + Print>(
    rt: &R,
    alloc: Global,
    size: u32,
    times: Times,
) -> anyhow::Result<()> {
    for window in [32, 256] {
        for count in [size / 4, size] {
            pieces_anew(rt, alloc, times, window, count)?;
        }
    }
    Ok(())
}
