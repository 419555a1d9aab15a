//! What an echo says to a stream, beside what it should say.

use anyhow::Context;
use linx_outside::{MemSink, MemSource};
use request_stream::ServeStop;
use std::alloc::Global;
use stream_echo::serve;

/// More bytes than an answer to a line has.
const ROOM: usize = 1 << 22;

fn end_of(alloc: Global, ended: Result<(), ServeStop>) -> anyhow::Result<String> {
    Ok(match ended {
        Ok(()) => format!(in alloc; "done")?,
        Err(ServeStop::Torn { at }) => format!(in alloc; "torn at {at}")?,
        Err(ServeStop::BadStream { at }) => format!(in alloc; "bad stream at {at}")?,
        Err(_) => format!(in alloc; "stopped")?,
    })
}

/// Whether a stream is answered and ends as its line says: the most bytes a read, the stream, the
/// answer and the end.
pub fn is_answered(alloc: Global, line: &str) -> anyhow::Result<bool> {
    let (most, rest) = line.split_once(" ").context("line")?;
    let (stream, rest) = rest.split_once(" ").context("line")?;
    let (answer, end) = rest.split_once(" ").context("line")?;
    let most: usize = most.parse().ok().context("number")?;
    let bytes = hex::decode(alloc, stream.as_bytes())?;
    let mut source = MemSource::new(bytes, most.max(1), Vec::new(alloc));
    let mut sink = MemSink::new(alloc, 65_536, ROOM, Vec::new(alloc))
        .ok()
        .context("memory")?;
    let ended = serve(alloc, &mut source, &mut sink);
    let answer = hex::decode(alloc, answer.as_bytes())?;
    Ok(sink.held() == answer.as_slice() && end_of(alloc, ended)?.as_str() == end)
}
