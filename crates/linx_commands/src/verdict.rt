//! The verdict on a printed text, which is written where it is a good one.

ghost use Rattle.std.specs.Prelude.{◌≡◌, ◌++◌, true, IfOk};
ghost use Rattle.linx_commands.specs.Causes.{is_of_writing};
ghost use Rattle.linx_commands.specs.Streams.{Writes};
ghost use Rattle.linx_commands.specs.Verdicts.{verdict_line};

use crate::outcome::Status;
use crate::serving::write_text;
use itoa::Buffer;
use linx_base::NoMemory;
use linx_outside::Sink;
use std::alloc::Global;

/// The line of a verdict: its word, and how many steps the text has.
fn verdict_line(alloc: Global, word: &str, steps: u64) -> Result<Vec<u8>, NoMemory>
    ensures { IfOk result (λ line. line.items ≡ verdict_line word.now steps) }
{
    let mut line = Vec::new(alloc);
    line.extend_from_slice(word.as_bytes())?;
    line.push(b' ')?;
    line.extend_from_slice(Buffer::new().format(steps).as_bytes())?;
    line.push(b'\n')?;
    Ok(line)
}

/// It goes to the sink.
pub(crate) fn write_verdict<K: Sink>(alloc: Global, word: &str, steps: u64, out: &mut K) -> Status
    ensures kinds { is_of_writing result ≡ true }
    ensures sink { Writes K.held K.faults K.last_count K.can_take out.old out.new
        result (verdict_line word.now steps) }
{
    match verdict_line(alloc, word, steps) {
        Ok(line) => write_text(line.as_slice(), out),
        Err(NoMemory) => Status::NoMemory,
    }
}
