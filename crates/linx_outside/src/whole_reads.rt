ghost use Rattle.std.specs.Prelude.{◌≡◌, ◌+◌, ◌-◌, ◌<◌, ◌≤◌, ◌↔◌, ◌++◌, IfOk, IfErr, OnOk, IfSome};
ghost use Rattle.std.specs.Prelude.{Some, length, take, drop, vec_len, vec_capacity};
ghost use Rattle.linx_outside.specs.Counts.{HasFaulted, NeverFalls};
ghost use Rattle.std.specs.Io.KnownBytes.{IsAtEnd};
ghost use Rattle.linx_outside.specs.Told.{MovesBytes};
ghost use Rattle.linx_outside.specs.Reading.{IfGot, IsGot, IfReadFailed};

use crate::mem_sink::append_within;
use crate::source::{ReadAnswer, Source};
use std::alloc::AllocError;
use std::error::Error;
use std::fmt;

/// Where a read up to a limit stopped.
#[derive(Clone, Copy, Debug, PartialEq, Eq)]
pub enum Reached {
    /// The source ended before the limit.
    End,
    /// As many bytes as the limit says were read. There may be more.
    Limit,
}

/// Why a read up to a limit stopped short.
#[derive(Clone, Copy, Debug, PartialEq, Eq)]
pub enum ReadStop {
    /// A read failed, and the source counted it.
    ReadFault,
    /// Memory was refused.
    NoMemory,
}

impl fmt::Display for ReadStop {
    ghost use Rattle.std.specs.Prelude.{Some};
    ghost use Rattle.linx_outside.specs.Failures.{read_stop_text};

    ghost output = { λ error. Some (read_stop_text error) };

    fn fmt<W: fmt::Write>(&self, f: &mut fmt::Formatter<W>) -> fmt::Result {
        f.write_str(match self {
            ReadStop::ReadFault => "read fault",
            ReadStop::NoMemory => "out of memory",
        })
    }
}

impl Error for ReadStop {}

impl From<AllocError> for ReadStop {
    ghost use Rattle.linx_outside.specs.declared.whole_reads.ReadStop.TheVariants.{NoMemory};
    ghost use Rattle.std.specs.Prelude.{◌≡◌};

    ghost from_gives = { λ _ error. error ≡ NoMemory };

    fn from(_refusal: AllocError) -> ReadStop {
        ReadStop::NoMemory
    }
}

// What one read asks for at most.
const CHUNK: usize = 4096;

/// Reads until the source ends or `most` bytes are read, and puts them at the buffer's end. The
/// room for `most` bytes is made before the first read, so a refusal of memory reads nothing.
/// After a fault the buffer keeps what was read before it.
pub fn read_up_to<S: Source>(
    source: &mut S,
    buffer: &mut Vec<u8>,
    most: usize,
) -> Result<Reached, ReadStop>
    // Whatever the answer.
    ensures moved { MovesBytes buffer.old.items buffer.new.items
        (S.left source.old) (S.left source.new) }
    ensures within { vec_len buffer.new ≤ vec_len buffer.old + most }
    ensures never_falls { NeverFalls S.last_count (S.faults source.old) (S.faults source.new) }
    ensures faultless { S.is_faultless source.old → S.is_faultless source.new
        × IfErr result (λ error. error ≡ ReadStop.NoMemory) }

    // Where the source ended, or the limit was reached.
    ensures counts_nothing { OnOk result (S.faults source.new ≡ S.faults source.old) }
    ensures end { IfOk result (λ reached. reached ≡ Reached.End
        → (vec_len buffer.new < vec_len buffer.old + most) × IsAtEnd (S.left source.new)) }
    ensures limit { IfOk result (λ reached. reached ≡ Reached.Limit
        → vec_len buffer.new ≡ vec_len buffer.old + most) }

    // The same where the source told what it had left.
    ensures told_bytes { OnOk result (IfSome (S.left source.old)
        (λ told. buffer.new.items ≡ buffer.old.items ++ take most told)) }
    ensures told_rest { OnOk result (IfSome (S.left source.old)
        (λ told. S.left source.new ≡ Some (drop most told))) }
    ensures told_end { IfOk result (λ reached. IfSome (S.left source.old)
        (λ told. (reached ≡ Reached.End) ↔ (length told < most))) }

    // Where it stopped short.
    ensures fault { IfErr result (λ error. error ≡ ReadStop.ReadFault
        → (vec_len buffer.new < vec_len buffer.old + most)
        × HasFaulted S.last_count (S.faults source.old) (S.faults source.new)) }
    ensures refused { IfErr result (λ error. error ≡ ReadStop.NoMemory
        → (source.new ≡ source.old) × (buffer.new.items ≡ buffer.old.items)) }
{
    buffer.reserve(most)?;
    let mut chunk = [0; CHUNK];
    let mut missing = most;
    'chunks: while missing > 0 {
        match read_chunk(source, buffer, &mut chunk, missing) {
            ReadAnswer::Got(0) => return Ok(Reached::End),
            ReadAnswer::Got(count) => missing -= count,
            ReadAnswer::Failed => return Err(ReadStop::ReadFault),
        }
    }
    Ok(Reached::Limit)
}

// One read, of at most `most` bytes, put at the buffer's end by way of the chunk.
fn read_chunk<S: Source>(
    source: &mut S,
    buffer: &mut Vec<u8>,
    chunk: &mut [u8],
    most: usize,
) -> ReadAnswer
    requires room { vec_len buffer.old + most ≤ vec_capacity buffer.old }
    requires some { 0 < most }
    requires chunk { 0 < length chunk.old }
    ensures moved { MovesBytes buffer.old.items buffer.new.items
        (S.left source.old) (S.left source.new) }
    ensures got { IfGot result (λ n. (n ≤ most) × (vec_len buffer.new ≡ vec_len buffer.old + n)
        × (S.faults source.new ≡ S.faults source.old)) }
    ensures end { IfGot result (λ n. n ≡ 0 → IsAtEnd (S.left source.new)) }
    ensures failed { IfReadFailed result ((vec_len buffer.new ≡ vec_len buffer.old)
        × HasFaulted S.last_count (S.faults source.old) (S.faults source.new)) }
    ensures never_falls { NeverFalls S.last_count (S.faults source.old) (S.faults source.new) }
    ensures faultless { S.is_faultless source.old → S.is_faultless source.new × IsGot result }
    ensures room { vec_capacity buffer.old ≤ vec_capacity buffer.new }
{
    let asked = most.min(chunk.len());
    match source.read(&mut chunk[..asked]) {
        ReadAnswer::Got(count) => {
            append_within(buffer, &chunk[..count]);
            ReadAnswer::Got(count)
        }
        ReadAnswer::Failed => ReadAnswer::Failed,
    }
}
