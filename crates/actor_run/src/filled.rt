//! Bytes of one value, which the next signal shares where it has as many and the same.
ghost use Rattle.std.specs.Prelude.{◌≡◌, replicate, IfOk};

use linx_base::{Blob, NoMemory, TryCopy};
use std::alloc::Global;

/// The bytes that were filled last, of what signal they are, and what they were filled with.
#[derive(Drop)]
pub(crate) struct Filled {
    number: u32,
    count: u32,
    byte: u8,
    bytes: Blob,
    ghost filled: { bytes ≡ replicate count byte },
}

/// So many bytes of one value, which stand behind the number of their signal in one buffer: so they
/// go over a link without being copied.
fn fill(alloc: Global, number: u32, count: u32, byte: u8) -> Result<Blob, NoMemory>
    ensures { IfOk result (λ bytes. bytes ≡ replicate count byte) }
{
    let front = number.to_be_bytes();
    let whole = front.len() + count as usize;
    let mut buffer = Vec::with_capacity(alloc, whole)?;
    buffer.extend_from_slice(&front)?;
    buffer.resize(whole, byte)?;
    Blob::shared(buffer)?.part(front.len(), whole)
}

/// So many bytes of one value for a signal of this number. Those that were filled last are shared
/// where they are of as many and the same.
pub(crate) fn filled_with(
    alloc: Global,
    last: &mut Option<Filled>,
    number: u32,
    count: u32,
    byte: u8,
) -> Result<Blob, NoMemory>
    ensures { IfOk result (λ bytes. bytes ≡ replicate count byte) }
{
    if let Some(filled) = last {
        if filled.number == number && filled.count == count && filled.byte == byte {
            return filled.bytes.copy();
        }
    }
    let bytes = fill(alloc, number, count, byte)?;
    let shared = bytes.copy()?;
    *last = Some(Filled {
        number,
        count,
        byte,
        bytes,
    });
    Ok(shared)
}
