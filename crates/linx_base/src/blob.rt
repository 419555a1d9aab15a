ghost use Rattle.std.specs.Prelude.{◌≡◌, ◌+◌, ◌≤◌, ◌↔◌, ◌++◌, length, slice_range, IsTrue, IfOk};
ghost use Rattle.std.specs.Prelude.{IfSome};
ghost use Rattle.std.specs.Str.{bytes_eq};

use crate::bytes::Bytes;
use crate::memory::NoMemory;
use crate::try_copy::TryCopy;
use std::alloc::Global;
use std::marker::Model;
use std::sync::Arc;

/// Bytes that never change: a part of a buffer that copies and parts share. A part keeps the whole
/// buffer.
#[derive(Drop)]
pub struct Blob {
    buffer: Arc<Vec<u8>>,
    from: usize,
    to: usize,
}

impl Model for Blob {
    ghost use Rattle.std.specs.Prelude.{List, ℕ, ◌≤◌, length, slice_range};
    ghost use Rattle.std.specs.Arc.{arc_value};

    ghost Value = { List ℕ };

    ghost view = { λ b. slice_range (arc_value b.buffer).items b.from b.to };

    ghost invariant = { λ b. (b.from ≤ b.to) × (b.to ≤ length (arc_value b.buffer).items) };
}

/// Where a front begins that stands in a buffer right before a place.
fn start_of(buffer: &[u8], front: &[u8], place: usize) -> Option<usize>
    requires { place ≤ length buffer.now }
    ensures { IfSome result (λ start. (start + length front.now ≡ place)
        × (slice_range buffer.now start place ≡ front.now)) }
{
    let start = place.checked_sub(front.len())?;
    if &buffer[start..place] == front {
        Some(start)
    } else {
        None
    }
}

impl Blob {
    /// A blob of these bytes, copied once.
    pub fn of(alloc: Global, bytes: &[u8]) -> Result<Blob, NoMemory>
        ensures { IfOk result (λ blob. blob ≡ bytes.now) }
    {
        Blob::shared(Vec::from_slice(alloc, bytes)?)
    }

    /// A blob of these bytes, which are not copied. A refusal frees them.
    pub fn shared(bytes: Vec<u8>) -> Result<Blob, NoMemory>
        ensures { IfOk result (λ blob. blob ≡ bytes.items) }
    {
        let to = bytes.len();
        Ok(Blob {
            buffer: Arc::new(*bytes.allocator(), bytes)?,
            from: 0,
            to,
        })
    }

    /// A blob of the bytes of the one and then those of the other, copied once.
    pub fn joined(alloc: Global, front: &[u8], back: &[u8]) -> Result<Blob, NoMemory>
        ensures { IfOk result (λ blob. blob ≡ front.now ++ back.now) }
    {
        let mut bytes = Bytes::with_room(alloc, front.len().saturating_add(back.len()))?;
        bytes.extend(front)?;
        bytes.extend(back)?;
        bytes.into_blob()
    }

    /// The bytes, all of those that the blob shares.
    pub fn bytes(&self) -> &[u8]
        ensures { result.now ≡ self.now }
    {
        &self.buffer.as_slice()[self.from..self.to]
    }

    /// How many bytes there are.
    pub fn len(&self) -> usize
        ensures { result ≡ length self.now }
    {
        self.to - self.from
    }

    /// Whether there are no bytes.
    pub fn is_empty(&self) -> bool
        ensures { IsTrue result ↔ (length self.now ≡ 0) }
    {
        self.from == self.to
    }

    /// The bytes from place `from` on, which is 0 for the first, up to place `to`, which isn't
    /// among them. They are shared.
    pub fn part(&self, from: usize, to: usize) -> Result<Blob, NoMemory>
        requires order { from ≤ to }
        requires within { to ≤ length self.now }
        ensures { IfOk result (λ part. part ≡ slice_range self.now from to) }
    {
        Ok(Blob {
            buffer: self.buffer.clone()?,
            from: self.from + from,
            to: self.from + to,
        })
    }

    /// The bytes of a front, and these behind them. Where the buffer has the front right before
    /// these bytes it is shared; else all are copied.
    #[tactic(auto, using(crate::proofs::Ranges::range_behind))]
    pub fn behind(&self, front: &[u8]) -> Result<Blob, NoMemory>
        ensures { IfOk result (λ whole. whole ≡ front.now ++ self.now) }
    {
        match start_of(self.buffer.as_slice(), front, self.from) {
            Some(from) => Ok(Blob {
                buffer: self.buffer.clone()?,
                from,
                to: self.to,
            }),
            None => Blob::joined(self.allocator(), front, self.bytes()),
        }
    }

    /// The allocator that the buffer was made with.
    pub(crate) fn allocator(&self) -> Global {
        *self.buffer.allocator()
    }

    /// Whether both have the same bytes.
    pub fn same(&self, other: &Blob) -> bool
        ensures same { IsTrue result ↔ (self.now ≡ other.now) }
        ensures computes { result ≡ bytes_eq self.now other.now }
    {
        self.bytes() == other.bytes()
    }
}

impl TryCopy for Blob {
    fn copy(&self) -> Result<Blob, NoMemory> {
        Ok(Blob {
            buffer: self.buffer.clone()?,
            from: self.from,
            to: self.to,
        })
    }
}
