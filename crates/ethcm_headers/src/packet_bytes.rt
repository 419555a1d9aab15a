ghost use Rattle.std.specs.Prelude.{◌≡◌, ◌+◌, ◌≤◌, ◌++◌, length, IfOk};
ghost use Rattle.ethcm_headers.specs.Chains.{header_bytes, FitsHeaders};
ghost use Rattle.ethcm_headers.specs.Parted.{bytes_in};

use crate::chains::Headers;
use crate::decoding::headers_at;
use crate::header_bytes::HeaderBytes;
use linx_base::{Blob, NoMemory};
use std::alloc::Global;
use std::marker::Model;

/// The bytes of a packet: those of its headers, and behind them its payload, which is shared.
/// Contracts see them all as one list.
#[derive(Drop)]
pub struct PacketBytes {
    pub(crate) headers: HeaderBytes,
    pub(crate) payload: Option<Blob>,
}

impl Model for PacketBytes {
    ghost use Rattle.std.specs.Prelude.{List, ℕ, ◌++◌};
    ghost use Rattle.ethcm_headers.specs.Parted.{bytes_in, StandApart};

    ghost Value = { List ℕ };

    ghost view = { λ p. p.headers ++ bytes_in p.payload };

    ghost invariant = { λ p. StandApart p.headers (bytes_in p.payload) };
}

/// The bytes of a payload, where there is one.
pub(crate) fn bytes_in(payload: &Option<Blob>) -> &[u8]
    ensures { result.now ≡ bytes_in payload.now }
{
    match payload {
        None => &[],
        Some(payload) => payload.bytes(),
    }
}

impl PacketBytes {
    /// The bytes of the headers of a packet that has this length, and of its payload.
    pub(crate) fn new(headers: &Headers, length: u16, payload: Option<Blob>) -> PacketBytes
        requires { FitsHeaders headers.now }
        ensures { result ≡ header_bytes length headers.now ++ bytes_in payload }
    {
        PacketBytes {
            headers: headers.bytes(length),
            payload,
        }
    }

    /// Any bytes, as they come from outside. They are shared, but those of the headers that they
    /// begin with.
    pub fn of(bytes: Blob) -> Result<PacketBytes, NoMemory>
        ensures { IfOk result (λ packet. packet ≡ bytes) }
    {
        let Some(headers) = headers_at(bytes.bytes()) else {
            return Ok(PacketBytes {
                headers: HeaderBytes::new(),
                payload: Some(bytes),
            });
        };
        let place = headers.chain.layout().len();
        let mut front = HeaderBytes::new();
        front.push(&bytes.bytes()[..place]);
        Ok(PacketBytes {
            headers: front,
            payload: Some(bytes.part(place, bytes.len())?),
        })
    }

    /// All the bytes in one blob.
    pub fn whole(&self, alloc: Global) -> Result<Blob, NoMemory>
        ensures { IfOk result (λ blob. blob ≡ self.now) }
    {
        Blob::joined(alloc, self.headers.as_slice(), bytes_in(&self.payload))
    }

    /// How many bytes there are.
    pub fn len(&self) -> usize
        ensures { result ≡ length self.now }
    {
        self.headers.as_slice().len() + bytes_in(&self.payload).len()
    }
}
