ghost use Rattle.std.specs.Prelude.{◌≡◌, ◌+◌, ◌≤◌, ◌++◌, [], length};

use std::marker::Model;

/// The most bytes of the headers of a packet.
const HEADERS_MOST: usize = 48;

/// The bytes of some headers, one after the other.
#[derive(Drop)]
pub(crate) struct HeaderBytes {
    bytes: [u8; HEADERS_MOST],
    len: usize,
}

impl Model for HeaderBytes {
    ghost use Rattle.std.specs.Prelude.{◌≤◌, List, ℕ, take};

    ghost Value = { List ℕ };

    ghost view = { λ h. take h.len h.bytes };

    ghost invariant = { λ h. h.len ≤ 48 };
}

impl HeaderBytes {
    /// No header as yet.
    pub(crate) fn new() -> HeaderBytes
        ensures { result ≡ [] }
    {
        HeaderBytes {
            bytes: [0; HEADERS_MOST],
            len: 0,
        }
    }

    /// The bytes of two headers.
    pub(crate) fn pair(first: &[u8], second: &[u8]) -> HeaderBytes
        requires { length first.now + length second.now ≤ 48 }
        ensures { result ≡ first.now ++ second.now }
    {
        let mut headers = HeaderBytes::new();
        headers.push(first);
        headers.push(second);
        headers
    }

    /// The bytes of three headers.
    pub(crate) fn triple(first: &[u8], second: &[u8], third: &[u8]) -> HeaderBytes
        requires { length first.now + length second.now + length third.now ≤ 48 }
        ensures { result ≡ (first.now ++ second.now) ++ third.now }
    {
        let mut headers = HeaderBytes::new();
        headers.push(first);
        headers.push(second);
        headers.push(third);
        headers
    }

    /// Some headers come behind these.
    pub(crate) fn push(&mut self, header: &[u8])
        requires { length self.old + length header.now ≤ 48 }
        ensures { self.new ≡ self.old ++ header.now }
    {
        let start = self.len;
        let end = start + header.len();
        self.bytes[start..end].copy_from_slice(header);
        self.len = end;
    }

    /// The bytes of all headers, at most 48.
    pub(crate) fn as_slice(&self) -> &[u8]
        ensures { result.now ≡ self.now }
    {
        &self.bytes[..self.len]
    }
}
