//! The data of signals: spelled, or as a digest, which may be known.
ghost use Rattle.std.specs.Prelude.{◌≡◌, ◌<◌, ◌++◌, length, OnOk};
ghost use Rattle.journal_text.specs.Values.{digest_text, data_text};
ghost use Rattle.journal_text.specs.Known.{IsOf, digest_in};

use crate::digests::{DigestBy, Known};
use crate::digits::{
    SPELLED_MOST, write_byte, write_bytes, write_digest, write_first_bytes, write_hexadecimal,
};
use linx_base::{Blob, NoMemory};

/// The number of bytes and their digest, which may be known.
fn write_known_digest(out: &mut Vec<u8>, bytes: &Blob, known: Known<'_>) -> Result<(), NoMemory>
    requires of { IsOf known bytes.now }
    requires long { 32 < length bytes.now }
    ensures { OnOk result (out.new.items ≡ out.old.items ++ digest_text (digest_in known.entry) bytes.now) }
{
    match known {
        Known::Made(digested) => write_bytes(out, digested.text()),
        Known::By(DigestBy::Sha256) => write_digest(out, bytes),
        Known::By(DigestBy::FirstBytes) => write_first_bytes(out, bytes.bytes()),
    }
}

/// The data of a signal: `-` for none, up to 32 bytes in hexadecimal digits, and of more what
/// stands for them.
#[tactic(auto, unfolding(crate::specs::Values::data_text))]
pub(crate) fn write_data(out: &mut Vec<u8>, bytes: &Blob, known: Known<'_>) -> Result<(), NoMemory>
    requires { IsOf known bytes.now }
    ensures { OnOk result (out.new.items ≡ out.old.items ++ data_text (digest_in known.entry) bytes.now) }
{
    if bytes.is_empty() {
        write_byte(out, b'-')
    } else if bytes.len() <= SPELLED_MOST {
        write_hexadecimal(out, bytes.bytes())
    } else {
        write_known_digest(out, bytes, known)
    }
}
