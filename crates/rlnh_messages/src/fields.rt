//! The fields of messages, each read at the front of some bytes.

ghost use Rattle.std.specs.Prelude.{◌≡◌, ◌<◌, ◌^◌, ◌++◌, List, ℕ, length, IfSome, IfNone};
ghost use Rattle.byteorder.specs.Endian.{big_bytes};
ghost use Rattle.rlnh_messages.specs.Messages.{typed, IsAddress};

use byteorder::{BigEndian, ByteOrder};

/// The type of a message, and what stands behind it and the three zeros.
pub(crate) fn type_in(bytes: &[u8]) -> Option<(u8, &[u8])>
    ensures found { IfSome result (λ field. bytes.now ≡ typed field.0 field.1.now) }
    ensures none { IfNone result ((type : ℕ) (rest : List ℕ) → ¬ (bytes.now ≡ typed type rest)) }
{
    match bytes {
        [kind, 0, 0, 0, rest @ ..] => Some((*kind, rest)),
        _ => None,
    }
}

/// A number of four bytes, and what stands behind it.
pub(crate) fn u32_in(bytes: &[u8]) -> Option<(u32, &[u8])>
    ensures found { IfSome result
        (λ field. (field.0 < 2 ^ 32) × (bytes.now ≡ big_bytes 4 field.0 ++ field.1.now)) }
    ensures none { IfNone result (length bytes.now < 4) }
{
    if bytes.len() < 4 {
        return None;
    }
    Some((BigEndian::read_u32(bytes), &bytes[4..]))
}

/// A number of eight bytes, and what stands behind it.
pub(crate) fn u64_in(bytes: &[u8]) -> Option<(u64, &[u8])>
    ensures found { IfSome result
        (λ field. (field.0 < 2 ^ 64) × (bytes.now ≡ big_bytes 8 field.0 ++ field.1.now)) }
    ensures none { IfNone result (length bytes.now < 8) }
{
    if bytes.len() < 8 {
        return None;
    }
    Some((BigEndian::read_u64(bytes), &bytes[8..]))
}

/// An address, which isn't 0, and what stands behind it.
pub(crate) fn address_in(bytes: &[u8]) -> Option<(u32, &[u8])>
    ensures found { IfSome result
        (λ field. IsAddress field.0 × (bytes.now ≡ big_bytes 4 field.0 ++ field.1.now)) }
    ensures none { IfNone result
        ((addr : ℕ) (rest : List ℕ) → IsAddress addr → ¬ (bytes.now ≡ big_bytes 4 addr ++ rest)) }
{
    let Some((addr, rest)) = u32_in(bytes) else {
        return None;
    };
    if addr == 0 {
        return None;
    }
    Some((addr, rest))
}
