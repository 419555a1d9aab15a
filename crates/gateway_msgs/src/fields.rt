//! The fields of requests: the numbers that bytes begin with, or are.
ghost use Rattle.std.specs.Prelude.{◌≡◌, ◌≤◌, ◌<◌, ◌^◌, ◌++◌, length};
ghost use Rattle.byteorder.specs.Endian.{big_bytes};

use byteorder::{BigEndian, ByteOrder};

/// A number of four bytes, and what stands behind it.
pub(crate) fn four_in(bytes: &[u8]) -> (u32, &[u8])
    requires { 4 ≤ length bytes.now }
    ensures spelled { bytes.now ≡ big_bytes 4 result.0 ++ result.1.now }
    ensures fits { result.0 < 2 ^ 32 }
{
    (BigEndian::read_u32(bytes), &bytes[4..])
}

/// A number of eight bytes, and what stands behind it.
pub(crate) fn eight_in(bytes: &[u8]) -> (u64, &[u8])
    requires { 8 ≤ length bytes.now }
    ensures spelled { bytes.now ≡ big_bytes 8 result.0 ++ result.1.now }
    ensures fits { result.0 < 2 ^ 64 }
{
    (BigEndian::read_u64(bytes), &bytes[8..])
}

/// The number of four bytes that these are.
pub(crate) fn four_of(bytes: &[u8]) -> u32
    requires { length bytes.now ≡ 4 }
    ensures { bytes.now ≡ big_bytes 4 result }
{
    BigEndian::read_u32(bytes)
}

/// The number of eight bytes that these are.
pub(crate) fn eight_of(bytes: &[u8]) -> u64
    requires { length bytes.now ≡ 8 }
    ensures { bytes.now ≡ big_bytes 8 result }
{
    BigEndian::read_u64(bytes)
}
