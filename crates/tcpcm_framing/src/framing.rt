ghost use Rattle.std.specs.Prelude.{◌≡◌, ◌+◌, ◌≤◌, length, drop};
ghost use Rattle.byteorder.specs.Endian.{big_number};
ghost use Rattle.request_stream.specs.Fronts.{IsFront};
ghost use Rattle.tcpcm_frames.specs.Frames.{IsSpelled};
ghost use Rattle.tcpcm_framing.specs.Shortest.{header_in, is_bare, least_size, with_message};
ghost use Rattle.tcpcm_framing.specs.Shortest.{shortest_of};

use byteorder::{BigEndian, ByteOrder};
use request_stream::Front;

/// How many bytes a header has.
const HEADER: usize = 16;

/// The most bytes of a message.
const MESSAGE_MOST: u32 = 65_536;

/// The header that the bytes begin, where what hasn't come is 0.
#[tactic(auto, using(crate::proofs::Filled::filled_is))]
fn header_in(bytes: &[u8]) -> [u8; HEADER]
    ensures { result ≡ header_in bytes.now }
{
    let mut header = [0; HEADER];
    let known = bytes.len().min(HEADER);
    header[..known].copy_from_slice(&bytes[..known]);
    header
}

/// The number in four bytes at a place.
fn u32_at(bytes: &[u8], place: usize) -> u32
    requires { place + 4 ≤ length bytes.now }
    ensures { result ≡ big_number 4 (drop place bytes.now) }
{
    BigEndian::read_u32(&bytes[place..])
}

/// How many bytes the frame of a message of this size has; `None` where no message has it.
fn with_message(size: u32) -> Option<u64>
    ensures { result ≡ with_message size }
{
    if 0 < size && size <= MESSAGE_MOST {
        Some(16 + u64::from(size))
    } else {
        None
    }
}

/// The least size that a message may have whose size is this as far as it has come.
fn least_size(known: usize, size: u32) -> u32
    ensures { result ≡ least_size known size }
{
    if size == 0 && known < HEADER { 1 } else { size }
}

/// Whether the header may be that of a frame that carries nothing.
fn is_bare(header: &[u8], known: usize) -> bool
    requires { length header.now ≡ 16 }
    ensures { result ≡ is_bare header.now known }
{
    let kind = header[1];
    (kind == 1 || kind == 3 || kind == 4 || known < 2)
        && u32_at(header, 4) == 0
        && u32_at(header, 8) == 0
        && u32_at(header, 12) == 0
}

/// How many bytes the shortest frame has that has this header as far as it has come; `None` where
/// no frame has.
#[tactic(auto, unfolding(crate::specs::Shortest::shortest_of))]
fn shortest(header: &[u8], known: usize) -> Option<u64>
    requires { length header.now ≡ 16 }
    ensures { result ≡ shortest_of header.now known }
{
    if header[0] != 1 || header[2] != 0 || header[3] != 0 {
        return None;
    }
    if header[1] == 2 {
        return with_message(least_size(known, u32_at(header, 12)));
    }
    if is_bare(header, known) {
        Some(16)
    } else {
        None
    }
}

/// What the bytes begin with, where a frame may have as many bytes as there is room.
pub fn front(bytes: &[u8], room: u64) -> Front
    ensures { IsFront IsSpelled room bytes.now result }
{
    if bytes.is_empty() {
        return Front::More;
    }
    let Some(size) = shortest(&header_in(bytes), bytes.len()) else {
        return Front::Bad;
    };
    if room < size {
        return Front::Bad;
    }
    if (bytes.len() as u64) < size {
        return Front::More;
    }
    Front::Whole(size as usize)
}
