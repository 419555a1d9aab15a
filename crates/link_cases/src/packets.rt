//! The bytes of packets, as words: sessions, and hexadecimal digits.

use case_words::{bytes_of, follow_sections, front, session_text, text_of};
use ethcm_headers::{Packet, PacketBytes, Part, ReadError, read, write};
use linx_base::{Blob, Frame, Session};
use std::alloc::Global;
use std::test::Fail;

fn first_text(alloc: Global, frame: &Frame) -> Result<String, Fail> {
    let Frame::First {
        more,
        from,
        to,
        size,
        payload,
    } = frame
    else {
        return Err(Fail::from("a further piece"));
    };
    let bytes = hex::encode(alloc, payload.bytes())?;
    Ok(format!(in alloc; "more {more} from {from} to {to} size {size} {bytes}")?)
}

/// A frame, its number, and the number that is taken next.
fn piece_text(alloc: Global, next: u32, seq: u32, frame: &Frame) -> Result<String, Fail> {
    let frame = first_text(alloc, frame)?;
    Ok(format!(in alloc; "ACK {next} frame {seq} {frame}")?)
}

fn part_text(alloc: Global, part: &Part) -> Result<String, Fail> {
    match part {
        Part::Conn(kind) => Ok(format!(in alloc; "{kind:?}")?),
        Part::Ack { next } => Ok(format!(in alloc; "ACK {next}")?),
        Part::Nack { next, count } => Ok(format!(in alloc; "NACK {next} count {count}")?),
        Part::Piece { next, seq, frame } => piece_text(alloc, *next, *seq, frame),
    }
}

fn packet_text(alloc: Global, packet: &Packet) -> Result<String, Fail> {
    let part = part_text(alloc, &packet.part)?;
    let src = session_text(alloc, packet.src)?;
    let dst = session_text(alloc, Session(packet.dst))?;
    Ok(format!(in alloc; "{src} to {dst} {part}")?)
}

fn is_bad(bytes: &PacketBytes) -> bool {
    matches!(read(bytes), Err(ReadError::Bad))
}

/// The packet that is spelled so, which must be written so again.
fn read_again(alloc: Global, bytes: &PacketBytes) -> Result<Packet, Fail> {
    let packet = read(bytes)?;
    let written = write(&packet)?;
    if written.len() != bytes.len() || !written.whole(alloc)?.same(&bytes.whole(alloc)?) {
        return Err(Fail::from("it is written otherwise"));
    }
    Ok(packet)
}

/// What is read of bytes.
fn meaning(alloc: Global, bytes: Vec<u8>) -> Result<String, Fail> {
    let bytes = PacketBytes::of(Blob::shared(bytes)?)?;
    if is_bad(&bytes) {
        return text_of(alloc, "bad");
    }
    packet_text(alloc, &read_again(alloc, &bytes)?)
}

/// Reads bytes: those of words, or those that it read last with others from a place on.
#[derive(Drop)]
struct Reader {
    last: Vec<u8>,
}

/// Bytes with others from a place on.
fn changed(alloc: Global, bytes: &[u8], place: usize, others: &[u8]) -> Result<Vec<u8>, Fail> {
    let mut made = Vec::from_slice(alloc, bytes)?;
    for (k, other) in others.iter().enumerate() {
        if let Some(byte) = made.get_mut(place.saturating_add(k)) {
            *byte = *other;
        }
    }
    Ok(made)
}

impl Reader {
    /// A change, as its place and the bytes there.
    fn read_changed(&self, alloc: Global, change: &str) -> Result<String, Fail> {
        let (place, others) = front(change);
        let others = bytes_of(alloc, others)?;
        meaning(alloc, changed(alloc, &self.last, place.parse()?, &others)?)
    }

    /// What the bytes that these words spell are read as. A change may be made of them next.
    fn read(&mut self, alloc: Global, words: &str) -> Result<String, Fail> {
        self.last = bytes_of(alloc, words)?;
        meaning(alloc, bytes_of(alloc, words)?)
    }
}

/// The reader before its first read.
fn new_reader(alloc: Global) -> Reader {
    Reader {
        last: Vec::new(alloc),
    }
}

/// What bytes are read as: these, or behind `at ` the last ones with a byte changed.
fn answer(alloc: Global, reader: &mut Reader, call: &str) -> Result<String, Fail> {
    match call.strip_prefix("at ") {
        None => reader.read(alloc, call),
        Some(change) => reader.read_changed(alloc, change),
    }
}

/// `at` reads the bytes above with others from a place on.
#[test]
fn packets_and_their_bytes(rt: HostRuntime) -> Result<(), Fail> {
    follow_sections(
        rt.alloc(),
        &new_reader,
        &answer,
        "# a CONNECT, and changes that make it bad
        02020018 1.1 0.0 00010000: 1.1 to 0.0 Connect
        at 0 01: bad
        at 1 00: bad
        at 1 07: bad
        at 3 17: bad
        at 3 19: bad
        at 4 0.0: bad
        at 19 01: bad
        at 20 02: bad
        at 21 00: bad
        at 21 05: bad
        at 22 01: bad
        at 23 01: bad
        at 21 02: bad

        # a CONNECT without its last byte and with one more, and no byte at all
        02020018 1.1 0.0 000100: bad
        02020018 1.1 0.0 00010000 00: bad
        : bad

        # INIT as frame 0, with nothing taken yet, and changes that make it bad
        02050038 1.1 1.1 03000000 00000000 00000000 00000000 00000000 00000000 00000008 \
        01000000 00000001: \
        1.1 to 1.1 ACK 0 frame 0 more false from 0 to 0 size 8 0100000000000001
        at 1 03: bad
        at 20 05: bad
        at 29 01: bad
        at 29 02: bad
        at 30 01: bad
        at 47 09: bad
        at 12 0.0: bad
        at 32 ffffffff: bad

        # a NACK asks for 1 to 256 frames
        0206001c 1.1 1.1 00000100 00000007: 1.1 to 1.1 NACK 7 count 256
        at 22 0001: 1.1 to 1.1 NACK 7 count 1
        at 22 0000: bad
        at 22 0101: bad",
    )
}
