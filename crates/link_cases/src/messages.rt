//! The bytes of RLNH's messages, and the bodies of signals, as hexadecimal digits.

use case_words::{bytes_of, follow_sections, inc_text, text_of};
use linx_base::{Blob, Inc, Signal};
use rlnh_messages::{Rlnh, RlnhError, read, read_signal, write, write_signal};
use std::alloc::Global;
use std::str;
use std::test::Fail;

/// A message, as its type, its address, its incarnation and its name.
fn text(alloc: Global, kind: &str, addr: u32, inc: Inc, name: &[u8]) -> Result<String, Fail> {
    let (inc, name) = (inc_text(alloc, inc)?, str::from_utf8(name)?);
    Ok(format!(in alloc; "{kind} {addr} {inc} {name}")?)
}

fn message_text(alloc: Global, message: &Rlnh) -> Result<String, Fail> {
    let none = Inc(0);
    match message {
        Rlnh::Init => text_of(alloc, "INIT"),
        Rlnh::InitReply => text_of(alloc, "INIT_REPLY"),
        Rlnh::QueryName(name) => text(alloc, "QUERY_NAME", 0, none, name.bytes()),
        Rlnh::Publish { addr, inc, name } => text(alloc, "PUBLISH", *addr, *inc, name.bytes()),
        Rlnh::Unpublish(addr) => text(alloc, "UNPUBLISH", *addr, none, b"-"),
        Rlnh::UnpublishAck(addr) => text(alloc, "UNPUBLISH_ACK", *addr, none, b"-"),
    }
}

/// Whether these bytes spell no message.
fn is_bad(alloc: Global, bytes: &[u8]) -> bool {
    matches!(read(alloc, bytes), Err(RlnhError::Bad))
}

/// The message that is spelled so, which must be written so again.
fn read_again(alloc: Global, bytes: &[u8]) -> Result<Rlnh, Fail> {
    let message = read(alloc, bytes)?;
    let written = write(alloc, &message)?;
    if written.bytes() != bytes {
        return Err(Fail::from("it is written otherwise"));
    }
    Ok(message)
}

/// What is read of the bytes that words spell.
fn answer(alloc: Global, _reader: &mut (), words: &str) -> Result<String, Fail> {
    let bytes = bytes_of(alloc, words)?;
    if is_bad(alloc, &bytes) {
        return text_of(alloc, "bad");
    }
    message_text(alloc, &read_again(alloc, &bytes)?)
}

/// The signal that goes by this body, which must be written so again.
fn signal_again(alloc: Global, body: &Blob) -> Result<Signal, Fail> {
    let signal = read_signal(body)?;
    if !write_signal(&signal)?.same(body) {
        return Err(Fail::from("it is written otherwise"));
    }
    Ok(signal)
}

/// Whether a body of so many bytes is a signal's.
fn is_signal(alloc: Global, size: usize) -> Result<bool, Fail> {
    let body = Blob::shared(vec![in alloc; 0; size]?)?;
    Ok(read_signal(&body).is_ok())
}

#[test]
fn a_signal_and_its_bytes(rt: HostRuntime) -> Result<(), Fail> {
    let body = Blob::of(rt.alloc(), &[0, 0, 0, 5, 0xaa])?;
    let signal = signal_again(rt.alloc(), &body)?;
    assert_eq!(rt;
        (signal.number(), signal.bytes() == b"\xaa".as_slice()),
        (5, true)
    );
    Ok(())
}

#[test]
fn a_signal_has_4_to_65536_bytes(rt: HostRuntime) -> Result<(), Fail> {
    for (size, wanted) in [
        (0, false),
        (3, false),
        (4, true),
        (65_536, true),
        (65_537, false),
    ] {
        if is_signal(rt.alloc(), size)? != wanted {
            return Err(Fail::new(format_args!("of {size} bytes")));
        }
    }
    Ok(())
}

/// A message is its type, its address, its incarnation and its name, and 0, 0.0 and - where it has
/// none. In the second section each is a message with one change.
#[test]
fn messages_and_their_bytes(rt: HostRuntime) -> Result<(), Fail> {
    follow_sections(
        rt.alloc(),
        &|_alloc| (),
        &answer,
        "# each type is read
        01000000 00000001: INIT
        02000000 00000001: INIT_REPLY
        03000000 736572766572: QUERY_NAME 0 0.0 server
        04000000 00000001 0000000200000001 736572766572: PUBLISH 1 2.1 server
        05000000 00000001: UNPUBLISH 1 0.0 -
        06000000 00000001: UNPUBLISH_ACK 1 0.0 -

        # a changed byte is bad
        00000000 00000001: bad
        07000000 00000001: bad
        01010000 00000001: bad
        01000000 01000001: bad
        01000000 00000000: bad
        01000000 00000002: bad
        02000100 00000001: bad
        02000000 00000002: bad
        01000000 736572766572: bad
        03000001 736572766572: bad
        03000000 206572766572: bad
        03000000 73657276652f: bad
        03000000 00000001 0000000200000001 736572766572: bad
        05000000 00000001 0000000200000001 736572766572: bad
        04010000 00000001 0000000200000001 736572766572: bad
        04000000 00000000 0000000200000001 736572766572: bad
        04000000 00000001 0000000200000001 006572766572: bad
        04000000 00000001 0000000200000001 736572766580: bad
        04000000 00000001: bad
        05000100 00000001: bad
        05000000 00000000: bad
        03000000 00000001: bad
        060000ff 00000001: bad
        06000000 00000000: bad

        # missing and further bytes are bad
        01000000 000000: bad
        01000000 00000001 00: bad
        02000000 000000: bad
        02000000 00000001 00: bad
        05000000 000000: bad
        05000000 00000001 00: bad
        06000000 000000: bad
        06000000 00000001 00: bad
        03000000: bad
        04000000 00000001 0000000200000001: bad
        04000000 00000001 00000002: bad
        : bad",
    )
}
