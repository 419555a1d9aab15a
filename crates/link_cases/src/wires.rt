//! The packets in flight on a wire.

use case_words::{follow_sections, front};
use linx_base::Blob;
use lossy_wire::Wire;
use std::alloc::Global;
use std::str;
use std::test::Fail;

/// A packet of the bytes of a word is put on a wire.
fn put(alloc: Global, wire: &mut Wire<Blob>, word: &str) -> Result<(), Fail> {
    let packet = Blob::of(alloc, word.as_bytes())?;
    match wire.put(packet) {
        Ok(()) => Ok(()),
        Err(_) => Err(Fail::from("not put")),
    }
}

/// The packet at a place is lost, in an event that begins with it.
fn lose(wire: &mut Wire<Blob>, place: usize) -> Result<(), Fail> {
    wire.keep();
    if place >= wire.len() {
        return Err(Fail::from("no such packet"));
    }
    wire.lose(place);
    Ok(())
}

/// The packets at two places are exchanged, in an event that begins with it.
fn swap(wire: &mut Wire<Blob>, place: usize, other: usize) -> Result<(), Fail> {
    wire.keep();
    if place >= wire.len() || other >= wire.len() {
        return Err(Fail::from("no such packets"));
    }
    wire.swap(place, other);
    Ok(())
}

/// The packet at this place, from 0, is lost.
fn lose_word(wire: &mut Wire<Blob>, place: &str) -> Result<(), Fail> {
    lose(wire, place.parse()?)
}

/// The packets at two places, as `0 2`, are exchanged.
fn swap_words(wire: &mut Wire<Blob>, places: &str) -> Result<(), Fail> {
    let (place, other) = front(places);
    swap(wire, place.parse()?, other.parse()?)
}

/// The packets in flight, in order.
fn flying(alloc: Global, wire: &Wire<Blob>) -> Result<String, Fail> {
    let mut text = String::new(alloc);
    for place in 0..wire.len() {
        text.push_str(str::from_utf8(wire.at(place).bytes())?)?;
    }
    Ok(text)
}

/// The event of a wire stays, or is undone.
fn ends_event(wire: &mut Wire<Blob>, word: &str) -> Result<(), Fail> {
    match word {
        "keep" => wire.keep(),
        "undo" => wire.undo(),
        _ => return Err(Fail::from("no such call")),
    }
    Ok(())
}

/// A call by its first word, on what stands behind it.
fn call(alloc: Global, wire: &mut Wire<Blob>, word: &str, rest: &str) -> Result<(), Fail> {
    match word {
        "put" => put(alloc, wire, rest),
        "lose" => lose_word(wire, rest),
        "swap" => swap_words(wire, rest),
        _ => ends_event(wire, word),
    }
}

/// A call, and what is in flight after it.
fn answer(alloc: Global, wire: &mut Wire<Blob>, line: &str) -> Result<String, Fail> {
    let (word, rest) = front(line);
    call(alloc, wire, word, rest)?;
    flying(alloc, wire)
}

/// Each call answers the packets in flight, whose bytes are a letter.
#[test]
fn a_wire_has_what_was_put(rt: HostRuntime) -> Result<(), Fail> {
    follow_sections(
        rt.alloc(),
        &|alloc| Wire::<Blob>::new(alloc),
        &answer,
        "# packets are exchanged and lost
        put a: a
        put b: ab
        put c: abc
        swap 0 2: cba
        lose 1: ca
        keep: ca

        # what an event did is undone
        put a: a
        put b: ab
        put c: abc
        lose 0: bc
        put d: bcd
        undo: abc
        swap 1 2: acb
        put e: acbe
        undo: abc",
    )
}

#[test]
fn a_wire_is_empty_until_a_packet_is_put(rt: HostRuntime) -> Result<(), Fail> {
    let mut wire = Wire::new(rt.alloc());
    let was_empty = wire.is_empty();
    put(rt.alloc(), &mut wire, "a")?;
    assert!(rt; was_empty && !wire.is_empty());
    Ok(())
}
