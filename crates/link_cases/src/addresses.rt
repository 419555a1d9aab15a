//! The link addresses of one side.

use case_words::{follow_sections, front, inc_of, inc_text, number_text, text_of};
use link_addresses::{Addresses, Meaning};
use linx_base::{Inc, NodeNo};
use std::alloc::Global;
use std::test::Fail;

/// An incarnation that isn't live gets an address.
fn publish(addresses: &mut Addresses, inc: Inc) -> Result<u32, Fail> {
    if addresses.used() == u32::MAX {
        return Err(Fail::from("no address is left"));
    }
    match addresses.addr_of(inc) {
        Some(_) => Err(Fail::from("it is live")),
        None => Ok(addresses.publish(inc)?),
    }
}

/// The incarnations 1.1 to 1.N are published, each at the address of its number.
fn publish_all(addresses: &mut Addresses, count: u32) -> Result<(), Fail> {
    for k in 0..count {
        if publish(addresses, Inc::of(NodeNo(1), k + 1))? != k + 1 {
            return Err(Fail::from("at another address"));
        }
    }
    Ok(())
}

/// The incarnations 1.N to 1.1 close, each at the address of its number, and are acknowledged.
fn close_all(addresses: &mut Addresses, count: u32) -> Result<(), Fail> {
    for k in 0..count {
        let addr = count - k;
        let inc = Inc::of(NodeNo(1), addr);
        if addresses.closing(inc) != Some(addr) || addresses.acked(addr) != Some(inc) {
            return Err(Fail::from("at another address"));
        }
    }
    Ok(())
}

fn meaning_text(alloc: Global, meaning: Meaning) -> Result<String, Fail> {
    let (word, inc) = match meaning {
        Meaning::Free => ("free", Inc(0)),
        Meaning::Live(inc) => ("live", inc),
        Meaning::Closing(inc) => ("closing", inc),
    };
    Ok(format!(in alloc; "{word} {}", inc_text(alloc, inc)?)?)
}

fn addr_text(alloc: Global, addr: Option<u32>) -> Result<String, Fail> {
    match addr {
        None => text_of(alloc, "none"),
        Some(addr) => number_text(alloc, u64::from(addr)),
    }
}

/// What a call of an incarnation answers: an address.
fn addr_of(addresses: &mut Addresses, word: &str, inc: Inc) -> Result<Option<u32>, Fail> {
    match word {
        "publish" => Ok(Some(publish(addresses, inc)?)),
        "closing" => Ok(addresses.closing(inc)),
        "address" => Ok(addresses.addr_of(inc)),
        _ => Err(Fail::from("no such call")),
    }
}

/// A call that answers the number of addresses that are used then.
fn changes(addresses: &mut Addresses, word: &str) -> Result<(), Fail> {
    match word {
        "begin" => addresses.begin(),
        "keep" => addresses.keep(),
        "undo" => addresses.undo(),
        "publish 1000" => publish_all(addresses, 1_000)?,
        "close 1000" => close_all(addresses, 1_000)?,
        _ => return Err(Fail::from("no such call")),
    }
    Ok(())
}

/// A call that changes the addresses, and how many are in use then.
fn used_text(alloc: Global, addresses: &mut Addresses, call: &str) -> Result<String, Fail> {
    changes(addresses, call)?;
    number_text(alloc, u64::from(addresses.used()))
}

/// A call about an incarnation, as `publish 1.2`, and the address that it answers.
fn call_text(alloc: Global, addresses: &mut Addresses, call: &str) -> Result<String, Fail> {
    let (word, inc) = front(call);
    let addr = addr_of(addresses, word, inc_of(inc)?)?;
    addr_text(alloc, addr)
}

/// An address means something, or its closing is acknowledged.
fn by_addr(alloc: Global, addresses: &mut Addresses, call: &str) -> Result<String, Fail> {
    let (word, addr) = front(call);
    let addr: u32 = addr.parse()?;
    if word == "meaning" {
        meaning_text(alloc, addresses.meaning(addr))
    } else {
        inc_text(alloc, addresses.acked(addr).unwrap_or(Inc(0)))
    }
}

/// What a call, by its words, answers.
fn answer(alloc: Global, addresses: &mut Addresses, call: &str) -> Result<String, Fail> {
    if call.contains('.') {
        return call_text(alloc, addresses, call);
    }
    match front(call).0 {
        "meaning" | "acked" => by_addr(alloc, addresses, call),
        "used" => number_text(alloc, u64::from(addresses.used())),
        _ => used_text(alloc, addresses, call),
    }
}

/// `begin`, `keep`, `undo` and the calls for a thousand answer how many addresses are used then;
/// 0.0 is no incarnation.
#[test]
fn addresses_are_given_closed_and_freed(rt: HostRuntime) -> Result<(), Fail> {
    follow_sections(
        rt.alloc(),
        &Addresses::new,
        &answer,
        "# an address is freed at its acknowledgement
        publish 1.1: 1
        meaning 1: live 1.1
        address 1.1: 1
        closing 1.1: 1
        closing 1.1: none
        meaning 1: closing 1.1
        address 1.1: none
        publish 1.2: 2
        used: 2
        acked 2: 0.0
        acked 1: 1.1
        acked 1: 0.0
        meaning 1: free 0.0
        publish 1.3: 1
        used: 2

        # what an event changed is undone
        publish 1.1: 1
        publish 1.2: 2
        keep: 2
        closing 1.1: 1
        publish 1.1: 3
        acked 1: 1.1
        publish 1.3: 1
        begin: 0
        publish 1.2: 1
        undo: 2
        meaning 1: live 1.1
        meaning 3: free 0.0
        address 1.1: 1
        address 1.2: 2
        address 1.3: none
        publish 1.3: 3

        # the lowest free address is found among many
        publish 1000: 1000
        keep: 1000
        close 1000: 0
        undo: 1000
        closing 1.700: 700
        acked 700: 1.700
        publish 1.2000: 700
        publish 1.2001: 1001",
    )
}
