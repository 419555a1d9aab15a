//! Calls of the tables of a node: its names, its pending hunts and its attaches.

use crate::texts::{hunts_text, name_or_none, or_nothing};
use attach_table::{AttachTable, AttachesUnder};
use case_words::{
    add_piece, follow_anew, front, inc_of, inc_text, link_of, name_of, number_text, path_of,
    peer_of, session_of, text_of, yes_text,
};
use hunt_table::HuntTable;
use linx_base::{AttRef, Inc, NodeNo, PendingAttach, PendingHunt, Signal};
use name_table::NameTable;
use std::alloc::Global;
use std::test::Fail;

/// `add INC NAME`.
fn add(alloc: Global, table: &mut NameTable, rest: &str) -> Result<String, Fail> {
    let (inc, name) = front(rest);
    match table.add(name_of(alloc, name)?, inc_of(inc)?) {
        Ok(()) => text_of(alloc, "done"),
        Err(_) => Err(Fail::from("out of memory")),
    }
}

/// `fill COUNT NAME`: so many endpoints on the first node are added under a name.
fn fill(alloc: Global, table: &mut NameTable, rest: &str) -> Result<String, Fail> {
    let (count, name) = front(rest);
    for k in 0..count.parse::<u32>()? {
        let inc = Inc::of(NodeNo(1), k + 1);
        if table.add(name_of(alloc, name)?, inc).is_err() {
            return Err(Fail::from("out of memory"));
        }
    }
    text_of(alloc, "done")
}

/// `first NAME`: the first endpoint of the name.
fn first(alloc: Global, table: &NameTable, rest: &str) -> Result<String, Fail> {
    match table.first(&name_of(alloc, rest)?) {
        Some(inc) => inc_text(alloc, inc),
        None => text_of(alloc, "none"),
    }
}

/// What a call at a table of names, by its words, answers.
fn names_answer(alloc: Global, table: &mut NameTable, call: &str) -> Result<String, Fail> {
    let (call, rest) = front(call);
    match call {
        "add" => add(alloc, table, rest),
        "fill" => fill(alloc, table, rest),
        "first" => first(alloc, table, rest),
        "name" => name_or_none(alloc, table.name_of(inc_of(rest)?)),
        "remove" => yes_text(alloc, table.remove(inc_of(rest)?)),
        _ => Err(Fail::from("no such call")),
    }
}

#[test]
fn first_of_a_name_is_the_first_that_is_left(rt: HostRuntime) -> Result<(), Fail> {
    follow_anew(
        rt.alloc(),
        NameTable::new(rt.alloc()),
        &names_answer,
        "fill 99 server -> done
        add 1.100 client -> done
        first server -> 1.1
        first serve -> none
        name 1.100 -> client
        remove 1.1 -> yes
        remove 1.1 -> no
        name 1.1 -> none
        first server -> 1.2",
    )
}

/// `pend NUMBER HUNTER PATH`: a hunt, with an empty signal.
fn pend(alloc: Global, table: &mut HuntTable, rest: &str) -> Result<String, Fail> {
    let (number, rest) = front(rest);
    let (at, path) = front(rest);
    let hunt = PendingHunt {
        at: inc_of(at)?,
        number: number.parse()?,
        path: path_of(alloc, path)?,
        signal: Signal::alloc(alloc, 251, b"")?,
    };
    match table.pend(hunt) {
        Ok(()) => text_of(alloc, "done"),
        Err(_) => Err(Fail::from("out of memory")),
    }
}

/// `for PATH`: the numbers of the hunts for the path.
fn hunts_for(alloc: Global, table: &HuntTable, rest: &str) -> Result<String, Fail> {
    let path = path_of(alloc, rest)?;
    hunts_text(alloc, table.hunts_for(&path))
}

/// What a call at a table of hunts, by its words, answers.
fn hunts_answer(alloc: Global, table: &mut HuntTable, call: &str) -> Result<String, Fail> {
    let (call, rest) = front(call);
    match call {
        "pend" => return pend(alloc, table, rest),
        "for" => return hunts_for(alloc, table, rest),
        "over" => return hunts_text(alloc, table.hunts_over(link_of(rest)?)),
        "drop_of" => table.drop_of(inc_of(rest)?),
        "drop_for" => table.drop_for(&path_of(alloc, rest)?),
        _ => return Err(Fail::from("no such call")),
    }
    text_of(alloc, "done")
}

#[test]
fn hunts_are_found_by_path_link_and_hunter(rt: HostRuntime) -> Result<(), Fail> {
    follow_anew(
        rt.alloc(),
        HuntTable::new(rt.alloc()),
        &hunts_answer,
        "pend 10 1.1 1/a -> done
        pend 11 1.2 a -> done
        pend 12 1.1 2/a -> done
        pend 13 1.3 1/b -> done
        pend 14 1.3 1/a -> done
        for 1/a -> 10 14
        over 1 -> 10 13 14
        over 3 -> nothing
        drop_of 1.3 -> done
        for 1/a -> 10
        drop_for 1/a -> done
        for 1/a -> nothing
        over 2 -> 12
        over 1 -> nothing
        for a -> 11",
    )
}

/// `attach HOLDER PEER REFERENCE`: an attach, whose signal has one byte.
fn attach(alloc: Global, table: &mut AttachTable, rest: &str) -> Result<String, Fail> {
    let (at, rest) = front(rest);
    let (peer, reference) = front(rest);
    let attach = PendingAttach {
        at: inc_of(at)?,
        peer: peer_of(peer)?,
        reference: AttRef(reference.parse()?),
        signal: Signal::alloc(alloc, 252, b"x")?,
    };
    if attach.signal.bytes().len() > 100 {
        return Err(Fail::from("too long a signal"));
    }
    match table.attach(attach) {
        Ok(()) => text_of(alloc, "done"),
        Err(_) => Err(Fail::from("out of memory")),
    }
}

/// The references of the attaches that a walk goes over.
fn references(alloc: Global, mut attaches: AttachesUnder<'_>) -> Result<String, Fail> {
    let mut text = String::new(alloc);
    for _ in 0..u64::MAX {
        let Some(attach) = attaches.next_entry() else {
            break;
        };
        let number = number_text(alloc, attach.reference.0)?;
        add_piece(&mut text, " ", number.as_str())?;
    }
    or_nothing(alloc, text)
}

/// `within LINK SESSION`: the references of the attaches to the peers of a session.
fn within(alloc: Global, table: &AttachTable, rest: &str) -> Result<String, Fail> {
    let (link, session) = front(rest);
    let attaches = table.attaches_within(link_of(link)?, session_of(session)?);
    references(alloc, attaches)
}

/// `detach HOLDER REFERENCE`: whether there was one.
fn detach(alloc: Global, table: &mut AttachTable, rest: &str) -> Result<String, Fail> {
    let (at, reference) = front(rest);
    yes_text(alloc, table.detach(inc_of(at)?, AttRef(reference.parse()?)))
}

/// `drop_within LINK SESSION`.
fn drop_within(table: &mut AttachTable, rest: &str) -> Result<(), Fail> {
    let (link, session) = front(rest);
    table.drop_within(link_of(link)?, session_of(session)?);
    Ok(())
}

/// What a call at a table of attaches, by its words, answers.
fn attaches_answer(alloc: Global, table: &mut AttachTable, call: &str) -> Result<String, Fail> {
    let (call, rest) = front(call);
    match call {
        "attach" => return attach(alloc, table, rest),
        "to" => return references(alloc, table.attaches_to(peer_of(rest)?)),
        "within" => return within(alloc, table, rest),
        "detach" => return detach(alloc, table, rest),
        "drop_to" => table.drop_to(peer_of(rest)?),
        "drop_of" => table.drop_of(inc_of(rest)?),
        "drop_within" => drop_within(table, rest)?,
        _ => return Err(Fail::from("no such call")),
    }
    text_of(alloc, "done")
}

#[test]
fn attaches_are_found_by_peer_session_holder_and_reference(rt: HostRuntime) -> Result<(), Fail> {
    follow_anew(
        rt.alloc(),
        AttachTable::new(rt.alloc()),
        &attaches_answer,
        "attach 1.1 1:1.1:2.1 1 -> done
        attach 1.2 1.9 2 -> done
        attach 1.2 1:1.1:2.2 3 -> done
        attach 1.1 1:1.2:2.1 4 -> done
        attach 1.3 1.9 5 -> done
        attach 1.3 1:1.1:2.1 6 -> done
        detach 1.1 2 -> no
        to 1.9 -> 2 5
        within 1 1.1 -> 1 3 6
        within 2 1.1 -> nothing
        detach 1.2 2 -> yes
        to 1.9 -> 5
        drop_to 1.9 -> done
        to 1.9 -> nothing
        drop_of 1.1 -> done
        within 1 1.1 -> 3 6
        to 1:1.2:2.1 -> nothing
        drop_within 1 1.1 -> done
        to 1:1.1:2.1 -> nothing",
    )
}
