//! The steps of a journal by their positions.

use journal::{By, Effects, Head, Journal, Step};
use linx_base::{Name, NameList, Names};
use std::alloc::Global;
use std::test::Fail;

/// A journal of one node and no links.
fn new_journal(alloc: Global) -> Result<Journal, Fail> {
    let mut nodes = NameList::new(alloc);
    nodes.push(Name::of(alloc, b"n")?)?;
    let names = Names {
        nodes,
        links: NameList::new(alloc),
    };
    Ok(Journal::new(alloc, names))
}

/// An actor ends.
fn end(alloc: Global, journal: &mut Journal, actor: u32) -> Result<(), Fail> {
    journal.reserve(1)?;
    journal.push(Step {
        by: By::Actor(actor),
        head: Head::Ended,
        effects: Effects::new(alloc),
    });
    Ok(())
}

/// The actor that made the step at a position.
fn actor_at(journal: &Journal, position: u64) -> Option<u32> {
    match journal.step(position)?.by {
        By::Actor(actor) => Some(actor),
        By::Pump(_) => None,
    }
}

#[test]
fn a_new_journal_is_empty(rt: HostRuntime) -> Result<(), Fail> {
    let journal = new_journal(rt.alloc())?;
    assert!(rt; journal.is_empty() && !journal.full());
    assert_eq!(rt; journal.names().nodes.len(), 1);
    Ok(())
}

#[test]
fn steps_stand_at_their_positions(rt: HostRuntime) -> Result<(), Fail> {
    let mut journal = new_journal(rt.alloc())?;
    for actor in 1..4 {
        end(rt.alloc(), &mut journal, actor)?;
    }
    assert_eq!(rt; (journal.len(), journal.signal_bytes()), (3, 0));
    for (position, actor) in [(0, None), (1, Some(1)), (3, Some(3)), (4, None)] {
        assert!(rt; actor_at(&journal, position) == actor, "at {position}");
    }
    Ok(())
}
