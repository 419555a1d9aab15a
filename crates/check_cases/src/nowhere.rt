//! Steps of links and of nodes that there are not, and what a check of them says.

use journal::{By, Effects, Head, Journal, Step};
use journal_check::{Fault, Law, first_illegal};
use linx_base::{LinkDecl, LinkNo, Name, NameList, Names, NodeNo, Side, Verdict};
use std::alloc::Global;
use std::test::Fail;

/// The journal of a node without links, in which its one actor makes a step without effects.
fn journal_with(alloc: Global, head: Head) -> Result<Journal, Fail> {
    let mut nodes = NameList::new(alloc);
    nodes.push(Name::of(alloc, b"n")?)?;
    let links = NameList::new(alloc);
    let mut journal = Journal::new(alloc, Names { nodes, links });
    journal.reserve(1)?;
    journal.push(Step {
        by: By::Actor(1),
        head,
        effects: Effects::new(alloc),
    });
    Ok(journal)
}

/// The first fault of such a journal.
fn fault_of(alloc: Global, head: Head) -> Result<Option<Fault>, Fail> {
    let journal = journal_with(alloc, head)?;
    if journal.len() > 1 {
        return Err(Fail::from("it has one step"));
    }
    let links: [LinkDecl; 0] = [];
    Ok(first_illegal(alloc, &journal, 1, &links, &[NodeNo(1)])?)
}

/// The step is of a link that there isn't.
fn is_of_no_link(alloc: Global, head: Head) -> Result<(), Fail> {
    let wanted = Fault {
        step: 1,
        law: Law::Links,
        earliest: None,
    };
    if fault_of(alloc, head)? == Some(wanted) {
        Ok(())
    } else {
        Err(Fail::from("says something else"))
    }
}

#[test]
fn a_link_that_there_is_not_is_told(rt: HostRuntime) -> Result<(), Fail> {
    let alloc = rt.alloc();
    let link = LinkNo(1);
    is_of_no_link(alloc, Head::Cut(link))?;
    is_of_no_link(alloc, Head::Mend(link))?;
    is_of_no_link(alloc, Head::Settle(link))?;
    is_of_no_link(alloc, Head::Tick(link, Side::First))?;
    is_of_no_link(alloc, Head::Wire(link, Side::First, Verdict::Lose))
}

#[test]
fn a_restart_of_no_node_ends_nothing(rt: HostRuntime) -> Result<(), Fail> {
    if fault_of(rt.alloc(), Head::Restart(NodeNo(7)))?.is_none() {
        Ok(())
    } else {
        Err(Fail::from("a restart of no node is legal"))
    }
}
