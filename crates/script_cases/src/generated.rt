//! The generated script beside the one that its text spells.

use crate::load_text::{N, load_text};
use crate::shown::{plan_of, shown_commands};
use linx_base::{Name, Side};
use script_lang::{ActorScript, Script, parse};
use std::alloc::Global;
use std::test::Fail;
use work_gen::script;

fn read_script(alloc: Global) -> Result<Script, Fail> {
    Ok(parse(alloc, load_text(alloc)?.as_bytes())?)
}

fn same_names(a: &[Name], b: &[Name]) -> bool {
    a.len() == b.len() && a.iter().zip(b).all(|(x, y)| x.same(y))
}

#[test]
fn names_and_links_that_its_text_spells(rt: HostRuntime) -> Result<(), Fail> {
    let (made, read) = (script(rt.alloc(), N)?, read_script(rt.alloc())?);
    assert!(rt; made.links().len() == 3 && made.links() == read.links());
    let (made, read) = (made.names(), read.names());
    assert!(rt; same_names(made.nodes.as_slice(), read.nodes.as_slice()));
    assert!(rt; same_names(made.links.as_slice(), read.links.as_slice()));
    Ok(())
}

fn same_actor(alloc: Global, a: &ActorScript, b: &ActorScript) -> Result<bool, Fail> {
    let (made, read) = (shown_commands(alloc, a)?, shown_commands(alloc, b)?);
    Ok(a.node == b.node && made == read)
}

#[test]
fn actors_that_its_text_spells(rt: HostRuntime) -> Result<(), Fail> {
    let (made, read) = (script(rt.alloc(), N)?, read_script(rt.alloc())?);
    assert!(rt; made.actors().len() == 27 && read.actors().len() == 27);
    for (a, b) in made.actors().iter().zip(read.actors()) {
        assert!(rt; same_actor(rt.alloc(), a, b)?);
    }
    Ok(())
}

fn same_plans(made: &Script, read: &Script, link: u32, from: Side) -> Result<bool, Fail> {
    Ok(plan_of(made, link, from)? == plan_of(read, link, from)?)
}

#[test]
fn plans_that_its_text_spells(rt: HostRuntime) -> Result<(), Fail> {
    let (made, read) = (script(rt.alloc(), N)?, read_script(rt.alloc())?);
    for link in 1..=3u32 {
        assert!(rt; same_plans(&made, &read, link, Side::First)?);
        assert!(rt; same_plans(&made, &read, link, Side::Second)?);
    }
    Ok(())
}
