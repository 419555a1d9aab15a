//! What stands side by side in the chart of a run whose script is known.
ghost use Rattle.std.specs.Prelude.{◌≡◌, ◌++◌, map, IfOk, OnOk, option_map};
ghost use Rattle.journal_charts.specs.Named.{name_in_words, name_in_line, actor_names, name_of};
ghost use Rattle.journal_charts.specs.Named.{named_actor, named_actors, named_link, named_links};
ghost use Rattle.journal_charts.specs.Named.{named_setting};

use crate::actors::numbered_name;
use crate::setting::nodes_named;
use chart_drawing::{DrawnActor, DrawnLink, Setting, View};
use linx_base::{Blob, LinkDecl, LinkNo, Name, NoMemory, Sequence};
use script_lang::{ActorScript, Script};
use script_words::{LineError, first_line, words_of_line};
use std::alloc::Global;
use text_words::is_text;

/// Adds the name that words give an actor.
fn put_name(names: &mut Sequence<Blob>, alloc: Global, words: &[&[u8]]) -> Result<(), NoMemory>
    ensures { OnOk result (names.new
        ≡ names.old ++ name_in_words (map (λ w. w.now) words.now)) }
{
    match words {
        [first, name, ..] => {
            if is_text(first, b"actor") {
                names.push(Blob::of(alloc, name)?)?;
            }
            Ok(())
        }
        _ => Ok(()),
    }
}

/// Adds the name that a line of a script gives an actor.
fn put_name_in_line(names: &mut Sequence<Blob>, alloc: Global, line: &[u8]) -> Result<(), NoMemory>
    ensures { OnOk result (names.new ≡ names.old ++ name_in_line line.now) }
{
    match words_of_line(alloc, line) {
        Ok(words) => put_name(names, alloc, words.as_slice()),
        Err(LineError::Bad(_)) => Ok(()),
        Err(LineError::NoMemory) => Err(NoMemory),
    }
}

/// The names of the actors of a script, in the order of its lines.
fn actor_names(alloc: Global, bytes: &[u8]) -> Result<Sequence<Blob>, NoMemory>
    ensures { IfOk result (λ names. names ≡ actor_names bytes.now) }
{
    let mut names = Sequence::new(alloc);
    let mut rest = bytes;
    'lines: while !rest.is_empty() {
        let (line, behind) = first_line(rest);
        put_name_in_line(&mut names, alloc, line)?;
        rest = behind;
    }
    Ok(names)
}

/// The name of the actor of a number, no name where there is none.
fn actor_name(names: &[Blob], number: u32) -> &[u8]
    ensures { result.now ≡ name_of names.now number }
{
    match names.get((number as usize).saturating_sub(1)) {
        Some(name) => name.bytes(),
        None => b"",
    }
}

/// The name of the link of a number.
fn link_name(names: &[Name], number: u32) -> &[u8]
    ensures { result.now ≡ name_of names.now number }
{
    match names.get((number as usize).saturating_sub(1)) {
        Some(name) => name.bytes(),
        None => b"",
    }
}

/// An actor of a script by its name, and by its number below that.
fn named_actor(
    alloc: Global,
    names: &[Blob],
    number: u32,
    actor: &ActorScript,
) -> Result<DrawnActor, NoMemory>
    ensures { IfOk result (λ drawn. drawn ≡ named_actor names.now number actor.now) }
{
    Ok(DrawnActor {
        actor: number,
        node: actor.node,
        caption: Blob::of(alloc, actor_name(names, number))?,
        subcaption: numbered_name(alloc, number)?,
    })
}

/// The actors of a script, numbered from 1.
fn named_actors(
    alloc: Global,
    names: &[Blob],
    actors: &[ActorScript],
) -> Result<Vec<DrawnActor>, NoMemory>
    ensures { IfOk result (λ drawn. drawn.items ≡ named_actors names.now 1 actors.now) }
{
    let mut drawn = Vec::new(alloc);
    let mut number: u32 = 1;
    for actor in actors {
        drawn.push(named_actor(alloc, names, number, actor)?)?;
        number = number.saturating_add(1);
    }
    Ok(drawn)
}

/// A link of a script by its name, between its nodes.
fn named_link(
    alloc: Global,
    names: &[Name],
    number: u32,
    decl: &LinkDecl,
) -> Result<DrawnLink, NoMemory>
    ensures { IfOk result (λ drawn. drawn ≡ named_link names.now number decl.now) }
{
    Ok(DrawnLink {
        link: LinkNo(number),
        name: Blob::of(alloc, link_name(names, number))?,
        first: decl.first,
        second: decl.second,
    })
}

/// The links of a script, numbered from 1.
fn named_links(
    alloc: Global,
    names: &[Name],
    links: &[LinkDecl],
) -> Result<Vec<DrawnLink>, NoMemory>
    ensures { IfOk result (λ drawn. drawn.items ≡ named_links names.now 1 links.now) }
{
    let mut drawn = Vec::new(alloc);
    let mut number: u32 = 1;
    for decl in links {
        drawn.push(named_link(alloc, names, number, decl)?)?;
        number = number.saturating_add(1);
    }
    Ok(drawn)
}

/// What a run is laid out on of the script that these bytes spell, for a view.
pub fn named_setting(
    alloc: Global,
    bytes: &[u8],
    script: &Script,
    view: View,
) -> Result<Setting, NoMemory>
    ensures { IfOk result (λ setting. setting ≡ named_setting bytes.now script.now view) }
{
    let names = script.names();
    let actors = actor_names(alloc, bytes)?;
    Ok(Setting {
        view,
        nodes: Sequence::of(nodes_named(alloc, names.nodes.as_slice())?),
        links: Sequence::of(named_links(alloc, names.links.as_slice(), script.links())?),
        actors: Sequence::of(named_actors(alloc, actors.as_slice(), script.actors())?),
    })
}
