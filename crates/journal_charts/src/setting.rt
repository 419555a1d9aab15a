//! What stands side by side in the chart of a journal: the nodes and links that its names name, and
//! the actors that made steps.
ghost use Rattle.std.specs.Prelude.{◌≡◌, IfOk};
ghost use Rattle.journal_charts.specs.Setting.{nodes_from, links_from, has_stray};
ghost use Rattle.journal_charts.specs.Setting.{nodes_with, drawn_link, setting_of};

use crate::actors::actors_of;
use crate::ends::{RIGHTMOST, first_end, second_end};
use chart_drawing::{DrawnActor, DrawnLink, DrawnNode, Setting, View};
use journal::Journal;
use linx_base::{Blob, LinkNo, Name, NoMemory, NodeNo, Sequence};
use std::alloc::Global;

/// The nodes of names, numbered from 1.
pub(crate) fn nodes_named(alloc: Global, names: &[Name]) -> Result<Vec<DrawnNode>, NoMemory>
    ensures { IfOk result (λ nodes. nodes.items ≡ nodes_from 1 names.now) }
{
    let mut nodes = Vec::new(alloc);
    let mut number: u32 = 1;
    for name in names {
        nodes.push(DrawnNode {
            node: NodeNo(number),
            name: Blob::of(alloc, name.bytes())?,
        })?;
        number = number.saturating_add(1);
    }
    Ok(nodes)
}

/// A link of a name, between the nodes that the steps tell.
fn drawn_link(
    alloc: Global,
    journal: &Journal,
    link: LinkNo,
    name: &Name,
) -> Result<DrawnLink, NoMemory>
    ensures { IfOk result (λ drawn.
        drawn ≡ drawn_link journal.now.log.steps link name.now) }
{
    Ok(DrawnLink {
        link,
        name: Blob::of(alloc, name.bytes())?,
        first: first_end(journal, link),
        second: second_end(journal, link),
    })
}

/// The links of names, numbered from 1.
fn links_named(alloc: Global, journal: &Journal, names: &[Name]) -> Result<Vec<DrawnLink>, NoMemory>
    ensures { IfOk result (λ links.
        links.items ≡ links_from journal.now.log.steps 1 names.now) }
{
    let mut links = Vec::new(alloc);
    let mut number: u32 = 1;
    for name in names {
        links.push(drawn_link(alloc, journal, LinkNo(number), name)?)?;
        number = number.saturating_add(1);
    }
    Ok(links)
}

/// Whether one of the actors has no node.
fn has_stray(actors: &[DrawnActor]) -> bool
    ensures { result ≡ has_stray actors.now }
{
    actors.iter().any(|a| a.node.0 == RIGHTMOST.0)
}

/// Adds a box for actors without a node, where there are any.
fn nodes_with(
    alloc: Global,
    names: &[Name],
    actors: &[DrawnActor],
) -> Result<Vec<DrawnNode>, NoMemory>
    ensures { IfOk result (λ nodes. nodes.items ≡ nodes_with names.now actors.now) }
{
    let mut nodes = nodes_named(alloc, names)?;
    if !has_stray(actors) {
        return Ok(nodes);
    }
    nodes.push(DrawnNode {
        node: RIGHTMOST,
        name: Blob::of(alloc, b"?")?,
    })?;
    Ok(nodes)
}

/// What a journal is laid out on that comes without a script, for a view.
pub fn setting_of(alloc: Global, journal: &Journal, view: View) -> Result<Setting, NoMemory>
    ensures { IfOk result (λ setting.
        setting ≡ setting_of journal.now.log.names journal.now.log.steps view) }
{
    let names = journal.names();
    let actors = actors_of(alloc, journal)?;
    Ok(Setting {
        view,
        nodes: Sequence::of(nodes_with(alloc, names.nodes.as_slice(), &actors)?),
        links: Sequence::of(links_named(alloc, journal, names.links.as_slice())?),
        actors: Sequence::of(actors),
    })
}
