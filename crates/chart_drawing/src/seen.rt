//! Which columns a part of a chart has: those in which one of the marks stands that are seen.
ghost use Rattle.std.specs.Prelude.{◌≡◌};
ghost use Rattle.chart_drawing.specs.Seen.{on_link, does_to, is_of_link, has_actor};
ghost use Rattle.chart_drawing.specs.Seen.{has_link, is_on_node, ends_at, is_on_line};
ghost use Rattle.chart_drawing.specs.Seen.{is_of_one, stands_in, setting_in, has_node};
ghost use Rattle.chart_drawing.specs.Seen.{actors_in, links_in, nodes_of};

use crate::setting::{DrawnActor, DrawnLink, DrawnNode, Setting};
use crate::view::{View, is_part, is_seen, on_life};
use chart::{Column, Mark, MarkKind};
use linx_base::Sequence;

/// Whether a column is the lane of a link, or a rail of it.
pub(crate) fn on_link(link: u32, column: Column) -> bool
    ensures { result ≡ on_link link column }
{
    match column {
        Column::Lane(on, _) | Column::Rail(on, _) => on.0 == link,
        _ => false,
    }
}

/// Whether a mark cuts or mends a link.
fn does_to(link: u32, kind: MarkKind) -> bool
    ensures { result ≡ does_to link kind }
{
    match kind {
        MarkKind::Cut(on) | MarkKind::Mend(on) => on.0 == link,
        _ => false,
    }
}

fn is_of_link(link: u32, mark: &Mark) -> bool
    ensures { result ≡ is_of_link link mark.now }
{
    on_link(link, mark.column) || does_to(link, mark.kind)
}

/// Whether one of the marks that are seen stands on an actor's line.
fn has_actor(view: &View, marks: &[Mark], actor: u32) -> bool
    ensures { result ≡ has_actor view.now marks.now actor }
{
    marks
        .iter()
        .any(|m| is_seen(view, m) && on_life(actor, m.column))
}

/// Whether one of them is of a link.
fn has_link(view: &View, marks: &[Mark], link: u32) -> bool
    ensures { result ≡ has_link view.now marks.now link }
{
    marks
        .iter()
        .any(|m| is_seen(view, m) && is_of_link(link, m))
}

fn is_on_node(actors: &[DrawnActor], node: u32) -> bool
    ensures { result ≡ is_on_node actors.now node }
{
    actors.iter().any(|a| a.node.0 == node)
}

fn ends_at(links: &[DrawnLink], node: u32) -> bool
    ensures { result ≡ ends_at links.now node }
{
    links
        .iter()
        .any(|l| l.first.0 == node || l.second.0 == node)
}

/// Whether one of the actors is on a node, or one of the links ends there.
fn has_node(actors: &[DrawnActor], links: &[DrawnLink], node: u32) -> bool
    ensures { result ≡ has_node actors.now links.now node }
{
    is_on_node(actors, node) || ends_at(links, node)
}

fn is_on_line(actors: &[DrawnActor], column: Column) -> bool
    ensures { result ≡ is_on_line actors.now column }
{
    actors.iter().any(|a| on_life(a.actor, column))
}

fn is_of_one(links: &[DrawnLink], mark: &Mark) -> bool
    ensures { result ≡ is_of_one links.now mark.now }
{
    links.iter().any(|l| is_of_link(l.link.0, mark))
}

/// Whether a mark stands in a column of the setting, or cuts or mends one of its links.
pub(crate) fn stands_in(setting: &Setting, mark: &Mark) -> bool
    ensures { result ≡ stands_in setting.now mark.now }
{
    is_on_line(setting.actors.as_slice(), mark.column) || is_of_one(setting.links.as_slice(), mark)
}

fn actors_in(actors: Sequence<DrawnActor>, view: &View, marks: &[Mark]) -> Sequence<DrawnActor>
    ensures { result ≡ actors_in view.now marks.now actors }
{
    let mut kept = actors.into_vec();
    kept.retain(|a| has_actor(view, marks, a.actor));
    Sequence::of(kept)
}

fn links_in(links: Sequence<DrawnLink>, view: &View, marks: &[Mark]) -> Sequence<DrawnLink>
    ensures { result ≡ links_in view.now marks.now links }
{
    let mut kept = links.into_vec();
    kept.retain(|l| has_link(view, marks, l.link.0));
    Sequence::of(kept)
}

fn nodes_of(
    nodes: Sequence<DrawnNode>,
    actors: &[DrawnActor],
    links: &[DrawnLink],
) -> Sequence<DrawnNode>
    ensures { result ≡ nodes_of actors.now links.now nodes }
{
    let mut kept = nodes.into_vec();
    kept.retain(|n| has_node(actors, links, n.node.0));
    Sequence::of(kept)
}

/// The columns of a setting in which marks stand that are seen; all where nothing is left out.
pub(crate) fn setting_in(setting: Setting, marks: &[Mark]) -> Setting
    ensures setting { result ≡ setting_in marks.now setting }
    ensures view { result.view ≡ setting.view }
{
    if !is_part(&setting.view) {
        return setting;
    }
    let Setting {
        view,
        nodes,
        links,
        actors,
    } = setting;
    let actors = actors_in(actors, &view, marks);
    let links = links_in(links, &view, marks);
    let nodes = nodes_of(nodes, actors.as_slice(), links.as_slice());
    Setting {
        view,
        nodes,
        links,
        actors,
    }
}
