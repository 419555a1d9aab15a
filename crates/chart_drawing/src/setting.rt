//! What stands side by side in a drawing: nodes with their actors, and links.

use crate::view::View;
use linx_base::{Blob, LinkNo, NodeNo, Sequence};

/// A node, with its name.
#[derive(Drop)]
pub struct DrawnNode {
    pub node: NodeNo,
    pub name: Blob,
}

/// A link between two nodes, with its name.
#[derive(Drop)]
pub struct DrawnLink {
    pub link: LinkNo,
    pub name: Blob,
    pub first: NodeNo,
    pub second: NodeNo,
}

/// An actor of a node, with what it is called over its line, and what else is said of it below that.
#[derive(Drop)]
pub struct DrawnActor {
    pub actor: u32,
    pub node: NodeNo,
    pub caption: Blob,
    pub subcaption: Blob,
}

/// What a run is laid out on, and what of it is seen. Nodes stand in the order of their numbers, and
/// so do a node's actors.
#[derive(Drop)]
pub struct Setting {
    pub view: View,
    pub nodes: Sequence<DrawnNode>,
    pub links: Sequence<DrawnLink>,
    pub actors: Sequence<DrawnActor>,
}
