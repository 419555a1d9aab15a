//! Where a mark stands, from left to right.

use linx_base::{LinkNo, NodeNo, Side};

/// Where a mark stands, from left to right.
#[derive(Clone, Copy, Debug, PartialEq, Eq)]
pub enum Column {
    /// On the line of an actor.
    Life(u32),
    /// Across the lane of a link, from this side.
    Lane(LinkNo, Side),
    /// On the rail of a link at a node.
    Rail(LinkNo, NodeNo),
    /// Nowhere: it names an endpoint that no step opened, or a peer that is not over a link.
    Nowhere,
}
