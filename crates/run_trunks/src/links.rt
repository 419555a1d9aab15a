//! What a declared link says of its sides.
ghost use Rattle.std.specs.Prelude.{◌≡◌};
ghost use Rattle.link_laws.specs.Ends.{end_of};
ghost use Rattle.run_trunks.specs.Changes.{side_with};

use linx_base::{LinkDecl, NodeNo, Side};

/// The node at a side of a link.
pub(crate) fn node_of(link: &LinkDecl, side: Side) -> NodeNo
    ensures { result.0 ≡ end_of link.now side }
{
    match side {
        Side::First => link.first,
        Side::Second => link.second,
    }
}

/// The side of a link that is on a node, if one is.
pub(crate) fn side_on(link: &LinkDecl, node: NodeNo) -> Option<Side>
    ensures { result ≡ side_with node.0 link.now }
{
    if link.first == node {
        Some(Side::First)
    } else if link.second == node {
        Some(Side::Second)
    } else {
        None
    }
}
