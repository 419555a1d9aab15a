//! What is on its way over links.

use journal::By;
use linx_base::{Inc, ItemAt, LinkNo, NodeNo, Session};

/// A session of a node on a link, and the session of the other side that came up with it.
#[derive(Clone, Copy, Debug, PartialEq, Eq)]
pub struct Pairing {
    pub node: NodeNo,
    pub link: LinkNo,
    pub own: Session,
    pub other: Session,
}

/// A signal on its way over a link: who sent it, in which session of the sender's side, to whom,
/// and the line of its send.
#[derive(Clone, Copy, Debug, PartialEq, Eq)]
pub struct Flight {
    pub by: By,
    pub link: LinkNo,
    pub session: Session,
    pub to: Inc,
    pub line: ItemAt,
}
