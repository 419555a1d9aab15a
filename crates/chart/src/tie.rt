//! Ties: which lines belong together.

use linx_base::ItemAt;

/// Why two lines belong together.
#[derive(Clone, Copy, Debug, PartialEq, Eq)]
pub enum TieKind {
    /// A signal that was sent on a node, and its arrival.
    Signal,
    /// A signal that was sent over a link, and its arrival.
    Carried,
    /// A signal that was sent over a link and never arrived: both are the line of its send.
    Lost,
    /// An item that came to a queue, and the step that took it.
    Taken,
    /// A hunt, and what it found.
    Hunt,
    /// An attach, and its notification.
    Attach,
    /// An attach, and the step that detached it.
    Detach,
}

/// Two lines that belong together, the earlier one first.
#[derive(Clone, Copy, Debug, PartialEq, Eq)]
pub struct Tie {
    pub kind: TieKind,
    pub from: ItemAt,
    pub to: ItemAt,
}
