//! Marks: what is drawn of a line.

use crate::column::Column;
use journal::{By, Detached, SentTo};
use linx_base::{ItemAt, LinkNo, NodeNo, Verdict};

/// What a mark is of: the head of a step, or an effect.
#[derive(Clone, Copy, Debug, PartialEq, Eq)]
pub enum MarkKind {
    Open,
    Close,
    Send(SentTo),
    Take,
    TakeNone,
    Waits,
    Hunt,
    Attach,
    Detach(Detached),
    Cut(LinkNo),
    Mend(LinkNo),
    Settle,
    Restart(NodeNo),
    /// A packet that met this verdict.
    Packet(Verdict),
    Tick,
    Refused,
    Ended,
    Opened,
    Closed,
    Arrived,
    Found,
    Notified,
    Met,
    Gone,
    Up,
    Down,
}

/// What is drawn of a line: that of the step at a position, at place 0, or of one of its effects,
/// which have places from 1 on. With it stands who made the step, and of a send the column of the
/// endpoint that it is to.
#[derive(Clone, Copy, Debug, PartialEq, Eq)]
pub struct Mark {
    pub line: ItemAt,
    pub column: Column,
    pub kind: MarkKind,
    pub by: By,
    pub to: Column,
}
