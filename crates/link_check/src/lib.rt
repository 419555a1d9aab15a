//! The laws of what links hold, decided by tables that follow a history: whether what a packet
//! brings may come, which session a tick may lose, whether every link is still, whether a link is
//! one that there is, and whether a packet of a link that is cut is lost. A book is kept of all
//! links of a run: it passes each legal step, and tells of the next one whether it keeps each law of
//! links, by its tables and the kernels of the nodes, and of a restart which sessions it ends. Nothing
//! is looked up in the history; and whether a link is still is told from what was stirred on it since
//! the last receive that found none, where no session of it went up or down since, and nobody cut or
//! mended it.
//!
//! The laws are those of `link_laws`. Whether the effects of a packet or a tick are exactly those
//! that it has is told by the kernel of its node, and not here; what it brings is read from them.
#![tactic(auto)]

mod book;
mod cut;
mod delivery;
mod judge;
mod laws;
mod line_table;
mod rest;
mod shape;
mod still;
mod tick;

pub use book::Book;
pub use laws::{books_follow, books_tell_laws, steps_are_legal_by_laws};
