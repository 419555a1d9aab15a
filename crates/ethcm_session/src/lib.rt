//! The session of a link end: whether it is connecting or up with a session of its peer, what each
//! packet means to it by the table of sessions, and what it replies. A session number never falls,
//! and rises exactly where the end goes down or its node boots again. Beside it the watch of the
//! end: it counts the ticks since the peer was heard, and reports the link lost at the third. Both
//! have a way back: what an event changed is kept or undone.
#![tactic(auto)]

mod standing;
mod talk;
mod watch;

pub use standing::{Change, Standing, TalkState};
pub use talk::Talk;
pub use watch::{Alive, Watch};
