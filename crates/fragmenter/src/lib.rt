//! Messages are cut into frames of bounded size, and frames are joined to messages again. The
//! pieces of some messages, joined in order from outside a message, give exactly those messages,
//! each at its last piece; whatever else comes is joined or refused by one rule, which looks at the
//! pieces so far. Pieces share the bytes that they are cut from, and so does a message that is made
//! whole of few pieces which lie next to each other; else its bytes are copied. What an event did to
//! a joiner either stays, or is taken back.
#![tactic(auto)]

mod cutting;
mod joiner;
mod laws;

pub use cutting::pieces;
pub use joiner::{Joined, Joiner};
pub use laws::{pieces_join, streams_join};
