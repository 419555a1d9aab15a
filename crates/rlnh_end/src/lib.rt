//! One end of a link as RLNH has it: which endpoints the two nodes of a link have told each other
//! of. It gives link addresses to endpoints of its own node, knows the peers that it has met by
//! theirs, and notes the names that the other side asked for. What a call or a message makes of
//! these tables, and what the end says thereby, is a function of the tables and of what came, one
//! small function a rule, in `specs/`; `RlnhEnd` does what they say. An event changes an end in
//! place, and either stays, or is taken back as if it had never been.
#![tactic(auto)]

mod calls;
mod decoding;
mod end;
mod fact;
mod facts;
mod heard;
mod hearing;
mod laws;
mod met_at;
mod parts;
mod up;

pub use end::RlnhEnd;
pub use heard::Heard;
pub use laws::{calls_follow_rules, hearing_follows_rules};
pub use met_at::MetAt;
pub use up::Up;
