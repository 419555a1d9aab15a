//! The attaches of a node that are owed a notification, in order of attaching. The attaches to a
//! peer, or to the peers of a session of a link, those of a reference, and those of a holder are
//! found without a look at any other attach. A signal is kept as it was attached, with room for one
//! byte: a notification's is made anew, with the byte of its reason behind its data, before anything
//! is taken out.
#![tactic(auto)]

mod attach_key;
mod attach_table;

pub use attach_key::AttachKey;
pub use attach_table::{AttachTable, AttachesUnder};
