//! The sliding window of a link end. The sender numbers its frames from 0 and sends as many as the
//! window holds; each acknowledgement lets as many follow, and what wasn't acknowledged can be sent
//! again. The receiver takes every number once and in order, and keeps what comes early for later.
//! Both change in place and have a way back: `keep` lets the changes of an event stay, and `undo`
//! takes them back; neither takes memory nor can fail.
#![tactic(auto)]

mod queue;
mod rx;
mod tx;

pub use rx::{Accept, Rx};
pub use tx::Tx;
