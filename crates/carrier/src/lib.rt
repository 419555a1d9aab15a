//! Two ends of a link, the packets in flight between them, and the record of all their sessions:
//! what each event makes of them, what holds of them whatever happened, and what is promised. An
//! event changes a carrier in place, and either stays, or is taken back as if it had never been.
#![tactic(auto)]

mod carrier;
mod flight;
mod half;
mod handed;
mod laws;
mod link;
mod note;

pub use carrier::Carrier;
pub use handed::{Handed, TickedSide};
pub use laws::{events_keep, events_tell, links_keep_promises, quiet_is_complete};
