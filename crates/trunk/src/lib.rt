//! Two RLNH ends over a link: which endpoints the two nodes of a link have told each other of, and
//! the signals between them, session by session, with no packet. `specs/` has what each event makes
//! of the link, of the RLNH ends and of the record of both sides, what holds of them whatever
//! happened, and what is promised of the record.
#![tactic(auto)]

mod call;
mod half;
mod history;
mod laws;
mod note;
mod parts;
mod steps;
mod trunk;
mod up;

pub use call::SideCall;
pub use laws::{
    events_keep, events_tell, messages_are_understood, quiet_ends_agree, quiet_is_complete,
    sides_agree, sides_offer, trunks_keep_promises, trunks_keep_records,
};
pub use trunk::Trunk;
pub use up::TrunkUp;
