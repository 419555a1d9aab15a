//! The session of a gateway over one byte stream: the requests of its clients come in whatever
//! pieces the source gives, each is handled and replied to before the next read, and the replies go
//! to the sink. Before a request is handled there is room for the longest reply, so no step is made
//! that can't be replied to for want of memory. What the journal has in the end is the steps of the
//! requests that were replied to, and then a front of the steps of the one that was stopped.
#![tactic(auto)]

mod framing;
mod handling;
mod laws;
mod session;

pub use laws::{each_goes_on, each_timer_over_a_session, no_call_where_full, no_signal_where_full};
pub use session::Session;
