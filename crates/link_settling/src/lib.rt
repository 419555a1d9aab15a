//! That a link settles. `specs/` says how far a link is from having nothing in flight, and when it
//! settles in some ticks: whatever is offered meanwhile, once all packets have come, in order and
//! none lost, a side ticks, then the other, and after the last tick the link is quiet. `proofs/`
//! shows that each packet that comes and leaves its place, whichever that is, lowers the first, and
//! that six ticks are enough for every link; and so are six rounds, whichever side ticks first in
//! each. It stands on the functions and laws of a carrier alone.
#![tactic(auto)]

mod laws;

pub use laws::{deliveries_end, links_settle, links_settle_in_rounds};
