//! One direction of a link between two nodes: the packets that are in flight, oldest first. A wire
//! may lose any packet and exchange any two; what stands at a place was put. What an event does to a
//! wire either stays, or is taken back as if it had never been.
#![tactic(auto)]

mod wire;

pub use wire::Wire;
