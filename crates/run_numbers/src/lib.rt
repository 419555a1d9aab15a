//! That numbers don't run out. A side numbers the frames of a session, the sessions of a boot and
//! the boots of its node with 32 bits each. A step takes two messages at most of a session, and a
//! message 1,024 frames at most, so a run of 200,000 steps takes less than a tenth of them; and a
//! session or a boot more at most. So no step of a run finds a side without numbers.
#![tactic(auto)]

mod laws;

pub use laws::{frames_are_numbered, runs_have_numbers, runs_take_few};
