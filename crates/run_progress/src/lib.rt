//! How far many runs have come, told while they are made. A line says how many of how many were
//! made, and stands on a sink a second or more behind the line before. Telling it changes nothing of
//! what the runs come to: where the clock or the sink has a fault, no more is told, and the runs go
//! on.
#![tactic(auto)]

mod each_second;
mod line;
mod progress;

pub use each_second::EachSecond;
pub use progress::{Progress, Untold};
