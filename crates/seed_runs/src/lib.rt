//! The run of a script in the order of a seed, from the bytes that spell the script to its journal,
//! for who makes many runs. The turns that the script's lines `order` list come first, and behind
//! them those of the seed. Each run is made anew, and nothing of one is kept for the next, so that
//! runs of a script know nothing of each other. A seed decides a run.
#![tactic(auto)]

mod laws;
mod runs;

pub use laws::seeds_decide;
pub use runs::{RunStop, run_of_seed};
