//! The report of the runs of some seeds: what came of each, tallied. Runs are made one after another,
//! each anew, and the journal of one is let go before the next. A run whose journal was full before
//! its end is counted as such, and in nothing else. The tallies of two ranges, of which one begins
//! behind the other, are joined to that of both.
#![tactic(auto)]

mod reports;
mod seen;

pub use reports::{actors_in, report, tally};
pub use seen::seen_of_seed;
