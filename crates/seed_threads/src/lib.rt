//! A search of the runs of many seeds, and their report, side by side: as many runs at a time as the
//! machine has processors. What they answer is what the search and the report one after another do,
//! whichever thread is done first. Where a thread can't be made, its runs are made by another one.
//! The runs are made in waves, and after each wave it is told how far they have come.
#![tactic(auto)]

mod pieces;
mod processors;
mod reports;
mod sizes;
mod tallies;
mod totals;
mod waves;

pub use reports::report;
pub use waves::find;
