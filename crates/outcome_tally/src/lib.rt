//! What came of many runs of a script, and the report of it: which outcomes, how often each and in
//! which run first; which rare things, in how many runs and in which first; and between which numbers
//! of steps the runs lie. Runs are added one after another. Of a run whose outcome came before only
//! numbers are kept, so that memory grows with the outcomes and not with the runs.
#![tactic(auto)]

mod outcomes;
mod ranking;
mod rare_times;
mod report;
mod span;
mod tally;
mod times;
mod writing;

pub use tally::Tally;
