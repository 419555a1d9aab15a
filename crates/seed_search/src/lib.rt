//! The first of some seeds whose run shows what is sought: a line of its text that begins with these
//! words, or that there is none. Runs are made one after another, each anew, and the text of one is
//! let go before the next. Where a run stops short, so does the search: it answers of whole runs
//! alone.
#![tactic(auto)]

mod search;

pub use search::{Found, find};
