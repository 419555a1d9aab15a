//! A script and a printed text in one input: first the script, then a line that is exactly `text`,
//! and behind it the text. Nothing of the script is such a line, so the first one ends it. Whether
//! the script is one, and the text, is told by who reads them.
#![tactic(auto)]

mod parts;

pub use parts::{Parts, parted};
