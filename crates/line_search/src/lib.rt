//! Which line of a printed text has these words. A line is looked at behind what says where it
//! stands: the number and the maker of a step, or the `+` of an effect; and `_` stands for any word.
//! What is sought is such a line, or that there is none.
#![tactic(auto)]

mod search;
mod sought;

pub use search::find;
pub use sought::{Sought, seek};
