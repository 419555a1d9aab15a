//! The names of nodes and links that a printed text spells, for who reads it without the script of
//! its run. A node has the number that the title of a log shows, and a link the number of the pump
//! that meets its packets and ticks. The numbers that no line tells go to the other names, in the
//! order in which they come.
#![tactic(auto)]

mod first_words;
mod names;
mod naming;
mod numbering;
mod other_names;
mod told_names;

pub use names::names_of;
pub use told_names::{Numbered, Told};
