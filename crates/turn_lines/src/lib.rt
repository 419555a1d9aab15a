//! The lines `order` that list the turns of a journal: who began each, oldest first, in the words
//! that a script says them in. A script with these lines behind it lists the same turns.
#![tactic(auto)]

mod laws;
mod rows;
mod text;

pub use laws::turns_read_back;
pub use text::order_lines;
