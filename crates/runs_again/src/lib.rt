//! That a run comes again by its own text: its script with the lines `order` of its turns behind it
//! is one text, and the whole run that `serial` makes of this text has the journal of the first,
//! whoever made that one, threads too. `orders` shows it of the list of the turns, and `turn_lines`
//! that the lines spell such a list; here both are shown to be one list, and the lines to leave the
//! script as it is. Nothing here runs: it stands on the definitions of these layers.
#![tactic(auto)]

mod laws;

pub use laws::{runs_come_again, turns_are_one, turns_are_spelled};
