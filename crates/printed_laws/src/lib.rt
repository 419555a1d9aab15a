//! What is read of the text of a legal journal is legal, with what its attaches tell of their
//! notifications; and a text of which such steps are read is that of a legal run, as far as a text
//! tells.
#![tactic(auto)]

mod laws;

pub use laws::{legal_runs_pass, passing_are_runs, printed_stays_legal, stand_ins_tell_nothing};
