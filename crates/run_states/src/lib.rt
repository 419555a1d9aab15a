//! That a journal reaches one state. A run over trunks says of each step which trunks it leaves,
//! and not how they are computed; `proofs/` shows that the steps of a journal leave no choice, so
//! that whoever knows the trunks at the beginning and the journal knows the trunks at its end. Nor
//! does the head of a step leave a choice of its effects.
#![tactic(auto)]

mod laws;

pub use laws::runs_reach_one_state;
