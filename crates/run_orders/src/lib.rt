//! That a run of a script leaves no choice but whose step is next. What a step is asked to be, the
//! script says by the steps before it, and what the machine makes of that leaves no choice either;
//! `proofs/` shows by induction over the journal that the order of the makers decides it, and so
//! that a script has one run in the fixed order. Nothing here runs: it stands on the definitions of
//! `stage` and of the layers below it.
#![tactic(auto)]

mod laws;

pub use laws::orders_decide;
