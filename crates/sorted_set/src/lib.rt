//! A set of ordered elements that finds the k-th element from a bound on, and lends those from a
//! bound on in order. It keeps them in chunks of neighbours, so that a call searches these and one
//! of them, and moves the elements of one.
#![tactic(auto)]

mod chunk;
mod chunks;
mod rest;
mod sorted_set;

pub use rest::Rest;
pub use sorted_set::SortedSet;
