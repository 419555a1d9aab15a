//! A list that contracts alone read: what was told of something, item by item, with a way back. It
//! takes no memory, since of the items that were put in the list none is kept.
#![tactic(auto)]

mod told_list;

pub use told_list::ToldList;
