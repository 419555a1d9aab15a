//! The link addresses that one side of a link gives to its endpoints. An address is given by
//! `publish`, stays taken while its endpoint is closing, and is free again once the other side has
//! acknowledged the closing. What an event changes either stays or is undone.
#![tactic(auto)]

mod addresses;
mod change;
mod groups;
mod index;
mod meaning;
mod table;
mod way_back;

pub use addresses::Addresses;
pub use meaning::Meaning;
