//! The names of a node's open endpoints: pairs of a name and an incarnation, in the order in which
//! they were added. The first endpoint of a name, the name of an endpoint, and the pair to take out
//! are found without a look at any other pair. An incarnation is looked up by its first pair, so no
//! call asks that it is there once.
#![tactic(auto)]

mod name_table;
mod named;

pub use name_table::NameTable;
pub use named::NamedEndpoint;
