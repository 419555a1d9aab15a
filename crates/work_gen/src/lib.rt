//! The generated load: for each number a script of four nodes in a row, with a link from each to
//! the next whose plans lose, repeat and exchange as the number says. Over each link eight clients
//! find a server, attach to it, and ask it a hundred times each.
#![tactic(auto)]

mod acting;
mod building;
mod naming;
mod planning;

pub use building::script;
