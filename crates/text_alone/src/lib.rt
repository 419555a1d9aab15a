//! A printed text read by itself, without the script of its run: the journal that it spells with
//! the names of nodes and links that it spells.
#![tactic(auto)]

mod alone;
mod laws;

pub use alone::read_alone;
pub use laws::runs_are_read_alone;
