//! The lines `order` of a script: the makers whose turns come first. They stand beside the script:
//! whoever reads it finds a comment in their place, so that all which holds of scripts holds of one
//! with such lines too.
#![tactic(auto)]

mod front;
mod lines;
mod ordered;
mod turns;

pub use ordered::{Ordered, read};
