//! The words that spell numbers and makers. A number has one to ten decimal digits, as in a script.
//! `A3` is actor 3 and `P1` the pump of link 1, each from 1; a list of makers is such words with a
//! comma between each two and no blank, as `A1,P2`. What lists none is told apart without memory.
#![tactic(auto)]

mod digits;
mod maker;
mod makers;

pub use digits::number;
pub use makers::{are_makers, makers_in};
