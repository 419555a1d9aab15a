//! The messages of RLNH, by which two nodes of a link tell each other which endpoints they have,
//! and their bytes; and the bodies by which signals go. Each message and each signal has one
//! spelling, and bytes that are no spelling are refused.
#![tactic(auto)]

mod fields;
mod laws;
mod reading;
mod rlnh;
mod signals;
mod writing;

pub use laws::{each_is_spelled, each_signal_goes, one_message, one_spelling};
pub use reading::{RlnhError, read};
pub use rlnh::Rlnh;
pub use signals::{read_signal, write_signal};
pub use writing::write;
