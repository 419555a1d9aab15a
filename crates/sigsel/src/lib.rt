//! Filters of signal numbers. A filter selects every number, the listed ones, or all but the listed
//! ones. A list of numbers that spells a filter begins with its count: 0 for all, n for the n
//! listed, -n for all but the n listed.
#![tactic(auto)]

mod numbers;
mod sigsel;
mod spelling;

pub use numbers::Numbers;
pub use sigsel::Sigsel;
pub use spelling::SelError;
