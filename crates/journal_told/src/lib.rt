//! A journal that was read from a text, with what its attaches tell of their notifications. A
//! notification has its attach's data with the byte of a reason behind them; where these are long, a
//! text shows a digest of each, which tell nothing of one another, so that what was read of the two
//! doesn't fit. Here the attach's data with the byte are put in the notification's place, wherever
//! what was read can be theirs. What comes out is to be checked against the laws; nothing else of
//! the journal changes.
#![tactic(auto)]

mod copies;
mod notes;
mod telling;

pub use telling::with_told;
