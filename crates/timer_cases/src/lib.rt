//! What deadlines and timers show: a few worked calls of each. They stand apart from the layers, so
//! that these are proved once.
#![tactic(auto)]

#[cfg(test)]
mod first_due;
#[cfg(test)]
mod timers;
