//! Exchanges over a trunk, line by line, and a long random run that is judged by a plain account of
//! what was said. They stand apart from `trunk`, so that it, and what stands on it, is proved once.
#![tactic(auto)]

#[cfg(test)]
mod account;
#[cfg(test)]
mod events;
#[cfg(test)]
mod lines;
#[cfg(test)]
mod random;
#[cfg(test)]
mod rows;
