//! What the requests and replies of a gateway show: worked rows of bytes.
#![tactic(auto)]

#[cfg(test)]
mod fronts;
#[cfg(test)]
mod rows;
