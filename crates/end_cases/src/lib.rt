//! Tests of the ends of a link: exchanges at an end with its peer, over a link, and at an end of
//! RLNH, line by line; and a long run of free events over a link, which is judged by plain lists of
//! what was offered. They stand apart from the layers, so that those, and what stands on them, are
//! proved once.
#![tactic(auto)]

#[cfg(test)]
mod carrier_events;
#[cfg(test)]
mod carrier_rows;
#[cfg(test)]
mod ethcm_rows;
#[cfg(test)]
mod exchange;
#[cfg(test)]
mod free;
#[cfg(test)]
mod listed;
#[cfg(test)]
mod rlnh_rows;
