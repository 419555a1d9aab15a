//! Cases of the lines `order` of a script: each spelling of turns, lines that say none, and bad ones;
//! of those that list the turns of a journal; and of texts that list makers. They stand apart from
//! `order_lines`, `turn_lines` and `maker_words`, so that these are proved once.
#![tactic(auto)]

#[cfg(test)]
mod bad_orders;
#[cfg(test)]
mod fronts;
#[cfg(test)]
mod makers;
#[cfg(test)]
mod scripts;
#[cfg(test)]
mod told;
