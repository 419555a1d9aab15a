//! Cases of searches for a line, in one text and over the runs of seeds, and of the report of such
//! runs. They stand apart from `line_search`, `seed_search` and `seed_report`, so that those are proved
//! once.
#![tactic(auto)]

#[cfg(test)]
mod lines;
#[cfg(test)]
mod runs;
