//! Cases of the trunks of a run, and of turns on a stage, line by line. They stand apart from
//! `run_trunks` and `stage`, so that those, and what stands on them, are proved once.
#![tactic(auto)]

#[cfg(test)]
mod played;
#[cfg(test)]
mod settling;
#[cfg(test)]
mod stage_rows;
#[cfg(test)]
mod trunk_calls;
#[cfg(test)]
mod trunk_rows;
