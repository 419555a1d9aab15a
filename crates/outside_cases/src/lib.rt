//! Cases of sources, of sinks, of the open gate and of the progress that is told on a sink. They
//! stand apart from `linx_outside` and `run_progress`, so that these are proved once.
#![tactic(auto)]

#[cfg(test)]
mod gates;
#[cfg(test)]
mod halting;
#[cfg(test)]
mod progress;
#[cfg(test)]
mod sinks;
#[cfg(test)]
mod sources;
