//! Cases of what threads share: a lock with its turns, endpoints over a fabric, and workers that
//! run a script. They stand apart from `turn_lock`, `linx_api` and `workers`, so that those are
//! proved once.
#![tactic(auto)]

#[cfg(test)]
mod actor_calls;
#[cfg(test)]
mod answers;
#[cfg(test)]
mod callers;
#[cfg(test)]
mod endpoints;
#[cfg(test)]
mod held_gate;
#[cfg(test)]
mod link_side;
#[cfg(test)]
mod over_a_link;
#[cfg(test)]
mod turns;
#[cfg(test)]
mod workers_run;
