//! Cases of what is printed of a journal: each line of a step, the logs, the whole text, and what
//! goes out to a sink. They stand apart from `journal_text` and `report`, so that those are proved
//! once.
#![tactic(auto)]

#[cfg(test)]
mod effects;
#[cfg(test)]
mod heads;
#[cfg(test)]
mod journals;
#[cfg(test)]
mod lines;
#[cfg(test)]
mod logs;
#[cfg(test)]
mod reports;
#[cfg(test)]
mod values;
