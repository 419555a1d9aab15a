//! Cases of texts that are read back to their journals: texts that are printed again as they were,
//! long data, the first bad line of texts that were spoiled, logs that aren't those of the
//! steps, and what notifications are told by their attaches.
#![tactic(auto)]

#[cfg(test)]
mod again;
#[cfg(test)]
mod effects;
#[cfg(test)]
mod logs;
#[cfg(test)]
mod names;
#[cfg(test)]
mod spoiled;
#[cfg(test)]
mod texts;
#[cfg(test)]
mod told;
