//! What the values of LINX, its filters, the fronts of a queue and the lists and sets below its tables
//! show: a few worked calls of each. They stand apart from the layers, so that these are proved once.
#![tactic(auto)]

#[cfg(test)]
mod copies;
#[cfg(test)]
mod filters;
#[cfg(test)]
mod fronts;
#[cfg(test)]
mod names;
#[cfg(test)]
mod signals;
#[cfg(test)]
mod tables;
#[cfg(test)]
mod values;
