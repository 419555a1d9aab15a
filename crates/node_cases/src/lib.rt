//! Calls of a node's kernel and of the tables that it stands on, line by line with what is answered
//! as text; a queue that is compared with a scanned list; and a journal's steps by their positions.
//! They stand apart from the layers, so that these are proved once.
#![tactic(auto)]

#[cfg(test)]
mod exchanges;
#[cfg(test)]
mod journals;
#[cfg(test)]
mod kernel_calls;
#[cfg(test)]
mod kernel_lines;
#[cfg(test)]
mod scanned;
#[cfg(test)]
mod tables;
#[cfg(test)]
mod texts;
