//! The lines of the steps of a printed journal, read back word by word. What is read of a line is
//! the value that it spells, and a line is read exactly where it spells one: `reading_laws` proves
//! it of the functions in `specs/`, which each call here is proved to follow. A signal's data of
//! more than 32 bytes are printed as a digest, and read as a stand-in: the digest, filled up with
//! 255 to their size.
#![tactic(auto)]

mod answers;
mod data;
mod effects;
mod filter;
mod heads;
mod lines;
mod names;
mod peers;

pub use lines::{Line, read_line};
