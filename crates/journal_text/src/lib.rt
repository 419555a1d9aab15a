//! The printed text of a journal: the lines of each step, the log of each incarnation, and the
//! whole text of both. Each part of a line has one spelling, a definition by cases in `specs/`, and
//! each call that prints is proved to append just those bytes. Data of more than 32 bytes are shown by
//! their SHA-256; a journal that was read of a text has stand-ins for them, and is printed again by
//! their first bytes. What memory refuses isn't printed: a
//! buffer is left as it was.
#![tactic(auto)]

mod all_logs;
mod collecting;
mod data;
mod digests;
mod digits;
mod effects;
mod entries;
mod heads;
mod logs;
mod owners;
mod peers;
mod steps;
mod texts;
mod whole_text;
mod words;

pub use all_logs::{logs_again, write_log_title, write_logs};
pub use collecting::Logs;
pub use logs::write_log;
pub use steps::{write_count, write_step};
pub use whole_text::{text, text_again};
