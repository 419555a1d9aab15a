//! A printed text read back to its journal: exactly the journals that the text spells, and else its
//! first bad line. The text is that of `journal_text` with another digest in the place of SHA-256,
//! the first 32 bytes: for data of more than 32 bytes a text shows a digest and their number alone,
//! and what is read in their place is that digest, filled up to the number.
#![tactic(auto)]

mod laws;
mod pending;
mod reading;
mod sharing;
mod unread;

pub use laws::{printed_is_read, readings_agree, steps_are_read, texts_are_read};
pub use reading::read;
pub use unread::Unread;
