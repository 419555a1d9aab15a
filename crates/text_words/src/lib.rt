//! The lines of a text, the words of a line, and the numbers that words spell: decimal, with no zero in front,
//! of 32 or of 64 bits, or of 64 bits by their halves. Each call is proved to follow a function on
//! lists in `specs/`, and fails exactly where that has no value, unless memory ran out: such a
//! function is a reading, and readings are put together by `>>=` and `made`.
#![tactic(auto)]

mod numbers;
mod read_error;
mod words;

pub use numbers::{halves_of, number, u32_of, u64_of};
pub use read_error::ReadError;
pub use words::{alone, behind, cut, is_text, only, split_at_byte, split_words, take_last};
