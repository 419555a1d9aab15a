//! The words of the command line: what each asks for, and what is said of it. One table has a row
//! for each word, in the order of the help. What the words ask for, the pages of the help, and what
//! is wrong with words that ask for nothing are read off it.
#![tactic(auto)]

mod charting;
mod command_line;
mod drawn;
mod line;
mod misuse;
mod nearest;
mod page;
mod range;
mod request;
mod search;
mod word;
mod work;

pub use charting::{Awaited, Charting, Choice};
pub use drawn::{Drawn, Kind};
pub use line::Line;
pub use misuse::Misuse;
pub use page::Page;
pub use range::Range;
pub use request::{Asked, Request, TurnOrder, file_named, journal_named};
pub use search::Search;
pub use word::{Said, WORDS, Word};
pub use work::{Report, Work};
