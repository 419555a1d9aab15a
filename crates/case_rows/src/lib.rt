//! Cases of the whole program that are data and not code: what it is given, and how it ends. They
//! stand in files of rows, of which this layer reads each line, and says what a text lacks of what a
//! row wants.
//!
//! A line that is set in by two spaces is one of the block that a line before it began. `#` begins a
//! remark. The others say one thing each of a row, which is given nothing, ends with 0 and writes
//! nothing where nothing else is said:
//!
//!     row NAME               begins it
//!     words WORD ..          a command line; of several, the row is played under each
//!     called WORD            the name by which the program is called
//!     unread                 memory is refused for the words
//!     input                  the block is what standard input has
//!     file NAME              it is what the file of this name has
//!     unopened NAME WHY      this file can't be opened: `missing`, `a-folder`, `not-allowed` or `other`
//!     keeps NAME ROOM        this file can be made, and takes so many bytes
//!     unmade NAME WHY        it can't be made: `a-folder`, `not-allowed` or `other`
//!     reads N                a read gives so many bytes
//!     bad-reads A B          the reads A to B fail, one each time that the row is played
//!     writes N               a write takes so many bytes
//!     bad-writes A B         the writes A to B fail, one each time; the text is cut where it does
//!     room N                 so many bytes of the text are taken
//!     line-room N            so many of the line on standard error
//!     exit N                 it ends with this exit status
//!     line TEXT              this is its line on standard error
//!     line-front TEXT        its line begins so
//!     text                   the block is its text
//!     front                  its text begins with the block
//!     part FIRST | KIND ..   of the part of its text whose first line begins with these words, a log or
//!                            the journal, the lines that begin with those of a KIND are the block
//!     count N END            so many lines of its text end with these words
//!     kept                   the block is what the file has that was made; else none was made
//!
//! In words and blocks `\x0a` is the byte of two such digits, `{3|ab}` is `ababab`, and a line that
//! ends with `\` has no line feed. `* 3 ab` in a block is the line `ab` three times, and `""` an empty
//! word. In the block of a part `link|dead` is one of these two words.
#![tactic(auto)]

mod block;
mod facts;
mod reading;
mod row;
mod saying;
mod spelling;

pub use facts::{Fact, lacks};
pub use reading::rows_of;
pub use row::{Given, Pace, Row, Text, Wanted};
pub use spelling::words_of;
