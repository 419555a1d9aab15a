//! What the crates of cases share. A case is mostly lines of text, each a call and what comes of
//! it: here are the calls of such lines, the values that their words spell, such values as words,
//! and the numbers by which a long run chooses what happens. No program stands on this crate.
#![tactic(auto)]

mod calls;
mod random;
mod texts;
mod values;

pub use calls::{follow, follow_anew, follow_sections, front, parted};
pub use random::Random;
pub use texts::{
    add_piece, asked_text, gone_text, inc_text, met_text, name_text, number_text, session_or_none,
    session_text, side_text, text_of, went_down_text, went_up_text, yes_text,
};
pub use values::{
    bytes_of, filter_of, inc_of, link_of, name_of, pair_of, path_of, peer_of, session_of, side_of,
};
