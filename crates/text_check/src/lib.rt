//! Whether a printed text is that of a legal run of a script. The steps that it spells are read with
//! the names of the script; in each notification stands what its attach tells; then every step is
//! judged by the laws of LINX, and at last the text's logs are compared with those of its steps.
//! Nothing of the program that made the text is believed. A text passes only where its steps are
//! legal and its logs are theirs; else the first bad line is named, or the first step that isn't
//! legal with the first law that it breaks, or the first line of the logs that isn't told; or that
//! it notes more than may be read.
#![tactic(auto)]

mod checking;
mod laws;
mod stop;

pub use checking::check;
pub use laws::{legal_texts_are_printed, texts_of_legal_runs_pass};
pub use stop::CheckStop;
