//! What a text is whose logs are found: the logs of a run's text are found, and a text whose logs
//! are found is that of the journal which was read of it, printed again byte for byte.
#![tactic(auto)]

mod laws;

pub use laws::{logs_are_found, text_is_printed_again};
