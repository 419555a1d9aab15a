//! Whether a printed text is that of a run of a script. A text tells who made each step, and these
//! makers decide a whole run; so the run is made again in their order, by rounds behind them, and
//! its text is compared with the one at hand. They are one exactly where the text is that of a whole
//! run, by threads or not. Else the first line that is another is named: of the steps, and where
//! these are the same, of the logs.
#![tactic(auto)]

mod front;
mod laws;
mod lines;
mod replaying;
mod stop;

pub use laws::{filled_are_none, others_are_none};
pub use replaying::replay;
pub use stop::ReplayStop;
