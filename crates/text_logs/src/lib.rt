//! Whether a printed text has the logs of its journal. A text is read from its steps alone; here
//! what stands before its line `journal N` is compared with the logs of the journal that was read of
//! it, block by block and with no second text, and the first line in which they differ is named.
#![tactic(auto)]

mod comparing;

pub use comparing::first_other;
