//! What a run writes: the printed text of its journal, or the summary of it, to a sink. Either is
//! made whole before the first byte goes out, so want of memory writes nothing; a write that fails
//! leaves some first bytes of it.
#![tactic(auto)]

mod counting;
mod reports;
mod summary;

pub use reports::{ReportError, write_report, write_summary};
