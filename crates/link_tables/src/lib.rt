//! What a history tells of links, kept in tables that follow it step by step. Of a side of a link:
//! how often it went down in each boot of its node, so which sessions it has and had; which session
//! is up, and with which one of the other side it is paired; and its ticks in silence. Of a link:
//! whether it is cut. Of all: what was opened, by which name, closed and met; what was sent to each
//! peer over a link, in which flows, and how much of it arrived. After each step a table is what the definitions of a
//! history say, so that whoever reads a journal in order looks nothing up in it.
#![tactic(auto)]

mod arrivals;
mod cut;
mod marks;
mod sent;
mod side;

pub use arrivals::Arrivals;
pub use cut::cut_after;
pub use marks::{Mark, Marks, MarksUnder};
pub use sent::{Flow, FlowKey, FlowsUnder, Sent, SentOver};
pub use side::SideTable;
