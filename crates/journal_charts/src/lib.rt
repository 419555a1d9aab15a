//! A chart of a journal, as SVG: what stands side by side is what its names and its steps tell, and
//! beside each row stands the line of its printed text. A node has the number of its name, an actor
//! stands on the node of the first endpoint that it opened, and a link joins the nodes whose first
//! effects a packet or a tick brought. What no step tells stands left or right of all nodes. Where the
//! script of the run is known, what stands side by side is what that declares: all of its nodes, links
//! and actors, these by their names.
#![tactic(auto)]

mod actors;
mod charts;
mod ends;
mod named;
mod rows;
mod setting;

pub use charts::{chart_in, chart_of};
pub use named::named_setting;
pub use rows::rows_in;
pub use setting::setting_of;
