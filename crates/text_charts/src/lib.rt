//! The chart of a printed text, behind whose script it may stand. Where a line is exactly `text`, what
//! stands before it is the script of the run, whose lines `order` mean nothing here, and what stands
//! behind it is the text: its steps are read with the names of the script, and are drawn among all
//! nodes, links and actors that the script declares, these by their names. Where there is no such line,
//! all is the text: it is read with the names that it spells, and is drawn among what it tells. A run is
//! drawn as a picture, as a page round that picture, or as a map. Else the first bad line of the script
//! is named, or that of the text, or that the text notes more than may be read; or there would be more
//! rows or columns than a chart has.
#![tactic(auto)]

mod drawing;
mod kind;
mod reading;
mod stop;

pub use drawing::chart;
pub use kind::Kind;
pub use stop::ChartStop;
