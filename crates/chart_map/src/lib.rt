//! A map of a long run, as SVG: in place of a row for each line it has at most 240 rows, each of them a
//! run of steps. Each actor and each direction of each link has a strip, in the order in which a chart
//! has their columns; a row of a strip is the darker the more of its steps are the strip's, in five
//! levels, and has an orange edge where one of them lost a packet. Each step is of one strip and of one
//! row. Beside the strips stand the lines that are rare in a run, each with a line to its row, as many as
//! there is room for, and how many more there are.
#![tactic(auto)]

mod beside;
mod captions;
mod cells;
mod grid;
mod layout;
mod map;
mod rare;
mod strips;
mod tally;

pub use map::map_in;
pub use strips::Strip;
