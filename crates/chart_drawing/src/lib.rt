//! The drawing of a chart: its marks, one in each row and in its column, and its ties, as a picture.
//! All places are whole numbers that follow from the rows and from what stands side by side: a box
//! for each node with a line for each of its actors, and a lane for each link before the later of its
//! nodes. Each mark is drawn once, at the place of its line; each tie joins the places of its two
//! lines; and nothing else stands in the rows. A view leaves out the lines of the journal, all but
//! some steps, or all but what is of some makers: the picture has the columns in which the marks stand
//! that are left, and the ties that reach into the steps and join a mark of the makers. Each mark that
//! is left begins a row, but where a run of steps of links without effects is folded into one: that
//! says how many packets, losses and ticks there were in each lane.
#![tactic(auto)]

mod arrows;
mod bands;
mod bars;
mod beside;
mod captions;
mod cells;
mod columns;
mod drawing;
mod fold;
mod ground;
mod labels;
mod lane_marks;
mod layout;
mod life_marks;
mod rows;
mod runs;
mod seen;
mod setting;
mod spot;
mod spots;
mod view;

pub use captions::{cut, label_class};
pub use cells::{put_box, put_path, put_words};
pub use drawing::{Chart, DrawError, draw};
pub use layout::{
    actors_before, actors_left, actors_on, is_narrow, later_end, links_before, links_left,
    links_to, nodes_before,
};
pub use rows::{put_bytes, put_number};
pub use setting::{DrawnActor, DrawnLink, DrawnNode, Setting};
pub use view::{Steps, View};
