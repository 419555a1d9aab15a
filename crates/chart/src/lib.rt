//! A chart of a run, as values: a mark for each step and each effect of a journal, in the column
//! where it happened and in the order of the lines, and the ties between marks that belong
//! together. How they are drawn stands above: here nothing has a size or a colour.
#![tactic(auto)]

mod carried;
mod column;
mod flight;
mod mark;
mod marks;
mod openers;
mod tie;
mod ties;

pub use column::Column;
pub use mark::{Mark, MarkKind};
pub use marks::all_marks;
pub use tie::{Tie, TieKind};
pub use ties::all_ties;
