//! The page round a chart, as HTML: the picture as it is, between what is the same on each page. There
//! captions stay in sight, as do the lines at the left; a click lights what belongs together, which it
//! reads off the lines of the picture; a search goes from row to row; and the part of an address
//! behind `#` is a row. A page takes nothing from elsewhere.
#![tactic(auto)]

mod page;

pub use page::page_of;
