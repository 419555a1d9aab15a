//! The requests of the clients of a gateway and the replies to them, and the bytes of both. Each
//! request and each reply has one spelling, no request is a front of another, and of the bytes of a
//! stream it is known at once whether they can become one.
#![tactic(auto)]

mod fields;
mod filter;
mod front;
mod laws;
mod reading;
mod reply;
mod request;
mod writing;

pub use filter::filter_of;
pub use front::{Front, front_of};
pub use laws::{none_goes_on, one_front, one_request};
pub use reading::{Asked, read};
pub use reply::Reply;
pub use request::Request;
pub use writing::{REPLY_MOST, write_reply};
