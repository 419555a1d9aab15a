//! How a byte stream is cut into frames: whether the bytes that have come begin with a whole frame,
//! are a part of one, or begin none however they go on.
#![tactic(auto)]

mod framing;

pub use framing::front;
