//! An endpoint at the end of a byte stream that sends each signal back. It is served by frames of
//! the stream connection manager: what it says to the bytes of a stream is decided by them, in
//! whatever pieces they come.
#![tactic(auto)]

mod answering;
mod echo;
mod laws;
mod serving;
mod speaking;

pub use echo::Echo;
pub use laws::echo_is_decided;
pub use serving::serve;
