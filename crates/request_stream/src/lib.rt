//! One server over one stream: requests come in whatever pieces the source gives, each whole one is
//! replied to before the next read, and the replies go to the sink. What is a request, and what the
//! server makes of one, is the server's own.
#![tactic(auto)]

mod backlog;
mod front;
mod laws;
mod server;
mod serving;
mod stop;

pub use backlog::Backlog;
pub use front::Front;
pub use laws::{one_answer, one_front};
pub use server::{Refusal, Server};
pub use serving::serve_stream;
pub use stop::ServeStop;
