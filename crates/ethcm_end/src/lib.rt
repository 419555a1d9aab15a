//! One end of a link between two nodes, over packets, pieces, the window, the session and the watch
//! of the layers below. It makes sessions with its peer, numbers the pieces of the messages that it
//! is offered and sends them until they are acknowledged, and hands up those that come, each frame
//! once and in order. What a packet, a tick or an offer makes of an end is a function of its state
//! and of what came, and the packets that it sends are handed out in order. An event changes the
//! end in place, and either stays, or is taken back as if it had never been.
#![tactic(auto)]

mod answers;
mod data;
mod end;
mod events;
mod laws;
mod parts;

pub use answers::{Input, Ticked};
pub use end::End;
pub use laws::{
    ends_keep_laws, input_answers_exactly, input_follows_rules, offer_follows_rules,
    tick_follows_rules,
};
