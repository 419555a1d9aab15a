//! Tests of the leaf layers of a link: the packets on its wire, messages that are cut and joined,
//! the window, the session and the watch of an end, the addresses of a side, and the bytes of
//! packets and messages. Each is a transcript, lines of a call and its answer, in sections that
//! say what they show. They stand apart from the layers, so that those, and what stands on them,
//! are proved once.
#![tactic(auto)]

#[cfg(test)]
mod addresses;
#[cfg(test)]
mod frames;
#[cfg(test)]
mod messages;
#[cfg(test)]
mod packets;
#[cfg(test)]
mod pieces;
#[cfg(test)]
mod sessions;
#[cfg(test)]
mod watch;
#[cfg(test)]
mod windows;
#[cfg(test)]
mod wires;
