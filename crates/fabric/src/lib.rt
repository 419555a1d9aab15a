//! The fabric with links: the nodes of a run, how its actors stand, the trunks of its links, and
//! the journal of what was done on them. Each call of `step` is one event of one maker. It adds
//! the step that the machine makes of the event after this journal, or none where the actor waits
//! already, and answers as the machine does. What a fabric keeps, whatever is asked of it, is that
//! its journal is legal by the laws of nodes and links, that each step is the machine's of what it
//! names and made of the trunks what its kind makes, that its kernels are what this journal leaves
//! of the nodes, and the standings what it leaves of the actors.
#![tactic(auto)]

mod actors;
mod bringing;
mod call;
mod fabric;
mod granting;
mod line;
mod links;
mod makings;
mod rest;
mod standing;
mod stop;
mod telling;
mod watched_journal;
mod wires;

pub use fabric::Fabric;
pub use stop::{StepStop, StopCause};
