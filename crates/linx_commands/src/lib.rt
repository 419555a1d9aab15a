//! linx_commands is what the program `linx_sim` does. It reads a script of nodes, links, planned
//! losses and actors, runs it with a thread for each actor and each link, in the fixed order, or in
//! one that a number decides, and writes each endpoint's log and the journal of all steps; or it runs
//! the generated script of a number with such threads, and writes the summary of the journal; or it
//! writes a page of the help; or it does a work with what it reads: it finds the first of many such
//! orders whose run shows what is sought, or reports what comes in them, or writes the order of a
//! printed run, or its picture, or tells whether it is that of its script, or a legal one; or it
//! serves one peer over the program's streams by an echo, or clients by a gateway, whose journal it may
//! keep in a file.
//! `alone` does what takes no thread and is no work, and `run` all of it. `program` is the whole program, over a
//! command line, files and streams of any kind. It alone gives a `Told`, so a `main` with this
//! result can't end in any other way.
#![tactic(auto)]

mod charts;
mod checking;
mod in_threads;
mod keeping;
mod laws;
mod outcome;
mod phrase;
mod printed;
mod replay;
mod search;
mod seeds;
mod serving;
mod session;
mod status_line;
mod told;
mod verdict;
mod whole_program;
mod words;
mod works;

pub use in_threads::run;
pub use laws::journals_are_decided;
pub use outcome::{Outcome, Status, TextFault, Unlike};
pub use serving::{InThreads, Left, alone, in_order};
pub use told::Told;
pub use whole_program::program;
pub use words::{Unread, Words};
