//! A program that uses the calls of LINX with no script: a server and two clients on one node, each
//! in a thread of its own. A client hunts for the server, attaches to it, asks it to double a number,
//! and waits until it is told that the server closed. What the program writes is the same in
//! whichever order the threads take their turns.
#![tactic(auto)]

mod calls;
mod client;
mod office;
mod server;
mod signals;

use crate::office::run_office;

fn main(rt: HostRuntime) -> anyhow::Result<()> {
    // What each actor has to tell, in the order of their numbers.
    for told in run_office(&rt, rt.alloc())? {
        // An actor that gave up tells why; the program ends with its words.
        println!(rt; "{}", told?)?;
    }
    Ok(())
}
