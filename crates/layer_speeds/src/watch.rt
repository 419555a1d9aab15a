//! The time that work takes, told or not.

use anyhow::Context;
use std::io::Print;
use std::time::{Clock, Instant};

/// Whether a run tells times. Without them it prints the same each time.
#[derive(Clone, Copy)]
pub enum Times {
    Told,
    Untold,
}

/// When work began, where its time is to be told.
#[derive(Clone, Copy)]
pub struct Watch {
    start: Option<Instant>,
}

impl Watch {
    /// Work begins.
    pub fn new<R: Clock>(rt: &R, times: Times) -> anyhow::Result<Watch> {
        match times {
            Times::Untold => Ok(Watch { start: None }),
            Times::Told => Ok(Watch {
                start: Some(Instant::now(rt).context("clock")?),
            }),
        }
    }

    /// The nanoseconds since, where they are to be told.
    pub fn spent<R: Clock>(self, rt: &R) -> anyhow::Result<Option<u128>> {
        match self.start {
            None => Ok(None),
            Some(start) => Ok(Some(start.elapsed(rt).context("clock")?.as_nanos())),
        }
    }

    /// Prints what was done, and the nanoseconds that each of so many took.
    pub fn tell_each<R: Clock + Print>(self, rt: &R, done: &str, count: u32) -> anyhow::Result<()> {
        match self.spent(rt)? {
            None => println!(rt; "{done}")?,
            Some(spent) => println!(rt; "{done}: {} ns each", spent / u128::from(count.max(1)))?,
        }
        Ok(())
    }

    /// Prints what was done, and the milliseconds that it took.
    pub fn tell_all<R: Clock + Print>(self, rt: &R, done: &str) -> anyhow::Result<()> {
        match self.spent(rt)? {
            None => println!(rt; "{done}")?,
            Some(spent) => println!(rt; "{done}: {} ms", spent / 1_000_000)?,
        }
        Ok(())
    }
}
