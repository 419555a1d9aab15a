//! The bells of the workers, on which one that finds nothing to do sleeps. A worker hears its bell
//! before its turn, and sleeps only while the bell hasn't rung since: so no ring falls between.
//!
//! Where threads can't be made, the workers run one after another, and one that waits for a later
//! one would wait for ever. So before all have started none sleeps for longer than a moment, and
//! one that has slept so for a second gives up. Then all others give up too, where they would
//! sleep.

use crate::rings::Rings;
use linx_base::NoMemory;
use std::alloc::Global;
use std::hint::spin_loop;
use std::sync::Wait;
use std::sync::atomic::{AtomicU64, Ordering};
use std::time::Duration;

// How often a worker looks at its bell before it sleeps: what it waits for is mostly a moment away.
// It doesn't yield between: on a busy machine that gives the processor away for a whole turn.
const LOOKS: u32 = 200;

// How many milliseconds a worker sleeps that waits for others to start, and how often before it
// gives up.
const MOMENT: u64 = 1;

const MOMENTS: u32 = 1_000;

/// How often a bell was rung, and whether its worker sleeps, or is about to.
#[derive(Drop)]
struct Bell {
    rung: AtomicU64,
    asleep: AtomicU64,
}

impl Bell {
    fn new() -> Bell {
        Bell {
            rung: AtomicU64::new(0),
            asleep: AtomicU64::new(0),
        }
    }

    fn ring(&self) {
        let _ = self.rung.fetch_add(1, Ordering::SeqCst);
        if self.asleep.load(Ordering::SeqCst) != 0 {
            self.rung.wake_one();
        }
    }

    /// Whether the bell was rung since.
    fn was_rung(&self, heard: u64) -> bool {
        self.rung.load(Ordering::SeqCst) != heard
    }

    /// Looks for a little whether the bell rings.
    fn rings_soon(&self, heard: u64) -> bool {
        for _ in 0..LOOKS {
            if self.was_rung(heard) {
                return true;
            }
            spin_loop();
        }
        false
    }

    /// Sleeps until the bell rings, unless it was rung since. It may also return for no reason.
    fn sleep<R: Wait>(&self, rt: &R, heard: u64) {
        self.asleep.store(1, Ordering::SeqCst);
        self.rung.park(rt, low_half(heard));
        self.asleep.store(0, Ordering::SeqCst);
    }

    /// The same for a moment at most.
    fn doze<R: Wait>(&self, rt: &R, heard: u64) {
        self.asleep.store(1, Ordering::SeqCst);
        self.rung
            .park_timeout(rt, low_half(heard), Duration::from_millis(MOMENT));
        self.asleep.store(0, Ordering::SeqCst);
    }
}

fn low_half(heard: u64) -> u32 {
    u32::try_from(heard % 4_294_967_296).unwrap_or(0)
}

/// A bell for each worker, by its number from 1.
#[derive(Drop)]
pub(crate) struct Bells {
    each: Vec<Bell>,
    started: AtomicU64,
    given_up: AtomicU64,
}

impl Bells {
    /// The bells of so many workers, none of which has started.
    pub(crate) fn new(alloc: Global, workers: u32) -> Result<Bells, NoMemory> {
        let mut each = Vec::with_capacity(alloc, workers as usize)?;
        for _ in 0..workers {
            each.push(Bell::new())?;
        }
        Ok(Bells {
            each,
            started: AtomicU64::new(0),
            given_up: AtomicU64::new(0),
        })
    }

    /// One more worker has started.
    pub(crate) fn start(&self) {
        let _ = self.started.fetch_add(1, Ordering::SeqCst);
    }

    fn have_all_started(&self) -> bool {
        self.started.load(Ordering::SeqCst) >= self.each.len() as u64
    }

    fn bell(&self, number: u32) -> Option<&Bell> {
        self.each.get((number as usize).wrapping_sub(1))
    }

    /// How often a worker's bell was rung.
    pub(crate) fn heard(&self, number: u32) -> u64 {
        match self.bell(number) {
            Some(bell) => bell.rung.load(Ordering::SeqCst),
            None => 0,
        }
    }

    /// Rings the bells of those that are called.
    pub(crate) fn ring(&self, rings: Rings) {
        if rings.is_none() {
            return;
        }
        for (place, bell) in self.each.iter().enumerate() {
            if rings.calls(place) {
                bell.ring();
            }
        }
    }

    /// Rings all bells.
    pub(crate) fn ring_all(&self) {
        for bell in self.each.iter() {
            bell.ring();
        }
    }

    /// Waits until a worker's bell was rung more often than it heard. It may also return for no
    /// reason. It answers whether to go on, and else the worker gives up.
    pub(crate) fn wait<R: Wait>(&self, rt: &R, number: u32, heard: u64) -> bool {
        let Some(bell) = self.bell(number) else {
            return true;
        };
        if !self.await_start(rt, bell, heard) {
            self.give_up();
        }
        if self.has_one_given_up() {
            return false;
        }
        if !bell.rings_soon(heard) {
            bell.sleep(rt, heard);
        }
        true
    }

    /// Waits until all workers have started, the bell is rung, or one gave up. It answers whether
    /// that came.
    fn await_start<R: Wait>(&self, rt: &R, bell: &Bell, heard: u64) -> bool {
        for _ in 0..MOMENTS {
            if self.have_all_started() || bell.was_rung(heard) || self.has_one_given_up() {
                return true;
            }
            bell.doze(rt, heard);
        }
        false
    }

    fn has_one_given_up(&self) -> bool {
        self.given_up.load(Ordering::SeqCst) != 0
    }

    /// One gives up, and all others are to do the same.
    fn give_up(&self) {
        self.given_up.store(1, Ordering::SeqCst);
        self.ring_all();
    }
}
