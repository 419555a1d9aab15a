//! A gate that holds turns of makers until turns of others have come.

use linx_outside::Gate;
use std::sync::Wait;
use std::sync::atomic::{AtomicU64, Ordering};
use std::thread;

/// A turn of a maker that is held until another maker's turn has come.
#[derive(Clone, Copy)]
pub struct Hold {
    maker: u32,
    turn: u64,
    other: u32,
    until: u64,
}

/// Holds this turn of a maker, counted as the gate counts them, until that turn of another maker
/// has come.
pub const fn until_other(maker: u32, turn: u64, other: u32, until: u64) -> Hold {
    Hold {
        maker,
        turn,
        other,
        until,
    }
}

/// Which turn of each of three makers has come last, and how many held turns gave up.
#[derive(Drop)]
pub struct HeldGate {
    holds: [Hold; 4],
    first: AtomicU64,
    second: AtomicU64,
    third: AtomicU64,
    gave_up: AtomicU64,
}

impl HeldGate {
    pub fn new(holds: [Hold; 4]) -> HeldGate {
        HeldGate {
            holds,
            first: AtomicU64::new(0),
            second: AtomicU64::new(0),
            third: AtomicU64::new(0),
            gave_up: AtomicU64::new(0),
        }
    }

    /// How many turns were held for too long.
    pub fn gave_up(&self) -> u64 {
        self.gave_up.load(Ordering::SeqCst)
    }

    fn come(&self, maker: u32) -> &AtomicU64 {
        match maker {
            1 => &self.first,
            2 => &self.second,
            _ => &self.third,
        }
    }

    fn wait_for(&self, maker: u32, turn: u64) {
        for _ in 0..1_000_000u32 {
            if self.come(maker).load(Ordering::SeqCst) >= turn {
                return;
            }
            thread::yield_now();
        }
        let _ = self.gave_up.fetch_add(1, Ordering::SeqCst);
    }
}

impl Gate for HeldGate {
    fn pass<R: Wait>(&self, _rt: &R, maker: u32, turn: u64) {
        self.come(maker).store(turn, Ordering::SeqCst);
        for hold in self.holds {
            if hold.maker == maker && hold.turn == turn {
                self.wait_for(hold.other, hold.until);
            }
        }
    }
}
