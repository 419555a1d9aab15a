//! How many threads run side by side.

ghost use Rattle.std.specs.Prelude.{◌≤◌};

use std::thread::{Threads, available_parallelism};

/// The most pieces of a range.
const PIECES_MOST: u32 = 64;

/// One piece for each processor; one where it can't be told how many there are.
pub(crate) fn pieces<R: Threads>(rt: &R) -> u32
    ensures some { 1 ≤ result }
    ensures few { result ≤ 64 }
{
    match available_parallelism(rt) {
        Ok(count) if count.get() < PIECES_MOST as usize => count.get() as u32,
        Ok(_) => PIECES_MOST,
        Err(_) => 1,
    }
}
