//! A range in waves, each tallied in pieces and joined with the waves before it.

ghost use Rattle.std.specs.Prelude.{◌+◌, ◌<◌, ◌^◌};
ghost use Rattle.seed_threads.specs.Tallies.{Tallies};

use crate::processors::pieces;
use crate::sizes::next_size;
use crate::tallies::{tally_in_pieces, with_wave};
use outcome_tally::Tally;
use run_progress::Progress;
use script_lang::ScriptError;
use std::alloc::Global;
use std::thread::Threads;

/// The tally of a range in waves of so many pieces. After each wave it is told how many of all runs
/// were made.
pub(crate) fn tally_in_waves<R: Threads + Sync, P: Progress>(
    rt: &R,
    alloc: Global,
    bytes: &[u8],
    actors: u32,
    first: u32,
    more: u32,
    progress: &mut P,
) -> Result<Tally, ScriptError>
    requires { first + more < 2 ^ 32 }
    ensures { Tallies bytes.now actors first more result }
{
    let pieces = pieces(rt);
    let all = u64::from(more) + 1;
    let mut done = more.min(pieces - 1);
    let mut tally = tally_in_pieces(rt, alloc, bytes, actors, first, done, pieces);
    let mut size = next_size(1, progress.made(u64::from(done) + 1, all));
    'waves: while done < more {
        if tally.is_err() {
            return tally;
        }
        let wave = (more - done - 1).min(pieces * size - 1);
        tally = with_wave(rt, alloc, bytes, actors, first, done, wave, pieces, tally);
        done += wave + 1;
        size = next_size(size, progress.made(u64::from(done) + 1, all));
    }
    tally
}
