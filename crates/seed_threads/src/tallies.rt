//! A range in pieces, each tallied in a thread of its own.

ghost use Rattle.std.specs.Prelude.{◌≡◌, ◌+◌, ◌<◌, ◌^◌};
ghost use denote.Param.Send.{IsSync};
ghost use Rattle.seed_threads.specs.Tallies.{HaveRoom, IsOfBoth, Tallies};

use linx_base::NoMemory;
use outcome_tally::Tally;
use script_lang::ScriptError;
use std::alloc::Global;
use std::thread::{Threads, join};

/// The tally of the front of a range, joined with that of what is behind it.
fn both(
    front: Result<Tally, ScriptError>,
    behind: Result<Tally, ScriptError>,
) -> Result<Tally, ScriptError>
    requires { HaveRoom front behind }
    ensures { IsOfBoth front behind result }
{
    match front {
        Ok(mut tally) => match behind {
            Ok(later) => match tally.add_all(later) {
                Ok(()) => Ok(tally),
                Err(NoMemory) => Err(ScriptError::NoMemory),
            },
            Err(error) => Err(error),
        },
        Err(error) => Err(error),
    }
}

/// The tally of one piece.
fn tally_of_one(
    alloc: Global,
    bytes: &[u8],
    actors: u32,
    first: u32,
    more: u32,
) -> Result<Tally, ScriptError>
    ensures { Tallies bytes.now actors first more result }
{
    seed_report::tally(alloc, bytes, actors, first, more)
}

/// The tally of a range in so many pieces.
pub(crate) fn tally_in_pieces<R: Threads + Sync>(
    rt: &R,
    alloc: Global,
    bytes: &[u8],
    actors: u32,
    first: u32,
    more: u32,
    pieces: u32,
) -> Result<Tally, ScriptError>
    requires { first + more < 2 ^ 32 }
    ensures { Tallies bytes.now actors first more result }
{
    if pieces <= 1 || more == 0 {
        return tally_of_one(alloc, bytes, actors, first, more);
    }
    let half = more / 2;
    let middle = first + half + 1;
    let rest = more - half - 1;
    let few = pieces / 2;
    let others = pieces - few;
    let (front, behind) = join(
        rt,
        move || -> Result<Tally, ScriptError>
            requires { IsSync R.row × (first + half < 2 ^ 32) }
            ensures { Tallies bytes.entry.now actors first half result }
        { tally_in_pieces(rt, alloc, bytes, actors, first, half, few) },
        move || -> Result<Tally, ScriptError>
            requires { IsSync R.row × (middle + rest < 2 ^ 32) }
            ensures { Tallies bytes.entry.now actors middle rest result }
        { tally_in_pieces(rt, alloc, bytes, actors, middle, rest, others) },
    );
    both(front, behind)
}

/// The tally of a front of a range, joined with that of a wave behind it, which is made in so many
/// pieces.
pub(crate) fn with_wave<R: Threads + Sync>(
    rt: &R,
    alloc: Global,
    bytes: &[u8],
    actors: u32,
    first: u32,
    done: u32,
    wave: u32,
    pieces: u32,
    front: Result<Tally, ScriptError>,
) -> Result<Tally, ScriptError>
    requires fits { first + (done + wave + 1) < 2 ^ 32 }
    requires front { Tallies bytes.now actors first done front }
    ensures { Tallies bytes.now actors first (done + wave + 1) result }
{
    let behind = tally_in_pieces(rt, alloc, bytes, actors, first + done + 1, wave, pieces);
    both(front, behind)
}
