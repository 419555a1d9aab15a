//! A range in pieces, each searched in a thread of its own.

ghost use Rattle.std.specs.Prelude.{◌≡◌, ◌+◌, ◌<◌, ◌^◌, ℕ, map, string_bytes};
ghost use denote.Param.Send.{IsSync};
ghost use Rattle.seed_threads.specs.Answers.{Finds, front_or_behind};

use line_search::Sought;
use seed_runs::RunStop;
use seed_search::Found;
use std::alloc::Global;
use std::thread::{Threads, join};

/// What is found in a front of a range, or else behind it.
fn front_or_behind(
    front: Result<Option<Found>, RunStop>,
    behind: Result<Option<Found>, RunStop>,
) -> Result<Option<Found>, RunStop>
    ensures { result ≡ front_or_behind front behind }
{
    match front {
        Ok(None) => behind,
        Ok(Some(found)) => Ok(Some(found)),
        Err(stop) => Err(stop),
    }
}

/// The search of one piece.
fn find_in_one(
    alloc: Global,
    bytes: &[u8],
    first: u32,
    more: u32,
    sought: Sought,
    wanted: &[String],
) -> Result<Option<Found>, RunStop>
    ensures { Finds bytes.now first more sought (map string_bytes wanted.now) result }
{
    seed_search::find(alloc, bytes, first, more, sought, wanted)
}

/// The search of a range in so many pieces.
pub(crate) fn find_in_pieces<R: Threads + Sync>(
    rt: &R,
    alloc: Global,
    bytes: &[u8],
    first: u32,
    more: u32,
    pieces: u32,
    sought: Sought,
    wanted: &[String],
) -> Result<Option<Found>, RunStop>
    requires { first + more < 2 ^ 32 }
    ensures { Finds bytes.now first more sought (map string_bytes wanted.now) result }
{
    if pieces <= 1 || more == 0 {
        return find_in_one(alloc, bytes, first, more, sought, wanted);
    }
    let half = more / 2;
    let middle = first + half + 1;
    let rest = more - half - 1;
    let few = pieces / 2;
    let others = pieces - few;
    let (front, behind) = join(
        rt,
        move || -> Result<Option<Found>, RunStop>
            requires { IsSync R.row × (first + half < 2 ^ 32) }
            ensures { Finds bytes.entry.now first half sought (map string_bytes wanted.entry.now) result }
        { find_in_pieces(rt, alloc, bytes, first, half, few, sought, wanted) },
        move || -> Result<Option<Found>, RunStop>
            requires { IsSync R.row × (middle + rest < 2 ^ 32) }
            ensures { Finds bytes.entry.now middle rest sought (map string_bytes wanted.entry.now) result }
        { find_in_pieces(rt, alloc, bytes, middle, rest, others, sought, wanted) },
    );
    front_or_behind(front, behind)
}
