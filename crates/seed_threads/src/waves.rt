//! A range in waves, each behind the one before, so that what is found early is told early.

ghost use Rattle.std.specs.Prelude.{◌≡◌, ◌+◌, ◌<◌, ◌^◌, IfErr, IfOk, map, string_bytes};
ghost use Rattle.seed_search.specs.Searches.{IsAnswer, IsStop};
ghost use Rattle.seed_threads.specs.Answers.{Finds};

use crate::pieces::find_in_pieces;
use crate::processors::pieces;
use crate::sizes::next_size;
use line_search::Sought;
use run_progress::Progress;
use seed_runs::RunStop;
use seed_search::Found;
use std::alloc::Global;
use std::thread::Threads;

/// The search of a range in waves of so many pieces. After each wave it is told how many of all runs
/// were made.
fn find_in_waves<R: Threads + Sync, P: Progress>(
    rt: &R,
    alloc: Global,
    bytes: &[u8],
    first: u32,
    more: u32,
    sought: Sought,
    wanted: &[String],
    progress: &mut P,
) -> Result<Option<Found>, RunStop>
    requires { first + more < 2 ^ 32 }
    ensures { Finds bytes.now first more sought (map string_bytes wanted.now) result }
{
    let pieces = pieces(rt);
    let all = u64::from(more) + 1;
    let mut from = first;
    let mut left = more;
    let mut size: u32 = 1;
    'waves: loop {
        let wave = left.min(pieces * size - 1);
        match find_in_pieces(rt, alloc, bytes, from, wave, pieces, sought, wanted) {
            Ok(None) => {}
            Ok(Some(found)) => return Ok(Some(found)),
            Err(stop) => return Err(stop),
        }
        let is_told = progress.made(all - u64::from(left - wave), all);
        if wave == left {
            return Ok(None);
        }
        from += wave + 1;
        left -= wave + 1;
        size = next_size(size, is_told);
    }
}

/// THE FIRST SEED, of this one and so many behind it, whose run shows what is sought, and the line;
/// `None` where no run does. It stops at the first run that isn't whole. Where the seeds go past
/// 4,294,967,295 they are searched one after another, and no progress is told.
pub fn find<R: Threads + Sync, P: Progress>(
    rt: &R,
    alloc: Global,
    bytes: &[u8],
    first: u32,
    more: u32,
    sought: Sought,
    wanted: &[String],
    progress: &mut P,
) -> Result<Option<Found>, RunStop>
    ensures answer { IfOk result (λ found. IsAnswer bytes.now first more sought
        (map string_bytes wanted.now) found) }
    ensures stopped { IfErr result (λ stop. IsStop bytes.now first more sought
        (map string_bytes wanted.now) stop) }
{
    match first.checked_add(more) {
        Some(_) => find_in_waves(rt, alloc, bytes, first, more, sought, wanted, progress),
        None => seed_search::find(alloc, bytes, first, more, sought, wanted),
    }
}
