//! The search.

ghost use Rattle.std.specs.Prelude.{◌≡◌, IfErr, IfOk, map, option_map, string_bytes};
ghost use Rattle.seed_runs.specs.Runs.{IsStopOf};
ghost use Rattle.seed_search.specs.Searches.{IsAnswer, IsPrinted, IsShown, IsStop, found_text};

use itoa::Buffer;
use journal_text::text;
use line_search::{Sought, seek};
use linx_base::NoMemory;
use seed_runs::{RunStop, run_of_seed};
use std::alloc::Global;

/// A seed, and the line that its run shows.
#[derive(Drop)]
pub struct Found {
    pub seed: u64,
    pub line: Vec<u8>,
}

impl Found {
    /// What is written of it: a line with the seed, and the line.
    pub fn text(&self, alloc: Global) -> Result<Vec<u8>, NoMemory>
        ensures { IfOk result (λ text. text.items ≡ found_text self.now.seed self.now.line.items) }
    {
        let mut number = Buffer::new();
        let mut text = Vec::new(alloc);
        text.extend_from_slice(b"seed ")?;
        text.extend_from_slice(number.format(self.seed).as_bytes())?;
        text.extend_from_slice(b"\n")?;
        text.extend_from_slice(self.line.as_slice())?;
        Ok(text)
    }
}

/// The text of the run of a seed. The journal is let go here alone.
fn text_of_seed(alloc: Global, bytes: &[u8], seed: u64) -> Result<Vec<u8>, RunStop>
    ensures printed { IfOk result (λ text. IsPrinted bytes.now seed text.items) }
    ensures stopped { IfErr result (λ stop. IsStopOf bytes.now seed stop) }
{
    let journal = run_of_seed(alloc, bytes, seed)?;
    match text(alloc, &journal) {
        Ok(text) => Ok(text),
        Err(NoMemory) => Err(RunStop::NoMemory),
    }
}

/// A copy of a line.
fn copied(alloc: Global, line: Option<&[u8]>) -> Result<Option<Vec<u8>>, NoMemory>
    ensures { IfOk result (λ copy. option_map (λ l. l.items) copy
        ≡ option_map (λ l. l.now) line.entry) }
{
    match line {
        Some(line) => Ok(Some(Vec::from_slice(alloc, line)?)),
        None => Ok(None),
    }
}

/// What the run of a seed shows of what is sought.
fn shown_by(
    alloc: Global,
    bytes: &[u8],
    seed: u64,
    sought: Sought,
    wanted: &[String],
) -> Result<Option<Vec<u8>>, RunStop>
    ensures shown { IfOk result (λ line. IsShown bytes.now sought (map string_bytes wanted.now) seed
        (option_map (λ l. l.items) line)) }
    ensures stopped { IfErr result (λ stop. IsStopOf bytes.now seed stop) }
{
    let text = text_of_seed(alloc, bytes, seed)?;
    let line = seek(alloc, text.as_slice(), sought, wanted)?;
    Ok(copied(alloc, line)?)
}

/// THE FIRST SEED, of this one and so many behind it, whose run shows what is sought, and the line;
/// `None` where no run does. It stops at the first run that isn't whole.
pub fn find(
    alloc: Global,
    bytes: &[u8],
    first: u32,
    more: u32,
    sought: Sought,
    wanted: &[String],
) -> Result<Option<Found>, RunStop>
    ensures answer { IfOk result (λ found. IsAnswer bytes.now first more sought
        (map string_bytes wanted.now) found) }
    ensures stopped { IfErr result (λ stop. IsStop bytes.now first more sought
        (map string_bytes wanted.now) stop) }
{
    let from = u64::from(first);
    let behind = from + u64::from(more) + 1;
    'seeds: for seed in from..behind {
        match shown_by(alloc, bytes, seed, sought, wanted) {
            Ok(None) => {}
            Ok(Some(line)) => return Ok(Some(Found { seed, line })),
            Err(stop) => return Err(stop),
        }
    }
    Ok(None)
}
