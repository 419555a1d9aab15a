//! A row is played: under each of its command lines, with each of its reads and writes that fail.

use crate::called::words_given;
use crate::difference::{of_kept, of_line, of_text};
use anyhow::{Result, ensure};
use case_rows::{Given, Pace, Row};
use linx_commands::program;
use linx_files::MemNewFile;
use linx_outside::{MemFile, MemSink, MemSource};
use run_progress::Untold;
use std::alloc::Global;
use std::process::{ExitCode, Termination};
use std::sync::Wait;
use std::thread::Threads;

/// The calls that fail this time; 0 for none.
#[derive(Clone, Copy)]
struct Bad {
    read: u64,
    write: u64,
}

/// What the program left.
#[derive(Drop)]
struct Left {
    exit: ExitCode,
    text: MemSink,
    errors: MemSink,
}

/// The calls that fail, as a list.
fn fails(alloc: Global, bad: u64) -> Result<Vec<u64>> {
    Ok(Vec::from_slice(alloc, &[bad])?)
}

/// Standard input.
fn source_of(alloc: Global, given: &Given, bad: u64) -> Result<MemSource> {
    let most = given.reads.most;
    ensure!(most > 0, "a read gives no bytes");
    let bytes = Vec::from_slice(alloc, given.input.as_slice())?;
    Ok(MemSource::new(bytes, most, fails(alloc, bad)?))
}

/// Standard output.
fn sink_of(alloc: Global, given: &Given, bad: u64) -> Result<MemSink> {
    let most = given.writes.most;
    ensure!(most > 0, "a write takes no bytes");
    Ok(MemSink::new(alloc, most, given.room, fails(alloc, bad)?)?)
}

/// Room for so many bytes, of which a write takes seven.
fn small_sink(alloc: Global, room: usize) -> Result<MemSink> {
    Ok(MemSink::new(alloc, 7, room, Vec::new(alloc))?)
}

/// The file that can be read.
fn file_of(given: &Given) -> MemFile<'_> {
    MemFile {
        name: given.file.as_str(),
        content: match given.unopened {
            None => Ok(given.content.as_slice()),
            Some(why) => Err(why),
        },
    }
}

/// The program, over what a row gives it, with this command line.
fn left_by<R: Threads + Wait + Sync + Eprint>(
    rt: &R,
    alloc: Global,
    given: &Given,
    (line, bad): (&str, Bad),
    kept: &mut MemNewFile<'_>,
) -> Result<Left> {
    let words = words_given(alloc, given, line)?;
    let mut source = source_of(alloc, given, bad.read)?;
    let mut text = sink_of(alloc, given, bad.write)?;
    let mut errors = small_sink(alloc, given.line_room)?;
    let told = program(
        rt,
        alloc,
        words,
        &file_of(given),
        kept,
        &mut source,
        &mut text,
        &mut errors,
        &mut Untold,
    );
    let exit = told.report(rt);
    Ok(Left { exit, text, errors })
}

/// So many bytes are written before the write that fails.
fn cut(writes: Pace, bad: u64) -> usize {
    match bad.checked_sub(1) {
        Some(whole) => writes.most.saturating_mul(whole as usize),
        None => usize::MAX,
    }
}

/// What is other than the row says, this time.
fn play_once<R: Threads + Wait + Sync + Eprint>(
    rt: &R,
    alloc: Global,
    row: &Row,
    line: &str,
    bad: Bad,
) -> Result<Option<String>> {
    let given = &row.given;
    let sink = small_sink(alloc, given.keeps_room)?;
    let mut kept = MemNewFile::new(given.keeps.as_str(), given.unmade, sink);
    let left = left_by(rt, alloc, given, (line, bad), &mut kept)?;
    if left.exit != ExitCode::from(row.wanted.exit) {
        return Ok(Some(String::from_str(alloc, "another exit status")?));
    }
    if let Some(other) = of_line(alloc, &row.wanted, left.errors.held())? {
        return Ok(Some(other));
    }
    if let Some(other) = of_kept(alloc, &row.wanted, kept.held())? {
        return Ok(Some(other));
    }
    of_text(
        alloc,
        &row.wanted,
        cut(given.writes, bad.write),
        left.text.held(),
    )
}

/// With each write that fails.
fn play_writes<R: Threads + Wait + Sync + Eprint>(
    rt: &R,
    alloc: Global,
    row: &Row,
    line: &str,
    read: u64,
) -> Result<Option<String>> {
    let Pace {
        first_bad,
        last_bad,
        ..
    } = row.given.writes;
    for write in first_bad..=last_bad {
        let other = play_once(rt, alloc, row, line, Bad { read, write })?;
        if other.is_some() {
            return Ok(other);
        }
    }
    Ok(None)
}

/// With each read that fails.
fn play_reads<R: Threads + Wait + Sync + Eprint>(
    rt: &R,
    alloc: Global,
    row: &Row,
    line: &str,
) -> Result<Option<String>> {
    let Pace {
        first_bad,
        last_bad,
        ..
    } = row.given.reads;
    for read in first_bad..=last_bad {
        let other = play_writes(rt, alloc, row, line, read)?;
        if other.is_some() {
            return Ok(other);
        }
    }
    Ok(None)
}

/// A row is played: what is other than it says.
pub(crate) fn play<R: Threads + Wait + Sync + Eprint>(
    rt: &R,
    alloc: Global,
    row: &Row,
) -> Result<Option<String>> {
    ensure!(!row.given.words.is_empty(), "a row has no line `words`");
    for line in &row.given.words {
        if let Some(other) = play_reads(rt, alloc, row, line.as_str())? {
            return Ok(Some(format!(in alloc; "under {line}: {other}")?));
        }
    }
    Ok(None)
}
