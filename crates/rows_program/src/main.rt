//! A test: it reads files of rows, plays each row over files and streams in memory, and tells of each
//! file how many of its rows the program ends as they say, and how it ends the others. Its words are
//! the names of these files.
#![tactic(auto)]

mod called;
mod difference;
mod in_memory;
mod play;

use crate::in_memory::most_commands;
use crate::play::play;
use anyhow::{Result, bail, ensure};
use case_rows::{Row, rows_of};
use linx_commands::Words;
use linx_outside::{Files as _, SystemFiles, read_up_to};
use std::fs::Files;
use std::str;
use std::sync::Wait;
use std::thread::Threads;

/// The rows of a file, of which each is played: so many aren't as they say.
fn play_file<R: Threads + Wait + Sync + Print + Eprint + AllocGlobal>(
    rt: &R,
    rows: &[Row],
) -> Result<u32> {
    let mut others: u32 = 0;
    for row in rows {
        if let Some(difference) = play(rt, rt.alloc(), row)? {
            others = others.saturating_add(1);
            println!(rt; "{}: {difference}", row.name.as_str())?;
        }
    }
    Ok(others)
}

/// The most bytes of a file of rows.
const FILE_MOST: usize = 1_048_576;

/// What the file of a name has.
fn text_named<R: Files + AllocGlobal>(rt: &R, name: &str) -> Result<Vec<u8>> {
    let Ok(mut file) = SystemFiles::new(rt).open(name) else {
        bail!("{name} can't be opened");
    };
    let mut text = Vec::new(rt.alloc());
    read_up_to(&mut file, &mut text, FILE_MOST)?;
    Ok(text)
}

/// The file of a name: whether all its rows are as they say.
fn play_named<R: Threads + Wait + Sync + Print + Eprint + AllocGlobal + Files>(
    rt: &R,
    name: &str,
) -> Result<bool> {
    let text = text_named(rt, name)?;
    let rows = rows_of(rt.alloc(), str::from_utf8(text.as_slice())?)?;
    let others = play_file(rt, &rows)?;
    println!(rt; "{name}: {} rows, {others} other than told", rows.len())?;
    Ok(others == 0)
}

fn main(rt: HostRuntime) -> Result<()> {
    let Words::Read(names) = Words::of(&rt, rt.alloc()) else {
        bail!("the words can't be read");
    };
    let mut are_as_told = true;
    for name in &names {
        are_as_told = play_named(&rt, name.as_str())? && are_as_told;
    }
    println!(rt; "{}", most_commands(rt.alloc())?)?;
    ensure!(are_as_told, "some rows are other than told");
    Ok(())
}
