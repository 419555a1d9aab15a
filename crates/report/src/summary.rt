//! The text of a summary.
ghost use Rattle.std.specs.Prelude.{◌≡◌, ◌++◌, flat_map, OnOk, IfOk};
ghost use Rattle.report.specs.Summary.{summary_line, count_line, summary_of};

use crate::counting::{Counted, Happening, count, word};
use itoa::Buffer;
use journal::Journal;
use linx_base::NoMemory;
use std::alloc::Global;

/// What is counted, in order.
const COUNTED: [Counted; 8] = [
    Counted::Effects(Happening::Opened),
    Counted::Sent,
    Counted::Bytes,
    Counted::Effects(Happening::Arrived),
    Counted::Effects(Happening::Found),
    Counted::Effects(Happening::Notified),
    Counted::Taken,
    Counted::FoundNone,
];

/// A word and a number, in a line.
#[tactic(auto, unfolding(crate::specs::Summary::summary_line))]
fn write_line(out: &mut Vec<u8>, word: &str, number: u128) -> Result<(), NoMemory>
    ensures { OnOk result (out.new.items ≡ out.old.items ++ summary_line word.now number) }
{
    let mut buffer = Buffer::new();
    out.extend_from_slice(word.as_bytes())?;
    out.extend_from_slice(b" ")?;
    out.extend_from_slice(buffer.format(number).as_bytes())?;
    out.extend_from_slice(b"\n")?;
    Ok(())
}

/// A line for each count.
fn write_counts(out: &mut Vec<u8>, journal: &Journal, all: &[Counted]) -> Result<(), NoMemory>
    ensures { OnOk result (out.new.items
        ≡ out.old.items ++ flat_map (count_line journal.now.log.steps) all.now) }
{
    for counted in all {
        write_line(out, word(*counted), count(journal, *counted))?;
    }
    Ok(())
}

/// The summary of the journal.
#[tactic(auto, unfolding(crate::specs::Summary::summary_of))]
pub(crate) fn summary(alloc: Global, journal: &Journal) -> Result<Vec<u8>, NoMemory>
    ensures { IfOk result (λ text. text.items ≡ summary_of journal.now.log) }
{
    let names = journal.names();
    let mut text = Vec::new(alloc);
    write_line(&mut text, "nodes", names.nodes.len() as u128)?;
    write_line(&mut text, "links", names.links.len() as u128)?;
    write_counts(&mut text, journal, &COUNTED)?;
    Ok(text)
}
