//! The whole text of a journal.
ghost use Rattle.std.specs.Prelude.{◌≡◌, ◌++◌, OnOk, IfOk};
ghost use Rattle.journal_text.specs.Values.{first_bytes};
ghost use Rattle.journal_text.specs.Text.{steps_text, text_by, text_of};
ghost use Rattle.journal_text.specs.Known.{Fits, digest_by};

use crate::all_logs::write_logs_with;
use crate::digests::{DigestBy, Digests};
use crate::steps::{write_count, write_lines};
use journal::Journal;
use linx_base::NoMemory;
use std::alloc::Global;

/// The room that a text begins with: more memory than an allocator copies to let it grow.
const TEXT_ROOM: usize = 262_144;

fn write_steps(out: &mut Vec<u8>, journal: &Journal, digests: &Digests) -> Result<(), NoMemory>
    requires { Fits digests.now journal.now.log.steps }
    ensures { OnOk result (out.new.items ≡ out.old.items
        ++ steps_text (digest_by digests.now.by) journal.now.log.names journal.now.log.steps) }
{
    let mut next = 0;
    for done in 0..journal.len() {
        let step = journal.step_after(done);
        write_lines(out, journal.names(), digests, &mut next, done + 1, step)?;
    }
    Ok(())
}

/// The text, with these digests at hand.
fn text_with(alloc: Global, journal: &Journal, digests: &Digests) -> Result<Vec<u8>, NoMemory>
    requires { Fits digests.now journal.now.log.steps }
    ensures { IfOk result (λ printed.
        printed.items ≡ text_by (digest_by digests.now.by) journal.now.log) }
{
    if journal.is_empty() {
        return Ok(Vec::new(alloc));
    }
    let mut printed = Vec::with_capacity(alloc, TEXT_ROOM)?;
    write_logs_with(&mut printed, journal, digests)?;
    write_count(&mut printed, journal)?;
    write_steps(&mut printed, journal, digests)?;
    Ok(printed)
}

/// The text of the journal: nothing where it has no steps; else the logs of all opened incarnations
/// in order of opening, the number of steps, and the steps.
pub fn text(alloc: Global, journal: &Journal) -> Result<Vec<u8>, NoMemory>
    ensures { IfOk result (λ printed. printed.items ≡ text_of journal.now.log) }
{
    let digests = Digests::of(alloc, journal)?;
    text_with(alloc, journal, &digests)
}

/// The text with the first bytes of long data in the place of their SHA-256: that of a journal
/// which was read of a text, printed again.
pub fn text_again(alloc: Global, journal: &Journal) -> Result<Vec<u8>, NoMemory>
    ensures { IfOk result (λ printed. printed.items ≡ text_by first_bytes journal.now.log) }
{
    text_with(alloc, journal, &Digests::none(alloc, DigestBy::FirstBytes))
}
